ghost use Rattle.std.specs.Prelude.{◌≡◌, ◌⊎◌, ◌≤◌, ◌<◌, ℕ, ◌++◌, ◌%◌, vec_len, length, take, drop, min, replicate, false, true, IfOk, OnErr, MatchOption, slice_get};
ghost use Rattle.mid_base.specs.Address.{in_scope, same_dev as same_dev_seen};
ghost use Rattle.mid_base.specs.Bytes.{cdb_list, sense_list};
ghost use Rattle.host_template.specs.Probes.{IsProbe};
ghost use Rattle.debug_lun.specs.Units.{reply_of};
ghost use Rattle.debug_lun.specs.Commands.{sense};
ghost use Rattle.debug_lun.specs.Serving.{serve, placed, refusal_reply};
ghost use Rattle.adapter_tables.specs.Units.{data_out, outcome, status_reply, served_pair};
ghost use Rattle.adapter_tables.specs.Answering.{Answers};
ghost use Rattle.adapter_tables.specs.TablesOf.{units_of};
ghost use Rattle.adapter_tables.specs.Ties.{has_unit, WasServed, WasKept, WereKept, WasReset, WereReset};

use crate::addresses::covers;
use crate::{Held, UnitRow, UnitTable};
use debug_lun::data_needed;
use mid_base::{
    Answer, CHECK_CONDITION, CdbBytes, DID_OK, DevAddr, Fault, GOOD, HostByte, NoMemory, Scope,
    SenseBytes,
};
use sense_data::build_fixed;

// The place of a device's unit.
pub(crate) fn place(units: &UnitTable, dev: DevAddr) -> Option<usize>
    ensures { MatchOption result (has_unit (units_of units.now) dev ≡ false) (λ i. (i < length (units_of units.now)) × ((x : _) → slice_get (units_of units.now) i ≡ Some x → same_dev_seen x.dev dev ≡ true) × (has_unit (take i (units_of units.now)) dev ≡ false)) }
{
    units.at.find(dev)
}

// An answer that moves nothing.
fn answer(host: HostByte, status: u8, sense: SenseBytes) -> Answer
    ensures { reply_of result ≡ status_reply host.0 status (sense_list sense) }
{
    Answer {
        host,
        status,
        sense,
        moved: 0,
        sum: 0,
    }
}

fn check(key: u8, asc: u8, ascq: u8) -> Answer
    ensures { reply_of result ≡ refusal_reply (sense (key % 16) (asc, ascq)) }
{
    answer(
        DID_OK,
        CHECK_CONDITION,
        build_fixed(key % 16, asc, ascq, None, false),
    )
}

// Puts so many bytes of a write's data into the front of the buffer.
fn fill_front(buffer: &mut [u8], count: usize, byte: u8)
    requires { count ≤ length buffer.old }
    ensures { take count buffer.new ≡ replicate count byte }
{
    buffer[..count].fill(byte);
}

// Makes the command of an attempt.
fn execute(x: &mut UnitRow, h: &Held, buffer: &mut [u8]) -> Result<Answer, NoMemory>
    requires { length buffer.old ≡ 131072 }
    ensures ok { IfOk result (λ a. WasServed x.old x.new (λ luns u. served_pair (serve u (cdb_list h.now.cdb) luns (data_out h.now.fill))) (reply_of a)) }
    ensures err { OnErr result (WasKept x.old x.new) }
    ensures len { length buffer.new ≡ length buffer.old }
{
    fill_front(buffer, data_needed(&h.cdb), h.fill);
    x.lun.exec(&h.cdb, &x.luns, buffer)
}

// Answers an attempt that is due.
fn finish(x: &mut UnitRow, h: &Held, buffer: &mut Vec<u8>) -> Result<Answer, NoMemory>
    requires { length buffer.old.items ≡ 131072 }
    ensures ok { IfOk result (λ a. WasServed x.old x.new (λ luns u. outcome luns h.now u) (reply_of a)) }
    ensures err { OnErr result (WasKept x.old x.new) }
    ensures dev { x.new.dev ≡ x.old.dev }
    ensures len { length buffer.new.items ≡ length buffer.old.items }
{
    match h.fault {
        Some(Fault::Check(key, asc, ascq)) => Ok(check(key, asc, ascq)),
        Some(Fault::NoSense(key, asc, ascq)) => {
            x.lun.pend(key % 16, asc, ascq);
            Ok(answer(DID_OK, CHECK_CONDITION, SenseBytes::empty()))
        }
        Some(Fault::Raw(sense)) => Ok(answer(DID_OK, CHECK_CONDITION, sense)),
        Some(Fault::Status(host, status)) => Ok(answer(host, status, SenseBytes::empty())),
        _ => execute(x, h, buffer),
    }
}

/// Answers an attempt that is due, by its fault or by its unit, which then executes the command. `buffer` has 131,072 bytes,
/// room for the data of 256 blocks; what it holds afterwards is of no use. Where the device has no unit, which no journal of
/// an adapter comes to, the answer is GOOD and nothing changes. NoMemory where there is no memory for the blocks of a write;
/// then no unit has changed.
pub fn answer_held(
    units: &mut UnitTable,
    h: &Held,
    buffer: &mut Vec<u8>,
) -> Result<Answer, NoMemory>
    requires { length buffer.old.items ≡ 131072 }
    ensures ok { IfOk result (λ a. Answers (units_of units.old) (units_of units.new) h.now (reply_of a)) }
    ensures err { OnErr result (WereKept (units_of units.old) (units_of units.new)) }
    ensures len { length buffer.new.items ≡ length buffer.old.items }
{
    let Some(i) = place(units, h.dev) else {
        return Ok(answer(DID_OK, GOOD, SenseBytes::empty()));
    };
    match finish(&mut units.units[i], h, buffer) {
        Ok(a) => Ok(a),
        Err(NoMemory) => Err(NoMemory),
    }
}

fn reset(x: &mut UnitRow, scope: Scope)
    ensures { WasReset scope x.old x.new }
{
    if covers(scope, x.dev) {
        x.lun.reset();
    }
}

fn reset_units(units: &mut [UnitRow], scope: Scope)
    ensures { WereReset scope units.old units.new }
{
    if let Some((first, others)) = units.split_first_mut() {
        reset(first, scope);
        reset_units(others, scope);
    }
}

fn reset_rows(units: &mut Vec<UnitRow>, scope: Scope)
    ensures { WereReset scope units.old.items units.new.items }
{
    reset_units(units, scope);
}

// Resets the units in the scope.
pub(crate) fn reset_all(table: &mut UnitTable, scope: Scope)
    ensures { WereReset scope (units_of table.old) (units_of table.new) }
{
    reset_rows(&mut table.units, scope);
}
