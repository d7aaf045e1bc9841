ghost use Rattle.std.specs.Prelude.{◌≡◌, ◌≤◌, ℕ, List, length, take, IfOk, OnOk, OnErr, true};
ghost use Rattle.mid_base.specs.Bytes.{cdb_list};
ghost use Rattle.mid_base.specs.declared.bytes.CdbBytes.{CdbBytes as Cdb};
ghost use Rattle.mid_base.specs.Codes.{request_sense, inquiry, report_luns};
ghost use Rattle.host_template.specs.Probes.{IsProbe, allocation, code_of, taken};
ghost use Rattle.debug_lun.specs.Units.{LogicalUnit, reply_of, unit_of};
ghost use Rattle.debug_lun.specs.Commands.{read_command};
ghost use Rattle.debug_lun.specs.Serving.{serve, placed, is_accepted_write};
ghost use Rattle.mid_base.specs.declared.answers.ProbeSay.TheVariants.{Answered};
ghost use Rattle.adapter_tables.specs.Units.{data_out, probed, served_pair};
ghost use Rattle.adapter_tables.specs.Answering.{Probes, FetchesSense};
ghost use Rattle.adapter_tables.specs.Ties.{WasServed};
ghost use Rattle.adapter_tables.specs.TablesOf.{units_of};

use crate::units::place;
use crate::{UnitRow, UnitTable};
use mid_base::{Answer, CdbBytes, DevAddr, NoMemory, ProbeSay};

/// What a unit makes of the commands of recovery and scanning: none gives more data than its allocation length (SPC-4, 4.2.5.6);
/// REQUEST SENSE is GOOD and gives valid sense data; INQUIRY and REPORT LUNS leave the unit as it was.
pub fn probes_are_served()
    ensures fits { (luns : List ℕ) (u : LogicalUnit) (cdb : Cdb) → IsProbe cdb → length (probed luns u (code_of cdb)).data_in ≤ allocation (code_of cdb) }
    ensures sense { (luns : List ℕ) (u : LogicalUnit) → FetchesSense (probed luns u request_sense) }
    ensures inquiry { (luns : List ℕ) (u : LogicalUnit) → (probed luns u inquiry).unit ≡ u }
    ensures report_luns { (luns : List ℕ) (u : LogicalUnit) → (probed luns u report_luns).unit ≡ u }
{}

// Makes the command of a probe, which looks at no data-out.
#[tactic(auto, using(crate::proofs::ProbeLaws::probe_looks_at_none))]
fn serve_probe(x: &mut UnitRow, cdb: &CdbBytes, buffer: &mut [u8]) -> Result<Answer, NoMemory>
    requires room { length buffer.old ≡ 131072 }
    requires known { IsProbe cdb.now }
    ensures ok { IfOk result (λ a. WasServed x.old x.new (λ luns u. served_pair (serve u (cdb_list cdb.now) luns (data_out 0))) (reply_of a)) }
    ensures given { OnOk result (buffer.new ≡ placed (serve (unit_of x.old.lun) (cdb_list cdb.now) x.old.luns.items (data_out 0)).data_in buffer.old) }
    ensures write { OnErr result (is_accepted_write (unit_of x.old.lun) (read_command (cdb_list cdb.now)) ≡ true) }
{
    x.lun.exec(cdb, &x.luns, buffer)
}

// Copies so many bytes from the front of one buffer to that of another.
fn put_front(from: &[u8], count: usize, into: &mut [u8])
    requires has { count ≤ length from.now }
    requires room { count ≤ length into.old }
    ensures { take count into.new ≡ take count from.now }
{
    into[..count].copy_from_slice(&from[..count]);
}

fn answer_probe(x: &mut UnitRow, cdb: &CdbBytes, buffer: &mut [u8], into: &mut [u8]) -> Answer
    requires buffer { length buffer.old ≡ 131072 }
    requires room { 2056 ≤ length into.old }
    requires known { IsProbe cdb.now }
    ensures served { WasServed x.old x.new (λ luns u. served_pair (probed luns u (code_of cdb.now))) (reply_of result) }
    ensures given { taken (code_of cdb.now) (Answered result) into.new ≡ (probed x.old.luns.items (unit_of x.old.lun) (code_of cdb.now)).data_in }
{
    let Ok(a) = serve_probe(x, cdb, buffer) else {
        unreachable!()
    };
    put_front(buffer, a.moved as usize, into);
    a
}

/// Answers a command of recovery or scanning, one of the five probes, by the unit of its device; silent exactly where the device has
/// none. `buffer` has 131,072 bytes, and what it holds afterwards is of no use; the data-in stands in the front of `into`,
/// which has 2,056 bytes at least.
pub fn probe_unit(
    units: &mut UnitTable,
    dev: DevAddr,
    cdb: &CdbBytes,
    buffer: &mut Vec<u8>,
    into: &mut [u8],
) -> ProbeSay
    requires buffer { length buffer.old.items ≡ 131072 }
    requires room { 2056 ≤ length into.old }
    requires known { IsProbe cdb.now }
    ensures says { Probes (units_of units.old) (units_of units.new) dev (code_of cdb.now) into.new result }
    ensures len { length buffer.new.items ≡ length buffer.old.items }
{
    match place(units, dev) {
        Some(i) => ProbeSay::Answered(answer_probe(&mut units.units[i], cdb, buffer, into)),
        None => ProbeSay::Silent,
    }
}
