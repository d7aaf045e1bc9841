ghost use Rattle.std.specs.Prelude.{◌≡◌};
ghost use Rattle.script_words.specs.Pieces.{number};
ghost use Rattle.script_words.specs.Hex.{hex_byte, hex_half};
ghost use Rattle.script_words.specs.Words.{address, handlers};
ghost use Rattle.script_words.specs.Keywords.{step_name, eh_name, end_name, plan_kind, owner, state, failfast};
ghost use Rattle.script_words.specs.Faults.{Gives, number_fault, address_fault, choice_fault};

use crate::address::address_parts;
use crate::handlers::handlers_of;
use crate::hex::{hex_byte, hex_half};
use crate::keywords::{
    EhName, EndName, StepName, eh_name_of, end_name_of, failfast_of, owner_of, state_of,
    step_name_of,
};
use crate::kind::Kind;
use crate::number::number;
use crate::plan_kinds::{PlanKind, plan_kind_of};
use mid_base::{By, DevAddr, DeviceState, Handlers};

/// The next word of a line as a number from `low` to `high`.
pub fn number_in(word: Option<&[u8]>, low: u128, high: u128) -> Result<u128, Kind>
    ensures { Gives (number_fault low high) number word.entry result }
{
    let Some(word) = word else {
        return Err(Kind::Missing);
    };
    match number(word) {
        None => Err(Kind::Number),
        Some(n) => {
            if low <= n && n <= high {
                Ok(n)
            } else {
                Err(Kind::Limit)
            }
        }
    }
}

/// The next word as an address: channel 0 to 15, target 0 to 255, logical unit number 0 to 16,383.
pub fn address_in(word: Option<&[u8]>) -> Result<DevAddr, Kind>
    ensures { Gives address_fault address word.entry result }
{
    let Some(word) = word else {
        return Err(Kind::Missing);
    };
    match address_parts(word) {
        None => Err(Kind::Number),
        Some((channel, target, lun)) => {
            if channel <= 15 && target <= 255 && lun <= 16_383 {
                Ok(DevAddr {
                    channel: channel as u8,
                    target: target as u8,
                    lun: lun as u16,
                })
            } else {
                Err(Kind::Limit)
            }
        }
    }
}

/// The next word as the callbacks of a host.
pub fn handlers_in(word: Option<&[u8]>) -> Result<Handlers, Kind>
    ensures { Gives (choice_fault Kind.Word handlers) handlers word.entry result }
{
    let Some(word) = word else {
        return Err(Kind::Missing);
    };
    match handlers_of(word) {
        None => Err(Kind::Word),
        Some(handlers) => Ok(handlers),
    }
}

/// The next word as whether a command is to fail at the first error.
pub fn failfast_in(word: Option<&[u8]>) -> Result<bool, Kind>
    ensures { Gives (choice_fault Kind.Word failfast) failfast word.entry result }
{
    let Some(word) = word else {
        return Err(Kind::Missing);
    };
    match failfast_of(word) {
        None => Err(Kind::Word),
        Some(failfast) => Ok(failfast),
    }
}

/// The next word as the name of a step.
pub fn step_name_in(word: Option<&[u8]>) -> Result<StepName, Kind>
    ensures { Gives (choice_fault Kind.Word step_name) step_name word.entry result }
{
    let Some(word) = word else {
        return Err(Kind::Missing);
    };
    match step_name_of(word) {
        None => Err(Kind::Word),
        Some(name) => Ok(name),
    }
}

/// The next word as the name of a step of recovery.
pub fn eh_name_in(word: Option<&[u8]>) -> Result<EhName, Kind>
    ensures { Gives (choice_fault Kind.Word eh_name) eh_name word.entry result }
{
    let Some(word) = word else {
        return Err(Kind::Missing);
    };
    match eh_name_of(word) {
        None => Err(Kind::Word),
        Some(name) => Ok(name),
    }
}

/// The next word as the end of a script.
pub fn end_name_in(word: Option<&[u8]>) -> Result<EndName, Kind>
    ensures { Gives (choice_fault Kind.Word end_name) end_name word.entry result }
{
    let Some(word) = word else {
        return Err(Kind::Missing);
    };
    match end_name_of(word) {
        None => Err(Kind::Word),
        Some(name) => Ok(name),
    }
}

/// The next word as the kind of a planned fault.
pub fn plan_kind_in(word: Option<&[u8]>) -> Result<PlanKind, Kind>
    ensures { Gives (choice_fault Kind.Word plan_kind) plan_kind word.entry result }
{
    let Some(word) = word else {
        return Err(Kind::Missing);
    };
    match plan_kind_of(word) {
        None => Err(Kind::Word),
        Some(kind) => Ok(kind),
    }
}

/// The next word as whom an attempt is given to.
pub fn owner_in(word: Option<&[u8]>) -> Result<By, Kind>
    ensures { Gives (choice_fault Kind.Word owner) owner word.entry result }
{
    let Some(word) = word else {
        return Err(Kind::Missing);
    };
    match owner_of(word) {
        None => Err(Kind::Word),
        Some(owner) => Ok(owner),
    }
}

/// The next word as the state of a device.
pub fn state_in(word: Option<&[u8]>) -> Result<DeviceState, Kind>
    ensures { Gives (choice_fault Kind.Word state) state word.entry result }
{
    let Some(word) = word else {
        return Err(Kind::Missing);
    };
    match state_of(word) {
        None => Err(Kind::Word),
        Some(state) => Ok(state),
    }
}

/// The next word as a byte in two hexadecimal digits.
pub fn byte_in(word: Option<&[u8]>) -> Result<u8, Kind>
    ensures { Gives (choice_fault Kind.Hex hex_byte) hex_byte word.entry result }
{
    let Some(word) = word else {
        return Err(Kind::Missing);
    };
    match hex_byte(word) {
        None => Err(Kind::Hex),
        Some(byte) => Ok(byte),
    }
}

/// The next word as half a byte in one hexadecimal digit.
pub fn half_in(word: Option<&[u8]>) -> Result<u8, Kind>
    ensures { Gives (choice_fault Kind.Hex hex_half) hex_half word.entry result }
{
    let Some(word) = word else {
        return Err(Kind::Missing);
    };
    match hex_half(word) {
        None => Err(Kind::Hex),
        Some(half) => Ok(half),
    }
}
