ghost use Rattle.std.specs.Prelude.{◌≡◌, Some};
ghost use Rattle.mid_base.specs.Limits.{last_number};
ghost use Rattle.script_words.specs.Pieces.{number};
ghost use Rattle.script_words.specs.Words.{address};
ghost use Rattle.script_words.specs.Faults.{Gives, number_fault};
ghost use Rattle.script_text.specs.Slots.{KnownHost, RoomyHost, new_host_fault, new_unit_fault, unit_fault, new_command_fault, lane_fault};
ghost use Rattle.script_text.specs.Gives.{seen, HostGives};

use crate::draft::Draft;
use crate::host_draft::HostDraft;
use mid_base::{DevAddr, LAST_NUMBER, LaneNo};
use script_words::{Kind, address_in, number_in};

/// The next word as the number of a host that no earlier line has.
pub fn new_host_in(draft: &Draft, word: Option<&[u8]>) -> Result<u128, Kind>
    ensures { Gives (new_host_fault (seen draft.now)) number word.entry result }
{
    let number = number_in(word, 0, 63)?;
    if draft.host(number).is_some() {
        Err(Kind::Twice)
    } else {
        Ok(number)
    }
}

/// The host whose number the next word is.
#[tactic(auto, using(crate::proofs::Places::found_is))]
pub fn host_in<'a>(draft: &'a Draft, word: Option<&[u8]>) -> Result<&'a HostDraft, Kind>
    ensures { HostGives (seen draft.now) KnownHost word.entry result }
{
    let number = number_in(word, 0, 63)?;
    match draft.host(number) {
        Some(host) => Ok(host),
        None => Err(Kind::Unknown),
    }
}

/// The same, where the host has room for one more unit.
pub fn roomy_host_in<'a>(draft: &'a Draft, word: Option<&[u8]>) -> Result<&'a HostDraft, Kind>
    ensures { HostGives (seen draft.now) RoomyHost word.entry result }
{
    let host = host_in(draft, word)?;
    if host.has_room() {
        Ok(host)
    } else {
        Err(Kind::Limit)
    }
}

/// The next word as an address that no unit of this host has.
pub fn new_unit_in(host: &HostDraft, word: Option<&[u8]>) -> Result<DevAddr, Kind>
    ensures { Gives (new_unit_fault (Some host.now)) address word.entry result }
{
    let dev = address_in(word)?;
    if host.has_unit(dev) {
        Err(Kind::Twice)
    } else {
        Ok(dev)
    }
}

/// The next word as the address of a unit of this host.
pub fn unit_in(host: &HostDraft, word: Option<&[u8]>) -> Result<DevAddr, Kind>
    ensures { Gives (unit_fault (Some host.now)) address word.entry result }
{
    let dev = address_in(word)?;
    if host.has_unit(dev) {
        Ok(dev)
    } else {
        Err(Kind::Unknown)
    }
}

/// The next word as the id of a command that no earlier line has.
pub fn new_command_in(draft: &Draft, word: Option<&[u8]>) -> Result<u128, Kind>
    ensures { Gives (new_command_fault (seen draft.now)) number word.entry result }
{
    let id = number_in(word, 1, 4_294_967_295)?;
    if draft.has_id(id as u32) {
        Err(Kind::Twice)
    } else {
        Ok(id)
    }
}

/// The next word as a lane of this host that has a command.
pub fn lane_in(host: &HostDraft, word: Option<&[u8]>) -> Result<u128, Kind>
    ensures { Gives (lane_fault (Some host.now)) number word.entry result }
{
    let lane = number_in(word, 0, 63)?;
    if host.has_lane(LaneNo(lane as u8)) {
        Ok(lane)
    } else {
        Err(Kind::Unknown)
    }
}

/// The next word as the number of an attempt.
pub fn attempt_in(word: Option<&[u8]>) -> Result<u64, Kind>
    ensures { Gives (number_fault 0 last_number) number word.entry result }
{
    let attempt = number_in(word, 0, u128::from(LAST_NUMBER))?;
    Ok(attempt as u64)
}
