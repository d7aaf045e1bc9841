ghost use Rattle.std.specs.Prelude.{◌≡◌, ◌<◌, ◌≤◌, ◌&&◌, ◌||◌, ℕ, Bool, not, true, false, List, [], ◌∷◌, Some, None, IfOk, MatchOption, All, length, slice_get, slice_set, map, nat_le, nat_lt};
ghost use Rattle.std.specs.List.{list_all};
ghost use Rattle.mid_base.specs.declared.answers.Answer.{Answer as AnswerSeen};
ghost use Rattle.mid_base.specs.declared.answers.BusyOf.{BusyOf as BusyOfSeen};
ghost use Rattle.mid_base.specs.declared.answers.Disp.{Disp as DispSeen};
ghost use Rattle.mid_base.specs.declared.entries.Entry.{Entry as EntrySeen};
ghost use Rattle.mid_base.specs.declared.entries.Entry.TheVariants as entries;
ghost use Rattle.mid_base.specs.declared.host_spec.HostSpec.{HostSpec as SpecSeen};
ghost use Rattle.mid_base.specs.declared.host_spec.LunSpec.{LunSpec as LunSeen};
ghost use Rattle.mid_base.specs.declared.names.Attempt.{Attempt as AttemptSeen};
ghost use Rattle.mid_base.specs.declared.names.CmdId.{CmdId as IdSeen};
ghost use Rattle.mid_base.specs.Address.{has_dev};
ghost use Rattle.mid_base.specs.Limits.{differ_in_address, differ_in_id};
ghost use Rattle.tag_pool.specs.Tags.{is_out};
ghost use Rattle.trace_model.specs.declared.standing.Standing.TheVariants.{Busy};
ghost use Rattle.trace_model.specs.Attempts.{answer};
ghost use Rattle.trace_model.specs.Commands.{standing, is_busy};
ghost use Rattle.trace_model.specs.Devices.{is_online};
ghost use Rattle.trace_model.specs.Sending.{is_ready, is_least_free};
ghost use Rattle.device_table.specs.Rows.{start_row, scripted, unpaused, dev_at};

use crate::rows::DeviceRow;
use device_states::{can_send, online};
use mid_base::{
    Answer, BusyOf, DID_OK, DevAddr, DeviceState, GOOD, LunSpec, NoMemory, TASK_SET_FULL, Tag,
    same_dev,
};
use std::alloc::Global;
use tag_pool::{TagPool, Take};

/// The table of a host's devices, with its tags.
#[derive(Drop)]
pub struct Devices {
    rows: Vec<DeviceRow>,
    // Nothing is sent to any device until the next tick.
    paused: bool,
    pool: TagPool,
}

impl Devices {
    ghost use Rattle.device_table.specs.DevicesAgree.{DevicesAgree, IsOf, HoldsAlone, takes, goes_in};

    /// The table of an empty journal, for a host of `can_queue` tags. The addresses of its logical units differ, and each of
    /// them takes at least one command.
    pub fn new(alloc: Global, can_queue: u16, luns: &[LunSpec]) -> Result<Devices, NoMemory>
        requires apart { differ_in_address luns.now ≡ true }
        requires deep { list_all (λ l. nat_le 1 l.depth) luns.now ≡ true }
        ensures { IfOk result (λ t. (s : SpecSeen) → s.can_queue ≡ can_queue → s.luns ≡ luns.now → differ_in_id s.cmds ≡ true → DevicesAgree s [] t) }
    {
        let rows = rows_for(alloc, luns)?;
        let scripted = depths_for(alloc, luns)?;
        let pool = TagPool::new(alloc, can_queue, &scripted)?;
        Ok(Devices {
            rows,
            paused: false,
            pool,
        })
    }

    /// How many devices there are.
    pub fn count(&self) -> usize
        ensures { result ≡ length self.now.rows.items }
    {
        self.rows.as_slice().len()
    }

    /// The place of a device, None where the host has no such device.
    pub fn place_of(&self, dev: DevAddr) -> Option<usize>
        ensures { (s : SpecSeen) (P : List EntrySeen) → DevicesAgree s P self.now → MatchOption result (has_dev s.luns dev ≡ false) (λ i. (dev_at i self.now.rows.items ≡ Some dev) × (has_dev s.luns dev ≡ true)) }
    {
        for place in 0..self.count() {
            if same_dev(self.rows[place].dev, dev) {
                return Some(place);
            }
        }
        None
    }

    /// What is kept of the device at a place.
    pub fn row(&self, place: usize) -> DeviceRow
        requires { place < length self.now.rows.items }
        ensures { slice_get self.now.rows.items place ≡ Some result }
    {
        self.rows[place]
    }

    /// Whether a command that waits for the device at a place can go: it is offline, so that the command is reported, or
    /// it takes one more.
    pub fn goes(&self, place: usize) -> bool
        requires { place < length self.now.rows.items }
        ensures shown { result ≡ goes_in self.now place }
        ensures goes { (s : SpecSeen) (P : List EntrySeen) (d : _) → DevicesAgree s P self.now → dev_at place self.now.rows.items ≡ Some d → result ≡ (not (is_online s d P) || is_ready s P d) }
    {
        let row = self.row(place);
        !online(row.state) || self.takes(row)
    }

    fn takes(&self, row: DeviceRow) -> bool
        ensures { result ≡ takes self.now row }
    {
        can_send(row.state) && !self.paused && !row.paused && self.pool.can_take(row.dev)
    }

    /// Takes the least free tag for a command that is sent to the device at a place, which takes one more.
    pub fn take_tag(&mut self, place: usize) -> Tag
        requires { (r : _) × (slice_get self.old.rows.items place ≡ Some r) × (takes self.old r ≡ true) }
        ensures least { (s : SpecSeen) (P : List EntrySeen) → DevicesAgree s P self.old → (is_least_free s P result.0 ≡ true) × (result.0 < s.can_queue) }
        ensures keeps { (s : SpecSeen) (P : List EntrySeen) (c : IdSeen) (n : AttemptSeen) → DevicesAgree s P self.old → IsOf s self.old c place → is_busy (standing c.0 P) ≡ false → DevicesAgree s (entries.Sent c n result ∷ P) self.new }
        ensures out { is_out result.0 self.new.pool.tags ≡ true }
        ensures rows { self.new.rows.items ≡ self.old.rows.items }
    {
        let row = self.row(place);
        match self.pool.take(row.dev) {
            Take::Tag(tag) => tag,
            _ => unreachable!(),
        }
    }

    /// The lower layer turned away the attempt of a command for the device at a place: its tag is free again, and the host
    /// or the device is sent nothing until the next tick.
    pub fn bounce(&mut self, place: usize, tag: Tag, why: BusyOf)
        requires place { place < length self.old.rows.items }
        requires out { is_out tag.0 self.old.pool.tags ≡ true }
        ensures keeps { (s : SpecSeen) (P : List EntrySeen) (c : IdSeen) (n : AttemptSeen) → DevicesAgree s P self.old → IsOf s self.old c place → standing c.0 P ≡ Busy n tag → HoldsAlone s P c tag.0 → tag.0 < s.can_queue → DevicesAgree s (entries.Bounced c n why ∷ P) self.new }
    {
        self.pool.give(tag);
        match why {
            BusyOf::Host => self.paused = true,
            BusyOf::Device => self.pause(place),
        }
    }

    // The device at a place is sent nothing until the next tick.
    fn pause(&mut self, place: usize)
        requires { place < length self.old.rows.items }
        ensures rows { (r : _) → slice_get self.old.rows.items place ≡ Some r → self.new.rows.items ≡ slice_set self.old.rows.items place (record r { paused = true }) }
        ensures host { self.new.paused ≡ self.old.paused }
        ensures pool { self.new.pool ≡ self.old.pool }
    {
        let row = self.row(place);
        self.rows[place] = DeviceRow {
            paused: true,
            ..row
        };
    }

    /// A busy command for the device at a place waits again. Where that isn't counted as a retry, the device is sent nothing
    /// until the next tick.
    pub fn again(&mut self, place: usize, tag: Tag, counted: bool)
        requires place { place < length self.old.rows.items }
        requires out { is_out tag.0 self.old.pool.tags ≡ true }
        ensures keeps { (s : SpecSeen) (P : List EntrySeen) (c : IdSeen) (n : AttemptSeen) → DevicesAgree s P self.old → IsOf s self.old c place → standing c.0 P ≡ Busy n tag → HoldsAlone s P c tag.0 → tag.0 < s.can_queue → DevicesAgree s (entries.Again c counted ∷ P) self.new }
    {
        self.pool.give(tag);
        if !counted {
            self.pause(place);
        }
    }

    /// A busy command was reported: its tag is free again.
    pub fn tell(&mut self, tag: Tag)
        requires out { is_out tag.0 self.old.pool.tags ≡ true }
        ensures keeps { (s : SpecSeen) (P : List EntrySeen) (c : IdSeen) (i : ℕ) (n : AttemptSeen) (a : AnswerSeen) → DevicesAgree s P self.old → IsOf s self.old c i → standing c.0 P ≡ Busy n tag → HoldsAlone s P c tag.0 → tag.0 < s.can_queue → DevicesAgree s (entries.Told c a ∷ P) self.new }
    {
        self.pool.give(tag);
    }

    /// An answer of the device at a place was judged: TASK SET FULL and GOOD change the device's depth.
    pub fn judged(&mut self, place: usize, a: &Answer)
        requires { place < length self.old.rows.items }
        ensures keeps { (s : SpecSeen) (P : List EntrySeen) (c : IdSeen) (n : AttemptSeen) (d : DispSeen) → DevicesAgree s P self.old → IsOf s self.old c place → answer n.0 P ≡ Some a.now → DevicesAgree s (entries.Judged c n d ∷ P) self.new }
        ensures rows { self.new.rows.items ≡ self.old.rows.items }
        ensures tags { self.new.pool.tags ≡ self.old.pool.tags }
    {
        let row = self.row(place);
        if a.host.0 != DID_OK.0 {
            return;
        }
        match a.status {
            TASK_SET_FULL => self.pool.full_seen(row.dev),
            GOOD => self.pool.good_seen(row.dev),
            _ => {}
        }
    }

    /// The device at a place goes to a state.
    pub fn set_state(&mut self, place: usize, state: DeviceState)
        requires { place < length self.old.rows.items }
        ensures keeps { (s : SpecSeen) (P : List EntrySeen) (d : _) → dev_at place self.old.rows.items ≡ Some d → DevicesAgree s P self.old → DevicesAgree s (entries.State d state ∷ P) self.new }
    {
        self.write_state(place, state);
    }

    // Writes the state of the device at a place.
    fn write_state(&mut self, place: usize, state: DeviceState)
        requires { place < length self.old.rows.items }
        ensures rows { (r : _) → slice_get self.old.rows.items place ≡ Some r → self.new.rows.items ≡ slice_set self.old.rows.items place (record r { state = state }) }
        ensures paused { self.new.paused ≡ self.old.paused }
        ensures pool { self.new.pool ≡ self.old.pool }
    {
        let row = self.row(place);
        self.rows[place] = DeviceRow { state, ..row };
    }

    /// The device at a place goes offline at the end of recovery.
    pub fn go_offline(&mut self, place: usize)
        requires { place < length self.old.rows.items }
        ensures keeps { (s : SpecSeen) (P : List EntrySeen) (d : _) → dev_at place self.old.rows.items ≡ Some d → DevicesAgree s P self.old → DevicesAgree s (entries.Offline d ∷ P) self.new }
    {
        self.write_state(place, DeviceState::Offline);
    }

    /// Time goes on: all pauses end.
    pub fn tick(&mut self)
        ensures keeps { (s : SpecSeen) (P : List EntrySeen) → DevicesAgree s P self.old → DevicesAgree s (entries.Tick ∷ P) self.new }
    {
        self.paused = false;
        end_pauses(&mut self.rows);
    }
}

// All pauses of devices end.
fn end_pauses(rows: &mut Vec<DeviceRow>)
    ensures { rows.new.items ≡ map unpaused rows.old.items }
{
    let count = rows.as_slice().len();
    for place in 0..count {
        let row = rows[place];
        rows[place] = DeviceRow {
            paused: false,
            ..row
        };
    }
}

// A row for each logical unit, in the state that it starts in.
fn rows_for(alloc: Global, luns: &[LunSpec]) -> Result<Vec<DeviceRow>, NoMemory>
    ensures { IfOk result (λ rows. rows.items ≡ map start_row luns.now) }
{
    let mut rows = Vec::with_capacity(alloc, luns.len()).map_err(|_| NoMemory)?;
    for lun in luns {
        rows.push_reserved(DeviceRow {
            dev: lun.dev,
            state: lun.start,
            paused: false,
        });
    }
    Ok(rows)
}

// The address and the scripted depth of each logical unit.
fn depths_for(alloc: Global, luns: &[LunSpec]) -> Result<Vec<(DevAddr, u16)>, NoMemory>
    ensures { IfOk result (λ depths. depths.items ≡ map scripted luns.now) }
{
    let mut depths = Vec::with_capacity(alloc, luns.len()).map_err(|_| NoMemory)?;
    for lun in luns {
        depths.push_reserved((lun.dev, lun.depth));
    }
    Ok(depths)
}
