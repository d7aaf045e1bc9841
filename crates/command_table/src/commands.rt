ghost use Rattle.std.specs.Prelude.{◌≡◌, ◌<◌, ◌≤◌, ◌+◌, ◌^◌, ℕ, List, [], ◌∷◌, ◌++◌, true, false, Some, None, IfOk, OnOk, OnErr, MatchOption, length, slice_get, slice_set, vec_len, vec_capacity, map, min, ◌-◌, nat_lt, if◌then◌else◌};
ghost use Rattle.std.specs.List.{list_all};
ghost use Rattle.mid_base.specs.declared.answers.Answer.{Answer as AnswerSeen};
ghost use Rattle.mid_base.specs.declared.answers.BusyOf.{BusyOf as BusyOfSeen};
ghost use Rattle.mid_base.specs.declared.entries.Entry.{Entry as EntrySeen};
ghost use Rattle.mid_base.specs.declared.entries.Entry.TheVariants as entries;
ghost use Rattle.mid_base.specs.declared.host_spec.HostSpec.{HostSpec as SpecSeen};
ghost use Rattle.mid_base.specs.declared.names.Attempt.{Attempt as AttemptSeen};
ghost use Rattle.mid_base.specs.declared.names.CmdId.{CmdId as IdSeen};
ghost use Rattle.mid_base.specs.Limits.{differ_in_id};
ghost use Rattle.trace_model.specs.Commands.{waits, is_busy};
ghost use Rattle.trace_model.specs.Drained.{is_done};
ghost use Rattle.trace_model.specs.Sending.{next_of_lane};
ghost use Rattle.command_table.specs.Rows.{is_left, first_left};
ghost use Rattle.mid_base.specs.Address.{has_dev};

use crate::lanes::{first_cursors, next_from};
use crate::line::Line;
use crate::making::rows_for;
use crate::rows::{CommandRow, Taken};
use crate::sets::{drop_from, empty_sets, least_of, put, put_back, send_from};
use mid_base::{Attempt, CmdSpec, LaneNo, LunSpec, NoMemory, Tag};
use std::alloc::Global;
use trace_model::Standing;

/// The table of a host's commands.
#[derive(Drop)]
pub struct Commands {
    rows: Vec<CommandRow>,
    cursors: Vec<usize>,
    taken: Vec<Taken>,
    waiting: Vec<Line>,
    ended: usize,
}

impl Commands {
    ghost use Rattle.command_table.specs.Rows.{id_at, standing_at, IsBusyAt, IsOpenAt, IsFirstLeft, IsHoused};
    ghost use Rattle.command_table.specs.Sets.{has, IsLeast};
    ghost use Rattle.command_table.specs.CommandsAgree.{CommandsAgree, IsNext};

    /// The table of an empty journal: no command is handed in. The commands' ids differ, and their lanes are below 64.
    pub fn new(alloc: Global, cmds: &[CmdSpec], luns: &[LunSpec]) -> Result<Commands, NoMemory>
        requires ids { differ_in_id cmds.now ≡ true }
        requires lanes { list_all (λ k. nat_lt k.lane.0 64) cmds.now ≡ true }
        requires devices { list_all (λ k. has_dev luns.now k.dev) cmds.now ≡ true }
        ensures { IfOk result (λ t. (s : SpecSeen) → s.cmds ≡ cmds.now → s.luns ≡ luns.now → CommandsAgree s [] t) }
    {
        let rows = rows_for(alloc, cmds, luns)?;
        let cursors = first_cursors(alloc, &rows)?;
        let waiting = empty_sets(alloc, luns.len())?;
        Ok(Commands {
            rows,
            cursors,
            taken: Vec::new(alloc),
            waiting,
            ended: 0,
        })
    }

    /// The place of the next command of a lane, None where each is handed in.
    pub fn next_in(&self, lane: LaneNo) -> Option<usize>
        ensures { (s : SpecSeen) (P : List EntrySeen) → CommandsAgree s P self.now → MatchOption result (next_of_lane s P lane.0 ≡ None) (IsNext s P self.now lane.0) }
    {
        let count = self.rows.as_slice().len();
        match self.cursors.as_slice().get(usize::from(lane.0)) {
            Some(place) if *place < count => Some(*place),
            _ => None,
        }
    }

    /// The row of the command at a place of the spec.
    pub fn row(&self, place: usize) -> CommandRow
        requires { place < length self.now.rows.items }
        ensures { slice_get self.now.rows.items place ≡ Some result }
    {
        self.rows[place]
    }

    /// The command that was taken as the one of this number, counted from 0; None where fewer were taken.
    pub fn taken_as(&self, order: usize) -> Option<Taken>
        ensures { result ≡ slice_get self.now.taken.items order }
    {
        self.taken.get(order).copied()
    }

    /// Which of the commands that wait for the device at this place was taken earliest.
    pub fn first_waiting(&self, device: usize) -> Option<usize>
        ensures { MatchOption result ((j : ℕ) → has self.now.waiting.items device j ≡ false) (IsLeast self.now.waiting.items device) }
    {
        least_of(&self.waiting, device)
    }

    /// Whether each command is handed in, and each that was taken is reported.
    pub fn drained(&self) -> bool
        ensures { (s : SpecSeen) (P : List EntrySeen) → CommandsAgree s P self.now → list_all (is_done P) s.cmds ≡ result }
    {
        self.ended == self.rows.as_slice().len()
    }

    /// The next command of a lane is taken. NoMemory changes nothing.
    pub fn take(&mut self, place: usize) -> Result<(), NoMemory>
        requires fresh { standing_at place self.old.rows.items ≡ Some Standing.New }
        requires first { IsFirstLeft place self.old.rows.items }
        requires housed { IsHoused place self.old.rows.items (length self.old.waiting.items) }
        ensures follows { OnOk result ((s : SpecSeen) (P : List EntrySeen) (c : IdSeen) → id_at place self.old.rows.items ≡ Some c → CommandsAgree s P self.old → CommandsAgree s (entries.Took c ∷ P) self.new) }
        ensures row { OnOk result ((r : _) → slice_get self.old.rows.items place ≡ Some r → self.new.rows.items ≡ slice_set self.old.rows.items place (record r { standing = Standing.Waits; order = length self.old.taken.items })) }
        ensures same { OnErr result ((s : SpecSeen) (P : List EntrySeen) → CommandsAgree s P self.old → CommandsAgree s P self.new) }
    {
        let row = self.row(place);
        let order = self.taken.as_slice().len();
        self.taken.reserve(1).map_err(|_| NoMemory)?;
        put(&mut self.waiting, row.device, order)?;
        let taken = Taken {
            place,
            command: row.id,
        };
        self.taken.push_reserved(taken);
        let standing = Standing::Waits;
        let new = CommandRow {
            standing,
            order,
            ..row
        };
        self.write(place, new);
        self.pass(place, row.lane);
        Ok(())
    }

    /// The next command of a lane was reported and not taken.
    pub fn refuse(&mut self, place: usize)
        requires fresh { standing_at place self.old.rows.items ≡ Some Standing.New }
        requires first { IsFirstLeft place self.old.rows.items }
        ensures follows { (s : SpecSeen) (P : List EntrySeen) (c : IdSeen) (a : AnswerSeen) → id_at place self.old.rows.items ≡ Some c → CommandsAgree s P self.old → CommandsAgree s (entries.Told c a ∷ P) self.new }
        ensures row { (r : _) → slice_get self.old.rows.items place ≡ Some r → self.new.rows.items ≡ slice_set self.old.rows.items place (record r { standing = Standing.Ended }) }
    {
        let row = self.row(place);
        let standing = Standing::Ended;
        self.write(place, CommandRow { standing, ..row });
        self.count_ended();
        self.pass(place, row.lane);
    }

    // The command at this place, which was the next of its lane, is handed in now.
    fn pass(&mut self, place: usize, lane: LaneNo)
        ensures rows { self.new.rows.items ≡ self.old.rows.items }
        ensures taken { self.new.taken.items ≡ self.old.taken.items }
        ensures waiting { self.new.waiting.items ≡ self.old.waiting.items }
        ensures ended { self.new.ended ≡ self.old.ended }
        ensures cursors { lane.0 < length self.old.cursors.items → place < length self.old.rows.items → ((k : ℕ) (r : _) → k ≤ place → slice_get self.old.rows.items k ≡ Some r → is_left lane.0 r ≡ false) → self.new.cursors.items ≡ slice_set self.old.cursors.items lane.0 (first_left lane.0 self.old.rows.items) }
    {
        if place < self.rows.len() {
            let next = next_from(&self.rows, place + 1, lane);
            if let Some(cursor) = self.cursors.get_mut(usize::from(lane.0)) {
                *cursor = next;
            }
        }
    }

    /// A command that waits was sent.
    pub fn send(&mut self, place: usize, n: Attempt, tag: Tag)
        requires waits { standing_at place self.old.rows.items ≡ Some Standing.Waits }
        requires housed { IsHoused place self.old.rows.items (length self.old.waiting.items) }
        ensures follows { (s : SpecSeen) (P : List EntrySeen) (c : IdSeen) → id_at place self.old.rows.items ≡ Some c → CommandsAgree s P self.old → CommandsAgree s (entries.Sent c n tag ∷ P) self.new }
        ensures row { (r : _) → slice_get self.old.rows.items place ≡ Some r → self.new.rows.items ≡ slice_set self.old.rows.items place (record r { standing = Standing.Busy n tag }) }
    {
        let row = self.row(place);
        let standing = Standing::Busy(n, tag);
        send_from(&mut self.waiting, row.device, row.order);
        self.write(place, CommandRow { standing, ..row });
    }

    // Writes the row of a place.
    fn write(&mut self, place: usize, row: CommandRow)
        requires { place < length self.old.rows.items }
        ensures rows { self.new.rows.items ≡ slice_set self.old.rows.items place row }
        ensures cursors { self.new.cursors.items ≡ self.old.cursors.items }
        ensures taken { self.new.taken.items ≡ self.old.taken.items }
        ensures waiting { self.new.waiting.items ≡ self.old.waiting.items }
        ensures ended { self.new.ended ≡ self.old.ended }
    {
        self.rows[place] = row;
    }

    // One command more was reported. There are no more of them than rows.
    fn count_ended(&mut self)
        ensures ended { self.new.ended ≡ min (self.old.ended + 1) (2 ^ 64 - 1) }
        ensures rows { self.new.rows.items ≡ self.old.rows.items }
        ensures cursors { self.new.cursors.items ≡ self.old.cursors.items }
        ensures taken { self.new.taken.items ≡ self.old.taken.items }
        ensures waiting { self.new.waiting.items ≡ self.old.waiting.items }
        ensures short { length self.old.rows.items < 2 ^ 64 }
    {
        let _rows = self.rows.len();
        self.ended = self.ended.saturating_add(1);
    }

    /// A busy command waits again, as a counted retry where `counted` says so, of which there may be 255. It asks for no memory.
    pub fn again(&mut self, place: usize, counted: bool)
        requires busy { IsBusyAt place self.old.rows.items }
        requires housed { IsHoused place self.old.rows.items (length self.old.waiting.items) }
        requires few { counted ≡ true → (r : _) → slice_get self.old.rows.items place ≡ Some r → r.retries < 255 }
        ensures follows { (s : SpecSeen) (P : List EntrySeen) (c : IdSeen) → id_at place self.old.rows.items ≡ Some c → CommandsAgree s P self.old → CommandsAgree s (entries.Again c counted ∷ P) self.new }
        ensures row { (r : _) → slice_get self.old.rows.items place ≡ Some r → self.new.rows.items ≡ slice_set self.old.rows.items place (record r { standing = Standing.Waits; retries = if counted then r.retries + 1 else r.retries }) }
    {
        let row = self.row(place);
        put_back(&mut self.waiting, row.device, row.order);
        let standing = Standing::Waits;
        let retries = counted_on(row.retries, counted);
        let new = CommandRow {
            standing,
            retries,
            ..row
        };
        self.write(place, new);
    }

    /// An abort of an attempt of a busy command is scheduled. Its row says so from now on, whatever becomes of the command.
    pub fn schedule_abort(&mut self, place: usize)
        requires busy { IsBusyAt place self.old.rows.items }
        ensures follows { (s : SpecSeen) (P : List EntrySeen) (c : IdSeen) (n : AttemptSeen) → id_at place self.old.rows.items ≡ Some c → CommandsAgree s P self.old → CommandsAgree s (entries.AbortSet c n ∷ P) self.new }
        ensures row { (r : _) → slice_get self.old.rows.items place ≡ Some r → self.new.rows.items ≡ slice_set self.old.rows.items place (record r { aborted = true }) }
    {
        let row = self.row(place);
        let aborted = true;
        self.write(place, CommandRow { aborted, ..row });
    }

    /// A command that waits or is busy was reported.
    pub fn tell(&mut self, place: usize)
        requires open { IsOpenAt place self.old.rows.items }
        requires housed { IsHoused place self.old.rows.items (length self.old.waiting.items) }
        ensures follows { (s : SpecSeen) (P : List EntrySeen) (c : IdSeen) (a : AnswerSeen) → id_at place self.old.rows.items ≡ Some c → CommandsAgree s P self.old → CommandsAgree s (entries.Told c a ∷ P) self.new }
        ensures row { (r : _) → slice_get self.old.rows.items place ≡ Some r → self.new.rows.items ≡ slice_set self.old.rows.items place (record r { standing = Standing.Ended }) }
    {
        let row = self.row(place);
        let standing = Standing::Ended;
        drop_from(&mut self.waiting, row);
        self.write(place, CommandRow { standing, ..row });
        self.count_ended();
    }
}

// The retries with one more, where it is counted.
fn counted_on(retries: u8, counted: bool) -> u8
    requires { counted ≡ true → retries < 255 }
    ensures { result ≡ (if counted then retries + 1 else retries) }
{
    if counted {
        return retries + 1;
    }
    retries
}
