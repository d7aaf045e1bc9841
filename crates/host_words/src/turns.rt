ghost use Rattle.std.specs.Prelude.{◌≡◌, ◌≤◌, ◌+◌, ℕ, IfOk, Some, length, replicate};
ghost use Rattle.mid_base.specs.declared.answers.TagState.{TagState};
ghost use Rattle.host_words.specs.declared.view.Stage.{Stage};
ghost use Rattle.host_words.specs.Journals.{IsPrefix};
ghost use Rattle.host_words.specs.Views.{origin_by, first_view, staged, begun, left_view, split_left, split_right, joined};
ghost use Rattle.host_words.specs.Owners.{OwnersAgree, WonOnce};
ghost use Rattle.host_words.specs.Leaving.{MayLeave};
ghost use Rattle.host_words.specs.Places.{AreApart};
ghost use Rattle.host_words.specs.Seats.{view, turn, tag_count, table_origin, IsSeatOf, IsSameTable, IsAway, IsHolding};

use crate::host_table::{SERVING, TAGS, TICKET};
use crate::plays::{Count, Cut, Draw, Glue, Look, Seal};
use crate::{HostSeat, HostTable, Start};
use atomic_table::Table;
use mid_base::NoMemory;
use std::alloc::Global;
use std::snapshot::Snapshot;
use std::sync::Wait;
use std::thread;
use trace_model::Booked;

impl<S: Booked> HostTable<S> {
    /// A table that has this state, with a word for each of its tags, all free, and the first seat, which has every share
    /// and has seen the state's journal. Without memory the state is dropped.
    pub fn new(alloc: Global, state: S, tags: u16) -> Result<(HostTable<S>, HostSeat<S>), NoMemory>
    where
        S: Drop,
        requires free { S.tags state ≡ replicate tags TagState.Free }
        ensures seat { IfOk result (λ t. IsSeatOf t.0 t.1 × (view t.1 ≡ first_view (origin_by S.spec S.before state) tags (S.journal state))) }
        ensures table { IfOk result (λ t. (tag_count t.0 ≡ tags) × (table_origin (origin_by S.spec S.before) t.0 ≡ origin_by S.spec S.before state)) }
    {
        let Ok(words) = Vec::from_elem(alloc, 0u64, tags as usize + TAGS) else {
            return Err(NoMemory);
        };
        let start = Start {
            state: Snapshot::of(&state),
            tags,
        };
        let mut slots = Vec::new(alloc);
        if slots.push(Some(state)).is_err() {
            return Err(NoMemory);
        }
        match Table::new(alloc, words.as_slice(), slots, &start) {
            Ok((table, seat)) => Ok((HostTable { table }, HostSeat { seat })),
            Err(_) => Err(NoMemory),
        }
    }

    /// A new seat, which gets a share of 1 and has seen as much as this one.
    pub fn split(&self, seat: &mut HostSeat<S>) -> HostSeat<S>
        requires table { IsSeatOf self.now seat.old }
        requires share { 2 ≤ (view seat.old).share }
        ensures table { IsSameTable seat.old seat.new × IsSameTable seat.old result }
        ensures left { view seat.new ≡ split_left (view seat.old) }
        ensures given { view result ≡ split_right (view seat.old) }
    {
        let given = self.table.shared.split_seat::<Cut>(&mut seat.seat);
        HostSeat { seat: given }
    }

    /// Takes another seat in: its share, its claims, its places of the journal, and what it has seen beyond this one.
    pub fn join(&self, seat: &mut HostSeat<S>, other: HostSeat<S>)
        requires table { IsSeatOf self.now seat.old × IsSeatOf self.now other }
        requires away { IsAway seat.old × IsAway other }
        ensures table { IsSameTable seat.old seat.new }
        ensures view { view seat.new ≡ joined (view seat.old) (view other) }
        ensures later { IsPrefix (view seat.old).seen (view seat.new).seen }
    {
        let HostSeat { seat: other } = other;
        self.table.shared.join_seat::<Glue>(&mut seat.seat, other);
    }

    /// Waits for the turn, and hands the state out. It has a state for each tag of the table. Its journal begins with all
    /// that the seat has seen, each place of it is in at most one range of the seat's, and whoever owns an attempt that the
    /// seat has won has it by that claim.
    ///
    /// Seats have their turns in the order in which they drew their numbers. Between two looks at the number that is
    /// served the thread yields. That the turn comes isn't promised: another seat may never leave.
    pub fn enter<R: Wait>(&self, rt: &R, seat: &mut HostSeat<S>) -> S
        requires table { IsSeatOf self.now seat.old }
        requires away { IsAway seat.old }
        ensures table { IsSameTable seat.old seat.new }
        ensures origin { Some (origin_by S.spec S.before result) ≡ (view seat.old).origin }
        ensures turn { (t : ℕ) × (view seat.new ≡ staged (view seat.old) (Stage.Holding t (begun (S.journal result) (S.tags result)))) }
        ensures tags { length (S.tags result) ≡ tag_count self.now }
        ensures later { IsPrefix (view seat.old).seen (S.journal result) }
        ensures places { AreApart (view seat.old).mine (length (S.journal result)) }
        ensures owners { OwnersAgree (view seat.old) (S.journal result) }
    {
        let shared = &self.table.shared;
        let ticket = shared.fetch_add::<Draw>(&mut seat.seat, TICKET, 1);
        for _ in rt.forever() {
            if shared.load::<Look>(&mut seat.seat, SERVING) == ticket {
                let found = shared.exchange(&mut seat.seat, 0, None);
                let Some(state) = found else { unreachable!() };
                return state;
            }
            thread::yield_now();
        }
        unreachable!()
    }

    /// Takes the state back, and ends the turn. The seat has then seen its journal, and has the places beyond what the
    /// turn found.
    pub fn leave(&self, seat: &mut HostSeat<S>, state: S)
        requires table { IsSeatOf self.now seat.old }
        requires turn { IsHolding seat.old }
        requires origin { Some (origin_by S.spec S.before state) ≡ (view seat.old).origin }
        requires may { MayLeave (turn seat.old) (S.journal state) (S.tags state) }
        ensures table { IsSameTable seat.old seat.new }
        ensures view { view seat.new ≡ left_view (view seat.old) (turn seat.old) (S.journal state) }
    {
        let shared = &self.table.shared;
        let old = shared.exchange(&mut seat.seat, 0, Some(state));
        let None = old else { unreachable!() };
        shared.load::<Seal>(&mut seat.seat, SERVING);
        shared.fetch_add::<Count>(&mut seat.seat, SERVING, 1);
    }

    /// Ends the table once all other seats were joined, and gives the state. Its journal begins with all that the seat
    /// has seen. Of all the seats that there were, each place of it is in at most one range, and no attempt was won twice.
    pub fn close(self, seat: HostSeat<S>) -> S
        requires table { IsSeatOf self seat }
        requires share { (view seat).share ≡ 65536 }
        requires away { IsAway seat }
        ensures origin { origin_by S.spec S.before result ≡ table_origin (origin_by S.spec S.before) self }
        ensures seat { Some (origin_by S.spec S.before result) ≡ (view seat).origin }
        ensures tags { length (S.tags result) ≡ tag_count self }
        ensures later { IsPrefix (view seat).seen (S.journal result) }
        ensures places { AreApart (view seat).mine (length (S.journal result)) }
        ensures owners { OwnersAgree (view seat) (S.journal result) }
        ensures once { WonOnce (view seat) }
    {
        let HostTable { table } = self;
        let HostSeat { seat } = seat;
        let mut closed = table.close_with(seat);
        let found = closed.take(0);
        closed.free();
        let Some(state) = found else { unreachable!() };
        state
    }
}
