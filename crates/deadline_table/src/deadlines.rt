ghost use Rattle.std.specs.Prelude.{◌≡◌, ◌<◌, ◌+◌, ◌^◌, ℕ, [], List, ◌∷◌, true, false, Some, None, IfOk, IsSome, MatchOption, length, ⊤};
ghost use Rattle.std.specs.List.{list_any};
ghost use Rattle.mid_base.specs.declared.answers.BusyOf.{BusyOf as BusyOfSeen};
ghost use Rattle.mid_base.specs.declared.answers.By.{By as BySeen};
ghost use Rattle.mid_base.specs.declared.entries.Entry.{Entry as EntrySeen};
ghost use Rattle.mid_base.specs.declared.entries.Entry.TheVariants as entries;
ghost use Rattle.mid_base.specs.declared.host_spec.HostSpec.{HostSpec as SpecSeen};
ghost use Rattle.mid_base.specs.declared.names.CmdId.{CmdId as IdSeen};
ghost use Rattle.mid_base.specs.declared.names.Tag.{Tag as TagSeen};
ghost use Rattle.mid_base.specs.Past.{ticks, was_sent};
ghost use Rattle.trace_model.specs.Names.{command};
ghost use Rattle.trace_model.specs.Attempts.{attempts};
ghost use Rattle.trace_model.specs.Time.{is_expired, may_ask};
ghost use Rattle.timer_list.specs.Timers.{deadline_of, Becomes, IsFirstDue};

use mid_base::{Attempt, NoMemory, Tick};
use std::alloc::Global;
use timer_list::TimerList;

/// The attempts of a host that wait for their deadline.
#[derive(Drop)]
pub struct Deadlines {
    timers: TimerList,
}

impl Deadlines {
    ghost use Rattle.deadline_table.specs.DeadlinesAgree.{DeadlinesAgree, HasRoom, Stops, IsDueAt, timeout_of};

    /// The table of an empty journal, with room for `most` attempts that wait at once. NoMemory where that room can't be
    /// had.
    pub fn new(alloc: Global, most: u16) -> Result<Deadlines, NoMemory>
        ensures tells { IfOk result (λ t. (s : SpecSeen) → DeadlinesAgree s [] t) }
        ensures none { IfOk result (λ t. t.timers.timers ≡ []) }
        ensures most { IfOk result (λ t. t.timers.most ≡ most) }
    {
        let timers = TimerList::new(alloc, most)?;
        Ok(Deadlines { timers })
    }

    /// An attempt is sent at the tick `now` for a command with this timeout: it waits from now on. Fewer attempts than
    /// there is room for may wait.
    pub fn send(&mut self, n: Attempt, now: Tick, timeout: u32)
        requires absent { deadline_of n.0 self.old.timers.timers ≡ None }
        requires room { HasRoom self.old }
        requires early { now.0 < 2 ^ 60 }
        ensures tells { (s : SpecSeen) (P : List EntrySeen) (c : IdSeen) (t : TagSeen) → DeadlinesAgree s P self.old → ticks P ≡ now.0 → was_sent n.0 P ≡ false → (command s c.0).timeout ≡ timeout → DeadlinesAgree s (entries.Sent c n t ∷ P) self.new }
        ensures timers { Becomes n.0 (Some (now.0 + timeout)) self.old.timers.timers self.new.timers.timers }
        ensures count { length self.new.timers.timers ≡ length self.old.timers.timers + 1 }
        ensures most { self.new.timers.most ≡ self.old.timers.most }
    {
        self.timers.set(n, Tick(now.0 + u64::from(timeout)));
    }

    // The attempt waits no longer. Where it doesn't wait, nothing changes.
    fn stop(&mut self, n: Attempt)
        ensures { Stops n.0 self.old.timers self.new.timers }
    {
        self.timers.drop_timer(n);
    }

    /// The lower layer turned the attempt away.
    pub fn bounce(&mut self, n: Attempt)
        ensures tells { (s : SpecSeen) (P : List EntrySeen) (c : IdSeen) (why : BusyOfSeen) → DeadlinesAgree s P self.old → DeadlinesAgree s (entries.Bounced c n why ∷ P) self.new }
        ensures timers { Stops n.0 self.old.timers self.new.timers }
    {
        self.stop(n);
    }

    /// The attempt came to belong to its answer or to its expired timer.
    pub fn own(&mut self, n: Attempt)
        ensures tells { (s : SpecSeen) (P : List EntrySeen) (by : BySeen) → DeadlinesAgree s P self.old → DeadlinesAgree s (entries.Owned n by ∷ P) self.new }
        ensures timers { Stops n.0 self.old.timers self.new.timers }
    {
        self.stop(n);
    }

    /// The time of an attempt that waits is up, and the lower layer left it at that.
    pub fn expire(&mut self, n: Attempt)
        requires { IsSome (deadline_of n.0 self.old.timers.timers) }
        ensures tells { (s : SpecSeen) (P : List EntrySeen) → DeadlinesAgree s P self.old → DeadlinesAgree s (entries.Due n ∷ P) self.new }
        ensures timers { Stops n.0 self.old.timers self.new.timers }
    {
        // It is asked about once alone.
        self.stop(n);
    }

    /// The time of an attempt that waits is up, and the lower layer said that its command is done.
    pub fn say_done(&mut self, n: Attempt)
        requires { IsSome (deadline_of n.0 self.old.timers.timers) }
        ensures tells { (s : SpecSeen) (P : List EntrySeen) → DeadlinesAgree s P self.old → DeadlinesAgree s (entries.DoneSaid n ∷ P) self.new }
        ensures timers { Stops n.0 self.old.timers self.new.timers }
    {
        // Its answer has still to come, and no deadline with it.
        self.stop(n);
    }

    /// The time of an attempt that waits is up at the tick `now`, and the lower layer had its timer reset: it waits for one
    /// more timeout of its command.
    pub fn lengthen(&mut self, n: Attempt, now: Tick, timeout: u32)
        requires due { IsDueAt n.0 now.0 self.old.timers.timers }
        requires early { now.0 < 2 ^ 60 }
        ensures tells { (s : SpecSeen) (P : List EntrySeen) → DeadlinesAgree s P self.old → ticks P ≡ now.0 → timeout_of s P n.0 ≡ timeout → DeadlinesAgree s (entries.Longer n ∷ P) self.new }
        ensures timers { Becomes n.0 (Some (now.0 + timeout)) self.old.timers.timers self.new.timers.timers }
        ensures count { length self.new.timers.timers ≡ length self.old.timers.timers }
        ensures most { self.new.timers.most ≡ self.old.timers.most }
    {
        self.timers.extend(n, Tick(now.0 + u64::from(timeout)));
    }

    /// The attempt that the lower layer is to be asked about at the tick `now`, None exactly where no attempt's time is up.
    pub fn due(&self, now: Tick) -> Option<Attempt>
        ensures first { IsFirstDue self.now.timers.timers now.0 result }
        ensures waits { MatchOption result ⊤ (λ n. IsDueAt n.0 now.0 self.now.timers.timers) }
        ensures asks { (s : SpecSeen) (P : List EntrySeen) → DeadlinesAgree s P self.now → ticks P ≡ now.0 → MatchOption result ((m : ℕ) → is_expired s P m ≡ false) (λ n. (may_ask s P n.0 ≡ true) × ((m : ℕ) → may_ask s P m ≡ true → m ≡ n.0)) }
    {
        self.timers.due(now)
    }

    /// Whether some attempt's time is up at the tick `now`.
    pub fn has_due(&self, now: Tick) -> bool
        ensures { (s : SpecSeen) (P : List EntrySeen) → DeadlinesAgree s P self.now → ticks P ≡ now.0 → list_any (is_expired s P) (attempts P) ≡ result }
    {
        self.due(now).is_some()
    }
}
