ghost use Rattle.std.specs.Prelude.{◌≡◌, ◌≤◌, map, filter, length, option_map, Some, IfOk, OnErr};
ghost use Rattle.host_template.specs.Meaning.{SameNature};
ghost use Rattle.disposition.specs.Ladder.{is_in_scope, beyond_pair};
ghost use Rattle.escalation.specs.Rungs.{pair_at};
ghost use Rattle.escalation.specs.Acts.{IsClimbing, AreCleared};
ghost use Rattle.escalation.specs.Climbing.{begun, online_alone, next_pair, gone_on, is_left as is_left_seen, as_told as as_told_seen, Climbs, StandsClimbed, HonestClimbed, IsIdle};

use crate::Acted;
use crate::acts::perform;
use crate::choosing::{chosen_of, room_for, room_for_ids};
use crate::leaving::{gather_cleared, is_left, take_sense};
use crate::rungs::{Rung, rungs_of};
use crate::testing::Chosen;
use crate::wanting::{first_wanted, passed};
use disposition::Todo;
use host_template::HostTemplate;
use mid_base::{Entry, Handlers, NoMemory, Scope};
use std::marker::Model;

/// The climb of recovery over a list of failed commands. Contracts see the commands that are left, the acts that are ahead,
/// which callbacks the host has, and whether commands are aborted within recovery.
#[derive(Drop)]
pub struct Ladder {
    left: Vec<Todo>,
    rungs: Vec<Rung>,
    at: usize,
    handlers: Handlers,
    aborts: bool,
}

impl Model for Ladder {
    ghost use Rattle.std.specs.Prelude.{◌≤◌, map, drop, length};
    ghost use Rattle.escalation.specs.Rungs.{pair_at};
    ghost use Rattle.escalation.specs.Climbing.{Climb};
    ghost use Rattle.escalation.specs.Acts.{IsClimbing};

    ghost Value = { Climb };

    ghost view = { λ l. record { left = l.left.items; ahead = map pair_at (drop l.at l.rungs.items); handlers = l.handlers; aborts = l.aborts } };

    ghost invariant = { λ l. (l.at ≤ length l.rungs.items) × IsClimbing l.left.items (map pair_at (drop l.at l.rungs.items)) };
}

impl Ladder {
    /// A ladder for these failed commands, in the order in which they failed, of a host with these callbacks. Commands that
    /// were cancelled are aborted within recovery only where `abort_level` says so.
    pub fn begin(todo: Vec<Todo>, handlers: Handlers, abort_level: bool) -> Result<Ladder, NoMemory>
        ensures { IfOk result (λ l. l ≡ begun todo.items handlers abort_level) }
    {
        let rungs = rungs_of(&todo)?;
        Ok(Ladder {
            left: todo,
            rungs,
            at: 0,
            handlers,
            aborts: abort_level,
        })
    }

    /// The commands that aren't cleared, in the order in which they failed, with the sense that was fetched for them.
    pub fn left(&self) -> &[Todo]
        ensures { result.now ≡ self.now.left }
    {
        &self.left
    }

    /// The commands whose device isn't online are left out: recovery does nothing for them (level 0).
    pub fn leave_offline(&mut self)
        ensures { self.new ≡ online_alone self.old }
    {
        self.left.retain(|x| x.cx.online);
    }

    /// Performs the next act, and gives the entries that tell it; of so many commands as are left there are at most three
    /// for each and four more. Finished comes exactly where no command is left, and then nothing is called. NoMemory calls
    /// nothing of the lower layer and changes nothing. The buffer has at least 2,056 bytes.
    pub fn next<A: HostTemplate>(
        &mut self,
        lower: &mut A,
        into: &mut [u8],
    ) -> Result<Acted, NoMemory>
        requires { 2056 ≤ length into.old }
        ensures act { IfOk result (Climbs self.old self.new) }
        ensures stands { IfOk result (StandsClimbed self.old (A.stands lower.old) (A.stands lower.new)) }
        ensures honest { IfOk result (HonestClimbed self.old (A.means lower.old) (A.means lower.new)) }
        ensures nature { SameNature (A.means lower.old) (A.means lower.new) }
        ensures idle { IfOk result (λ r. IsIdle r (lower.new ≡ lower.old)) }
        ensures lower { OnErr result (lower.new ≡ lower.old) }
        ensures kept { OnErr result (self.new ≡ self.old) }
        ensures len { length into.new ≡ length into.old }
    {
        match self.wanted() {
            None => Ok(Acted::Finished),
            Some(rung) => self.act(rung, lower, into),
        }
    }

    // The acts that are ahead, the next one first.
    fn ahead(&self) -> &[Rung]
        ensures { map pair_at result.now ≡ self.now.ahead }
    {
        &self.rungs[self.at..]
    }

    fn handlers(&self) -> Handlers
        ensures { result ≡ self.now.handlers }
    {
        self.handlers
    }

    fn aborts(&self) -> bool
        ensures aborts { result ≡ self.now.aborts }
        ensures climbing { IsClimbing self.now.left self.now.ahead }
    {
        self.aborts
    }

    // The next act.
    fn wanted(&self) -> Option<Rung>
        ensures next { option_map pair_at result ≡ next_pair self.now }
        ensures climbing { IsClimbing self.now.left self.now.ahead }
    {
        first_wanted(self.ahead(), self.left(), self.aborts())
    }

    // The commands of a scope that are left.
    fn chosen(&self, scope: Scope) -> Result<Chosen, NoMemory>
        ensures { IfOk result (λ v. v.todo.items ≡ filter (is_in_scope scope) self.now.left) }
    {
        chosen_of(&self.left, scope)
    }

    // Performs the next act, which is this one.
    fn act<A: HostTemplate>(
        &mut self,
        rung: Rung,
        lower: &mut A,
        into: &mut [u8],
    ) -> Result<Acted, NoMemory>
        requires buffer { 2056 ≤ length into.old }
        requires next { next_pair self.old ≡ Some (pair_at rung) }
        requires climbing { IsClimbing self.old.left self.old.ahead }
        ensures act { IfOk result (Climbs self.old self.new) }
        ensures stands { IfOk result (StandsClimbed self.old (A.stands lower.old) (A.stands lower.new)) }
        ensures honest { IfOk result (HonestClimbed self.old (A.means lower.old) (A.means lower.new)) }
        ensures nature { SameNature (A.means lower.old) (A.means lower.new) }
        ensures idle { IfOk result (λ r. IsIdle r (lower.new ≡ lower.old)) }
        ensures lower { OnErr result (lower.new ≡ lower.old) }
        ensures kept { OnErr result (self.new ≡ self.old) }
        ensures len { length into.new ≡ length into.old }
    {
        let chosen = self.chosen(rung.scope())?;
        let mut told = room_for(*chosen.todo.allocator(), &chosen.todo)?;
        let mut cleared = room_for_ids(*chosen.todo.allocator(), &chosen.todo)?;
        let ok = perform(lower, into, self.handlers(), rung, &chosen, &mut told);
        gather_cleared(&mut cleared, &told.entries);
        self.go_on(&rung, &told.entries, &cleared);
        Ok(Acted::Act {
            level: rung.level(),
            scope: rung.scope(),
            ok,
            entries: told.entries,
        })
    }

    // What an act that these entries tell leaves; `cleared` are the ids of the commands that they clear, in ascending order.
    fn go_on(&mut self, rung: &Rung, entries: &[Entry], cleared: &[u32])
        requires climbing { IsClimbing (map (as_told_seen entries.now) (filter (is_left_seen entries.now) self.old.left)) (beyond_pair (pair_at rung.now) self.old.ahead) }
        requires cleared { AreCleared entries.now cleared.now }
        ensures { self.new ≡ gone_on (pair_at rung.now) entries.now self.old }
    {
        let passed = passed(self.ahead(), rung);
        self.at += passed;
        self.left.retain(|x| is_left(cleared, x));
        take_sense(&mut self.left, entries);
    }
}
