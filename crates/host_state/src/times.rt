ghost use Rattle.std.specs.Prelude.{◌≡◌, ◌<◌, ◌^◌, ◌-◌, ◌||◌, ◌&&◌, false, List, ◌∷◌, Some, nat_lt, length};
ghost use Rattle.std.specs.List.{list_any};
ghost use Rattle.mid_base.specs.declared.entries.Entry.{Entry as EntrySeen};
ghost use Rattle.mid_base.specs.declared.entries.Entry.TheVariants as entries;
ghost use Rattle.mid_base.specs.declared.host_spec.HostSpec.{HostSpec as SpecSeen};
ghost use Rattle.trace_model.specs.Attempts.{attempts, answered, late, is_open, is_answered, is_due};
ghost use Rattle.trace_model.specs.Time.{is_expired};
ghost use Rattle.device_table.specs.Rows.{dev_at};

use crate::Running;
use mid_base::{Attempt, By, DeviceState, Tick};

impl Running {
    ghost use Rattle.host_state.specs.HostAgrees.{HostAgrees};

    /// Whether an attempt waits for its owner, or an answer is to be ignored.
    pub fn has_answer_waiting(&self) -> bool
        ensures { (s : SpecSeen) (P : List EntrySeen) → HostAgrees s P self.now → (list_any (λ n. is_open n P && is_answered n P) (attempts P) || list_any (λ n. nat_lt 0 (late n P)) (answered P)) ≡ result }
    {
        self.attempts.has_claim(By::Answer) || self.attempts.has_late()
    }

    /// Whether the time of an open attempt is up.
    pub fn has_expired(&self) -> bool
        ensures { (s : SpecSeen) (P : List EntrySeen) → HostAgrees s P self.now → list_any (λ n. is_expired s P n || (is_open n P && is_due n P)) (attempts P) ≡ result }
    {
        self.deadlines.has_due(Tick(self.ticks)) || self.attempts.has_claim(By::Expiry)
    }

    /// One answer of the attempt that is to be ignored is ignored. Where there is none, nothing changes.
    pub fn drop_late(&mut self, n: Attempt)
        ensures runs { (s : SpecSeen) (P : List EntrySeen) → HostAgrees s P self.old → HostAgrees s (entries.Late n ∷ P) self.new }
        ensures shown { self.new.attempts.tags.items ≡ self.old.attempts.tags.items }
    {
        self.attempts.drop_late(n);
    }

    /// Time goes on by one tick, and all pauses end. No attempt's time may be up.
    pub fn tick(&mut self)
        requires { self.old.ticks < 2 ^ 60 - 1 }
        ensures runs { (s : SpecSeen) (P : List EntrySeen) → list_any (is_expired s P) (attempts P) ≡ false → HostAgrees s P self.old → HostAgrees s (entries.Tick ∷ P) self.new }
        ensures shown { self.new.attempts.tags.items ≡ self.old.attempts.tags.items }
    {
        self.ticks += 1;
        self.devices.tick();
    }

    /// The device at a place goes to a state.
    pub fn set_state(&mut self, place: usize, state: DeviceState)
        requires { place < length self.old.devices.rows.items }
        ensures runs { (s : SpecSeen) (P : List EntrySeen) (d : _) → dev_at place self.old.devices.rows.items ≡ Some d → HostAgrees s P self.old → HostAgrees s (entries.State d state ∷ P) self.new }
        ensures shown { self.new.attempts.tags.items ≡ self.old.attempts.tags.items }
    {
        self.devices.set_state(place, state);
    }
}
