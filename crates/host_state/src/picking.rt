ghost use Rattle.std.specs.Prelude.{◌≡◌, ◌<◌, ◌+◌, ℕ, List, None, MatchOption, length};
ghost use Rattle.mid_base.specs.declared.entries.Entry.{Entry as EntrySeen};
ghost use Rattle.mid_base.specs.declared.host_spec.HostSpec.{HostSpec as SpecSeen};
ghost use Rattle.trace_model.specs.Sending.{pick};

use crate::Running;

impl Running {
    ghost use Rattle.host_state.specs.HostAgrees.{HostAgrees};
    ghost use Rattle.host_state.specs.Picks.{IsFirstUpTo, IsPicked};

    /// The place of the command that goes next: of those that wait and can go, the one that was taken earliest. A command
    /// can go where its device is offline, so that it is reported, or takes one more. It looks at each device once.
    pub fn pick(&self) -> Option<usize>
        ensures { (s : SpecSeen) (P : List EntrySeen) → HostAgrees s P self.now → MatchOption result (pick s P ≡ None) (IsPicked s P self.now) }
    {
        let (order, _) = self.first_to_go()?;
        let taken = self.commands.taken_as(order)?;
        Some(taken.place)
    }

    // The order of taking of the command that goes next, and its device.
    fn first_to_go(&self) -> Option<(usize, usize)>
        ensures { IsFirstUpTo self.now (length self.now.devices.rows.items) result }
    {
        let mut first = None;
        for device in 0..self.devices.count() {
            first = self.earlier(first, device);
        }
        first
    }

    // The earliest of the commands of the devices before this one, and of this one's.
    fn earlier(&self, first: Option<(usize, usize)>, device: usize) -> Option<(usize, usize)>
        requires { device < length self.now.devices.rows.items }
        ensures { IsFirstUpTo self.now device first → IsFirstUpTo self.now (device + 1) result }
    {
        let Some(order) = self.commands.first_waiting(device) else {
            return first;
        };
        match first {
            Some(known) if known.0 <= order => first,
            _ if self.devices.goes(device) => Some((order, device)),
            _ => first,
        }
    }
}
