use bitflags::Flags;
use host_template::{EhSay, HostTemplate, Queued, TimerSay};
use mid_base::{Answer, Attempt, CdbBytes, DevAddr, Handlers, NoMemory, ProbeSay, Tick};

// A lower layer whose callbacks succeed where `succeeds` has them, and which says to its probes one thing after the other,
// whatever was done to their devices. It counts the calls.
#[derive(Drop)]
pub(crate) struct Rogue {
    pub succeeds: Handlers,
    pub says: [ProbeSay; 3],
    pub calls: u32,
}

impl Rogue {
    fn say(&mut self, callback: Handlers) -> EhSay {
        self.calls = self.calls.wrapping_add(1);
        if callback.intersects(self.succeeds) {
            EhSay::Success
        } else {
            EhSay::Failed
        }
    }
}

impl HostTemplate for Rogue {
    ghost use Rattle.std.specs.Prelude.{[], false};

    // It says what it likes, so nothing is said of where it stands.
    ghost stands = { λ x s b P. Unit {0} };

    ghost data_in = { λ s b P d code bytes. Unit {0} };

    ghost is_due = { λ x t. false };

    ghost means = { λ x. record { honest = false; tells = false; holds = [] } };

    fn queue(
        &mut self,
        _n: Attempt,
        _dev: DevAddr,
        _cdb: &CdbBytes,
        _fill: u8,
        _now: Tick,
    ) -> Result<Queued, NoMemory> {
        Ok(Queued::HostBusy)
    }

    fn reserve(&mut self, _k: usize) -> Result<(), NoMemory> {
        Ok(())
    }

    fn due(&self, _now: Tick) -> bool {
        false
    }

    fn work(&mut self, _now: Tick) -> Result<Option<(Attempt, Answer)>, NoMemory> {
        Ok(None)
    }

    fn timed_out(&mut self, _n: Attempt, _dev: DevAddr, _now: Tick) -> TimerSay {
        TimerSay::NotHandled
    }

    fn abort(&mut self, _n: Attempt, _dev: DevAddr) -> EhSay {
        self.say(Handlers::ABORT)
    }

    fn reset_device(&mut self, _dev: DevAddr) -> EhSay {
        self.say(Handlers::DEVICE)
    }

    fn reset_target(&mut self, _channel: u8, _target: u8) -> EhSay {
        self.say(Handlers::TARGET)
    }

    fn reset_bus(&mut self, _channel: u8) -> EhSay {
        self.say(Handlers::BUS)
    }

    fn reset_host(&mut self) -> EhSay {
        self.say(Handlers::HOST)
    }

    fn probe(&mut self, _dev: DevAddr, _cdb: &CdbBytes, into: &mut [u8]) -> ProbeSay {
        self.calls = self.calls.wrapping_add(1);
        into[0] = 0x70;
        self.says[(self.calls % 3) as usize]
    }

    ghost silent = { λ x s b P e quiet h. tt };

    ghost quiet_tick = { λ x s b P idle h. tt };

    ghost scans = { λ x s b c P only same h. tt };
}
