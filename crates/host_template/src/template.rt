ghost use Rattle.std.specs.Prelude.{◌≡◌, ◌<◌, ◌≤◌, ◌^◌, ℕ, Bool, true, false, length, IfOk, OnErr, MatchOption};

use crate::{EhSay, Queued, TimerSay};
use mid_base::{Answer, Attempt, CdbBytes, DevAddr, NoMemory, ProbeSay, Tick};

/// The lower layer of a host.
///
/// Each call says what the lower layer means afterwards, and that it stands where each journal that the call fits, with
/// the entries for the call's answer, leaves it.
pub trait HostTemplate: Drop + Send {
    ghost use Rattle.mid_base.specs.declared.answers.Scope.TheVariants.{Dev, Target, Bus, Host};
    ghost use Rattle.host_template.specs.Standing.{Standing, DataIn, Stays, Unchanged};
    ghost use Rattle.host_template.specs.Meaning.{Meaning, SameNature, SameMeaning, IfHonest, NothingAdded, HonestQueue, HonestWork, HonestAbort, HonestReset};
    ghost use Rattle.host_template.specs.Calls.{StandsQueued, StandsReady, StandsTimed, StandsAborted, StandsReset, StandsProbed};
    ghost use Rattle.host_template.specs.Probes.{IsProbe, code_of};
    ghost use Rattle.host_template.specs.Laws.{SilentLaw, TickLaw, ScanLaw};

    /// Whether it stands where these entries, the newest first, leave it.
    ghost stands: { Self → Standing };

    /// Which bytes are the data-in of a probe, where a journal leaves it.
    ghost data_in: { DataIn };

    /// Whether an answer is due at a tick.
    ghost is_due: { Self → ℕ → Bool };

    /// Whether it is honest, and the attempts that it holds, where it tells them.
    ghost means: { Self → Meaning };

    /// Hands an attempt of a command over, with the device, the CDB and the byte of a write's data
    /// (`scsi_mid_low_api.rst`, "queuecommand"). An honest lower layer holds the attempt exactly where it answers Taken.
    fn queue(
        &mut self,
        n: Attempt,
        dev: DevAddr,
        cdb: &CdbBytes,
        fill: u8,
        now: Tick,
    ) -> Result<Queued, NoMemory>
        requires { now.0 < 2 ^ 60 }
        ensures ok { IfOk result (StandsQueued (stands self.old) (stands self.new) n now.0 dev cdb.now fill) }
        ensures err { OnErr result (Unchanged (stands self.old) (stands self.new) (is_due self.old) (is_due self.new)) }
        ensures nature { SameNature (means self.old) (means self.new) }
        ensures honest { IfOk result (λ q. IfHonest (HonestQueue n.0 dev q) (means self.old) (means self.new)) }
        ensures kept { OnErr result (SameMeaning (means self.old) (means self.new)) };

    /// Takes room for `k` attempts more. It changes nothing else, also where it fails.
    fn reserve(&mut self, k: usize) -> Result<(), NoMemory>
        ensures stands { Stays (stands self.old) (stands self.new) }
        ensures due { (t : ℕ) → is_due self.new t ≡ is_due self.old t }
        ensures kept { SameMeaning (means self.old) (means self.new) };

    /// Whether an answer is due.
    fn due(&self, now: Tick) -> bool
        ensures { result ≡ is_due self.now now.0 };

    /// The next answer, where one is due; None, with nothing changed, exactly where none is. An honest lower layer hands
    /// out an attempt that it held, and holds it no longer.
    fn work(&mut self, now: Tick) -> Result<Option<(Attempt, Answer)>, NoMemory>
        requires { now.0 < 2 ^ 60 }
        ensures due { IfOk result (λ r. MatchOption r (is_due self.old now.0 ≡ false) (λ x. is_due self.old now.0 ≡ true)) }
        ensures none { IfOk result (λ r. MatchOption r (Unchanged (stands self.old) (stands self.new) (is_due self.old) (is_due self.new))
            (λ x. StandsReady (stands self.old) (stands self.new) now.0 x)) }
        ensures err { OnErr result (Unchanged (stands self.old) (stands self.new) (is_due self.old) (is_due self.new)) }
        ensures nature { SameNature (means self.old) (means self.new) }
        ensures honest { IfOk result (λ r. MatchOption r (SameMeaning (means self.old) (means self.new))
            (λ x. IfHonest (HonestWork x) (means self.old) (means self.new))) }
        ensures kept { OnErr result (SameMeaning (means self.old) (means self.new)) };

    /// Asks what is to be done with an attempt that isn't answered in time (`scsi_eh.rst`, "Completing a scmd w/
    /// timeout"). It adds no attempt.
    fn timed_out(&mut self, n: Attempt, dev: DevAddr, now: Tick) -> TimerSay
        requires { now.0 < 2 ^ 60 }
        ensures stands { StandsTimed (stands self.old) (stands self.new) n dev now.0 result }
        ensures nature { SameNature (means self.old) (means self.new) }
        ensures honest { IfHonest NothingAdded (means self.old) (means self.new) };

    /// Tries to take an attempt back (`scsi_mid_low_api.rst`, "eh_abort_handler"). Success of an honest lower layer means
    /// that the attempt isn't held.
    fn abort(&mut self, n: Attempt, dev: DevAddr) -> EhSay
        ensures stands { StandsAborted (stands self.old) (stands self.new) n dev result }
        ensures nature { SameNature (means self.old) (means self.new) }
        ensures honest { IfHonest (HonestAbort n.0 result) (means self.old) (means self.new) };

    /// Tries to reset a device (`scsi_mid_low_api.rst`, "eh_device_reset_handler"). Success of a reset of an honest lower
    /// layer, this one or one of the three below, means that no attempt of a device in its scope is held.
    fn reset_device(&mut self, dev: DevAddr) -> EhSay
        ensures stands { StandsReset (stands self.old) (stands self.new) 4 (Dev dev) result }
        ensures nature { SameNature (means self.old) (means self.new) }
        ensures honest { IfHonest (HonestReset (Dev dev) result) (means self.old) (means self.new) };

    /// Tries to reset a target (`scsi_mid_low_api.rst`, "eh_target_reset_handler").
    fn reset_target(&mut self, channel: u8, target: u8) -> EhSay
        ensures stands { StandsReset (stands self.old) (stands self.new) 5 (Target channel target) result }
        ensures nature { SameNature (means self.old) (means self.new) }
        ensures honest { IfHonest (HonestReset (Target channel target) result) (means self.old) (means self.new) };

    /// Tries to reset a channel (`scsi_mid_low_api.rst`, "eh_bus_reset_handler").
    fn reset_bus(&mut self, channel: u8) -> EhSay
        ensures stands { StandsReset (stands self.old) (stands self.new) 6 (Bus channel) result }
        ensures nature { SameNature (means self.old) (means self.new) }
        ensures honest { IfHonest (HonestReset (Bus channel) result) (means self.old) (means self.new) };

    /// Tries to reset the host (`scsi_mid_low_api.rst`, "eh_host_reset_handler").
    fn reset_host(&mut self) -> EhSay
        ensures stands { StandsReset (stands self.old) (stands self.new) 7 Host result }
        ensures nature { SameNature (means self.old) (means self.new) }
        ensures honest { IfHonest (HonestReset Host result) (means self.old) (means self.new) };

    /// Sends a command of recovery or scanning, which takes no time. Its data-in stands in the first `moved` bytes of the
    /// buffer, which has at least 2,056 bytes; who calls takes no more of them than the CDB asks for. It adds no attempt.
    fn probe(&mut self, dev: DevAddr, cdb: &CdbBytes, into: &mut [u8]) -> ProbeSay
        requires room { 2056 ≤ length into.old }
        requires known { IsProbe cdb.now }
        ensures stands { StandsProbed (stands self.old) (stands self.new) data_in dev (code_of cdb.now) result into.new }
        ensures nature { SameNature (means self.old) (means self.new) }
        ensures honest { IfHonest NothingAdded (means self.old) (means self.new) }
        ensures len { length into.new ≡ length into.old };

    /// An entry that tells nothing of a lower layer leaves it where it stands.
    ghost silent: { (x : Self) → SilentLaw (stands x) };

    /// So does a tick while nothing is due.
    ghost quiet_tick: { (x : Self) → TickLaw (stands x) (is_due x) };

    /// After probes of scanning alone it also stands at the empty journal, with them counted as earlier ones.
    ghost scans: { (x : Self) → ScanLaw (stands x) };
}
