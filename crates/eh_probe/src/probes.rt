ghost use Rattle.std.specs.Prelude.{◌≡◌, ◌≤◌, ◌∷◌, [], length, take};
ghost use Rattle.mid_base.specs.declared.entries.Entry.TheVariants.{Probe as Probed};
ghost use Rattle.mid_base.specs.Codes.{test_unit_ready, request_sense, start_stop_unit};
ghost use Rattle.host_template.specs.Meaning.{SameNature, IfHonest, NothingAdded};
ghost use Rattle.eh_probe.specs.Tests.{IsTest, test_entries, sense_count as sense_count_seen};
ghost use Rattle.eh_probe.specs.Standings.{StandsAfter, StandsFetched};

use crate::Tested;
use crate::says::{is_doubtful, said_good, sorted};
use host_template::HostTemplate;
use mid_base::{CdbBytes, DevAddr, ProbeSay};

/// Sends REQUEST SENSE for 252 bytes (SPC-4, 6.39): what came of it, and how many bytes of sense data stand in the front
/// of `into`. There are none where it wasn't answered with DID_OK and GOOD. The buffer has at least 2,056 bytes.
pub fn get_sense<A: HostTemplate>(lower: &mut A, dev: DevAddr, into: &mut [u8]) -> (ProbeSay, usize)
    requires { 2056 ≤ length into.old }
    ensures count { result.1 ≡ sense_count_seen result.0 }
    ensures stands { StandsAfter (A.stands lower.old) (A.stands lower.new) (Probed dev request_sense result.0 ∷ []) }
    ensures fetch { StandsFetched (A.stands lower.old) (A.stands lower.new) dev result.0 (take result.1 into.new) }
    ensures nature { SameNature (A.means lower.old) (A.means lower.new) }
    ensures honest { IfHonest NothingAdded (A.means lower.old) (A.means lower.new) }
    ensures len { length into.new ≡ length into.old }
{
    let cdb = CdbBytes::from_slice(&[3, 0, 0, 0, 252, 0]);
    let say = lower.probe(dev, &cdb, into);
    (say, sense_count(&say))
}

fn sense_count(say: &ProbeSay) -> usize
    ensures { result ≡ sense_count_seen say.now }
{
    match say {
        ProbeSay::Answered(answer) if said_good(say) => (answer.moved as usize).min(252),
        _ => 0,
    }
}

/// Sends START STOP UNIT with its START bit (SBC-3, 5.25). The buffer has at least 2,056 bytes.
pub fn start_unit<A: HostTemplate>(lower: &mut A, dev: DevAddr, into: &mut [u8]) -> ProbeSay
    requires { 2056 ≤ length into.old }
    ensures stands { StandsAfter (A.stands lower.old) (A.stands lower.new) (Probed dev start_stop_unit result ∷ []) }
    ensures nature { SameNature (A.means lower.old) (A.means lower.new) }
    ensures honest { IfHonest NothingAdded (A.means lower.old) (A.means lower.new) }
    ensures len { length into.new ≡ length into.old }
{
    let cdb = CdbBytes::from_slice(&[27, 0, 0, 0, 1, 0]);
    lower.probe(dev, &cdb, into)
}

/// Tests whether a device is ready, by TEST UNIT READY (SPC-4, 6.47).
///
/// It is sent a second time exactly where the first was answered, isn't DID_OK with GOOD, and would be retried if it were
/// allowed one retry. The device is ready where the last one sent was answered with DID_OK and GOOD. The buffer has at least
/// 2,056 bytes.
pub fn ready<A: HostTemplate>(lower: &mut A, dev: DevAddr, into: &mut [u8]) -> Tested
    requires { 2056 ≤ length into.old }
    ensures test { IsTest result }
    ensures stands { StandsAfter (A.stands lower.old) (A.stands lower.new) (test_entries dev result) }
    ensures nature { SameNature (A.means lower.old) (A.means lower.new) }
    ensures honest { IfHonest NothingAdded (A.means lower.old) (A.means lower.new) }
    ensures len { length into.new ≡ length into.old }
{
    let say = test(lower, dev, into);
    let first = sorted(say);
    if !is_doubtful(&say) {
        let ready = said_good(&say);
        return Tested {
            first,
            second: None,
            ready,
        };
    }
    let again = test(lower, dev, into);
    Tested {
        first,
        second: Some(sorted(again)),
        ready: said_good(&again),
    }
}

fn test<A: HostTemplate>(lower: &mut A, dev: DevAddr, into: &mut [u8]) -> ProbeSay
    requires { 2056 ≤ length into.old }
    ensures stands { StandsAfter (A.stands lower.old) (A.stands lower.new) (Probed dev test_unit_ready result ∷ []) }
    ensures nature { SameNature (A.means lower.old) (A.means lower.new) }
    ensures honest { IfHonest NothingAdded (A.means lower.old) (A.means lower.new) }
    ensures len { length into.new ≡ length into.old }
{
    let cdb = CdbBytes::from_slice(&[0; 6]);
    lower.probe(dev, &cdb, into)
}
