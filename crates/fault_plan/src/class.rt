ghost use Rattle.std.specs.Prelude.{◌≡◌};
ghost use Rattle.fault_plan.specs.Plan.{class_of, same_class};

use mid_base::Fault;

/// What is counted, for each device on its own: the calls of one kind that a planned fault can hit. A call of `queue` is
/// counted once, and may be hit in the classes `Queue`, `Time` and `Answer` at once.
#[derive(Clone, Copy, PartialEq, Eq, Debug)]
pub enum Class {
    /// Calls that queue an attempt: the host or the device is busy.
    Queue,
    /// The same calls: when the attempt is answered.
    Time,
    /// The same calls: what the attempt is answered.
    Answer,
    /// Calls that say that an attempt timed out.
    Timer,
    /// Calls that abort an attempt.
    Abort,
    /// Resets of a device, which is this one.
    ResetDevice,
    /// Resets of a target that has the device.
    ResetTarget,
    /// Resets of a bus that has the device.
    ResetBus,
    /// Resets of the host.
    ResetHost,
    /// Commands of recovery or scanning.
    Probe,
}

/// The class whose calls a fault hits.
pub fn class_of(fault: &Fault) -> Class
    ensures { result ≡ class_of fault.now }
{
    match fault {
        Fault::HostBusy | Fault::Busy => Class::Queue,
        Fault::Latency(_) | Fault::Never => Class::Time,
        Fault::Check(_, _, _) | Fault::NoSense(_, _, _) | Fault::Raw(_) | Fault::Status(_, _) =>
            Class::Answer,
        Fault::Longer | Fault::TimerDone => Class::Timer,
        Fault::AbortFail => Class::Abort,
        Fault::Rdev => Class::ResetDevice,
        Fault::Rtgt => Class::ResetTarget,
        Fault::Rbus => Class::ResetBus,
        Fault::Rhost => Class::ResetHost,
        Fault::Silent => Class::Probe,
    }
}

/// Whether two classes are the same.
pub fn same_class(a: Class, b: Class) -> bool
    ensures { result ≡ same_class a b }
{
    a == b
}
