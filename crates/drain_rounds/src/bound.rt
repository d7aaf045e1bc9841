ghost use Rattle.std.specs.Prelude.{◌≡◌, ◌≤◌, ◌+◌, ◌*◌, map, sum_by, length, max};
ghost use Rattle.std.specs.List.{list_all};
ghost use Rattle.mid_base.specs.Limits.{KeepsLimits, is_command, is_planned};
ghost use Rattle.mid_base.specs.declared.host_spec.LunSpec.{LunSpec as LunSeen};
ghost use Rattle.drain_rounds.specs.Bound.{host_bound, latency_of, longest_latency, longest_timeout};
ghost use Rattle.drain_rounds.specs.Rounds.{greatest};

use mid_base::{CmdSpec, Fault, HostSpec, PlanEntry};

/// For how many rounds a host is run on at most where its script says no budget; `states` is the number of lines that set the
/// state of one of its devices.
///
/// It is `(T + D + 4) * (1 + A + U + states)`: T the longest timeout of its commands, D the longest planned latency and at
/// least 1, A the sum of `allowed` plus 2 over its commands, U the sum of the uses of its planned faults.
pub fn host_bound(spec: &HostSpec, states: u64) -> u128
    requires { KeepsLimits spec.now }
    ensures { result ≡ host_bound spec.now states }
{
    let ticks = u128::from(longest_timeout(spec.cmds.as_slice()))
        + u128::from(longest_latency(spec.plan.as_slice()))
        + 4;
    let work = 1 + tries(spec.cmds.as_slice()) + uses(spec.plan.as_slice()) + u128::from(states);
    ticks * work
}

fn longest_timeout(cmds: &[CmdSpec]) -> u32
    ensures { result ≡ greatest (map (λ k. k.timeout) cmds.now) }
{
    let mut longest = 0;
    for command in cmds {
        longest = command.timeout.max(longest);
    }
    longest
}

fn longest_latency(plan: &[PlanEntry]) -> u32
    ensures { result ≡ max 1 (greatest (map (λ e. latency_of e.fault) plan.now)) }
{
    let mut longest = 1;
    for entry in plan {
        longest = latency_of(entry.fault).max(longest);
    }
    longest
}

fn latency_of(fault: Fault) -> u32
    ensures { result ≡ latency_of fault }
{
    match fault {
        Fault::Latency(ticks) => ticks,
        _ => 1,
    }
}

// How often the commands may be sent or reported.
fn tries(cmds: &[CmdSpec]) -> u128
    ensures sum { result ≡ sum_by (λ k. k.allowed + 2) cmds.now }
    ensures few { result ≤ 257 * length cmds.now }
{
    let mut sum = 0;
    for command in cmds {
        sum += u128::from(command.allowed) + 2;
    }
    sum
}

fn uses(plan: &[PlanEntry]) -> u128
    ensures sum { result ≡ sum_by (λ e. e.uses) plan.now }
    ensures few { result ≤ 4294967295 * length plan.now }
{
    let mut sum = 0;
    for entry in plan {
        sum += u128::from(entry.uses);
    }
    sum
}
