ghost use Rattle.std.specs.Prelude.{◌≡◌, ◌++◌, ◌&&◌, not, map, All, count_by, IfOk, OnOk};
ghost use Rattle.std.specs.List.{position};
ghost use Rattle.mid_base.specs.Limits.{KeepsLimits};
ghost use Rattle.script_text.specs.Playable.{IsPlayable, IsStepOf, IsStepOnSome};
ghost use Rattle.script_text.specs.Said.{host_of};
ghost use Rattle.drain_rounds.specs.Rounds.{greatest};
ghost use Rattle.play_sched.specs.Played.{ComesOn, DrainEach, Plays, Ran, RunOn, bound_in, most_rounds, sets_state, skip_of};
ghost use Rattle.play_sched.specs.Runs.{IsNumbered, IsRun, all_drained, as_found, is_named, specs_of, unplayed};

use crate::draining::drain;
use crate::host::Host;
use drain_rounds::host_bound;
use mid_base::{DevAddr, HostNo, HostSpec, NoMemory, Rows, Step, Why};
use script_text::Script;
use std::alloc::Global;

type StepLine = (u64, HostNo, Step);

/// The hosts of a script that was played, in its order, the step lines that were skipped (their numbers, and why), and whether
/// the rounds of the script were used up with a host that isn't drained.
#[derive(Drop)]
pub struct Played {
    pub hosts: Vec<Host>,
    pub skips: Vec<(u64, Why)>,
    pub short: bool,
}

/// Scans the targets of a script's hosts, makes its steps on them, and runs them on in rounds where it ends with `end drain`.
pub fn play_script(alloc: Global, script: Script) -> Result<Played, NoMemory>
    requires { IsPlayable script }
    ensures ran { IfOk result (λ played. Ran script played.hosts.items played.skips.items played.short) }
    ensures numbers { IfOk result (λ played. All IsNumbered played.hosts.items) }
{
    let most = most_rounds(&script);
    let drains = script.drain;
    let Script {
        hosts,
        scans,
        steps,
        ..
    } = script;
    let lines = play_lines(alloc, hosts, scans.as_slice(), steps.as_slice())?;
    let hosts = run_on(alloc, lines.0, drains, most)?;
    let short = is_short(drains, &hosts);
    know_runs(&hosts);
    Ok(Played {
        hosts,
        skips: lines.1,
        short,
    })
}

// For how many rounds the hosts are run on.
fn most_rounds(script: &Script) -> u128
    requires { All KeepsLimits script.now.hosts }
    ensures { result ≡ most_rounds script.now }
{
    match script.budget {
        Some(rounds) => u128::from(rounds),
        None => greatest_bound(script.hosts.as_slice(), script.steps.as_slice()),
    }
}

fn greatest_bound(hosts: &[HostSpec], steps: &[StepLine]) -> u128
    requires { All KeepsLimits hosts.now }
    ensures { result ≡ greatest (map (bound_in steps.now) hosts.now) }
{
    let mut most = 0;
    for host in hosts {
        most = host_bound(host, states_of(host.no.0, steps)).max(most);
    }
    most
}

// How many of these lines set the state of a device of the host with this number.
fn states_of(number: u8, steps: &[StepLine]) -> u64
    ensures { result ≡ count_by (sets_state number) steps.now }
{
    steps.iter().filter(|line| sets_state(number, line)).count() as u64
}

fn sets_state(number: u8, line: &StepLine) -> bool
    ensures { result ≡ sets_state number line.now }
{
    matches!(line.2, Step::SetState(..)) && line.1.0 == number
}

// The hosts with these specs after the step lines, and those that were skipped.
fn play_lines(
    alloc: Global,
    specs: Rows<HostSpec>,
    scans: &[(HostNo, DevAddr)],
    steps: &[StepLine],
) -> Result<(Vec<Host>, Vec<(u64, Why)>), NoMemory>
    requires limits { All KeepsLimits specs }
    requires steps { All (IsStepOf specs) steps.now }
    ensures plays { IfOk result (λ played. Plays steps.now (map (unplayed scans.now) specs) played.0.items played.1.items) }
    ensures specs { IfOk result (λ played. specs_of played.0.items ≡ map (as_found scans.now) specs) }
{
    let mut hosts = start(alloc, specs, scans)?;
    let skips = play_steps(alloc, &mut hosts, steps)?;
    Ok((hosts, skips))
}

// Hosts with these specs, to which nothing has happened but the scans of their targets.
fn start(
    alloc: Global,
    specs: Rows<HostSpec>,
    scans: &[(HostNo, DevAddr)],
) -> Result<Vec<Host>, NoMemory>
    requires { All KeepsLimits specs }
    ensures { IfOk result (λ hosts. hosts.items ≡ map (unplayed scans.now) specs) }
{
    let mut hosts = Vec::new(alloc);
    for spec in specs.into_vec() {
        let host = Host::new(alloc, spec, scans)?;
        hosts.push(host).map_err(|_| NoMemory)?;
    }
    Ok(hosts)
}

// Makes steps one after the other.
fn play_steps(
    alloc: Global,
    hosts: &mut [Host],
    steps: &[StepLine],
) -> Result<Vec<(u64, Why)>, NoMemory>
    requires { All (IsStepOf (specs_of hosts.old)) steps.now }
    ensures plays { IfOk result (λ skips. Plays steps.now hosts.old hosts.new skips.items) }
    ensures specs { IfOk result (λ skips. specs_of hosts.new ≡ specs_of hosts.old) }
{
    let mut skips = Vec::new(alloc);
    for (line, no, step) in steps {
        let why = make_step(hosts, *no, *step)?;
        note(&mut skips, *line, why)?;
    }
    Ok(skips)
}

// Makes one step on the host that it names, and says why it was skipped.
fn make_step(hosts: &mut [Host], no: HostNo, step: Step) -> Result<Option<Why>, NoMemory>
    requires { IsStepOnSome (host_of (specs_of hosts.old) no.0) step }
    ensures comes { IfOk result (λ why. ComesOn hosts.old no.0 step why hosts.new) }
    ensures specs { IfOk result (λ why. specs_of hosts.new ≡ specs_of hosts.old) }
{
    let Some(place) = place_of(hosts, no.0) else {
        unreachable!();
    };
    let why = hosts[place].make(step)?;
    Ok(why)
}

fn place_of(hosts: &[Host], number: u8) -> Option<usize>
    ensures { result ≡ position (is_named number) hosts.now }
{
    hosts.iter().position(|host| host.spec().no.0 == number)
}

// Keeps a step line that was skipped.
fn note(skips: &mut Vec<(u64, Why)>, line: u64, why: Option<Why>) -> Result<(), NoMemory>
    ensures { OnOk result (skips.new.items ≡ skips.old.items ++ skip_of line why) }
{
    match why {
        Some(why) => match skips.push((line, why)) {
            Ok(()) => Ok(()),
            Err(_) => Err(NoMemory),
        },
        None => Ok(()),
    }
}

// Runs the hosts on for at most so many rounds, where that is asked for.
fn run_on(alloc: Global, hosts: Vec<Host>, drains: bool, most: u128) -> Result<Vec<Host>, NoMemory>
    ensures rounds { IfOk result (λ new. RunOn drains most hosts.items new.items) }
    ensures specs { IfOk result (λ new. specs_of new.items ≡ specs_of hosts.items) }
{
    if drains {
        drain_each(alloc, hosts, most)
    } else {
        Ok(hosts)
    }
}

#[tactic(auto, using(crate::proofs::Runs::drained_more, crate::proofs::Runs::drained_specs))]
fn drain_each(alloc: Global, hosts: Vec<Host>, most: u128) -> Result<Vec<Host>, NoMemory>
    ensures rounds { IfOk result (λ new. DrainEach most hosts.items new.items) }
    ensures specs { IfOk result (λ new. specs_of new.items ≡ specs_of hosts.items) }
{
    let mut drained = Vec::new(alloc);
    for mut host in hosts {
        drain(&mut host, most)?;
        drained.push(host).map_err(|_| NoMemory)?;
    }
    Ok(drained)
}

// Whether draining is asked for, and a host isn't drained.
fn is_short(drains: bool, hosts: &[Host]) -> bool
    ensures { result ≡ (drains && not (all_drained hosts.now)) }
{
    drains && !are_drained(hosts)
}

fn are_drained(hosts: &[Host]) -> bool
    ensures { result ≡ all_drained hosts.now }
{
    hosts.iter().all(|host| host.is_drained())
}

// What holds of each host's journal. It does nothing.
fn know_runs(hosts: &[Host])
    ensures { All IsRun hosts.now }
{
    for host in hosts {
        let _ = host.journal();
    }
}
