ghost use Rattle.std.specs.Prelude.{◌≡◌, ◌++◌, ◌∷◌, [], map, IfOk};
ghost use Rattle.escalation.specs.declared.rungs.Rung.TheVariants.{ResetHost};
ghost use Rattle.mid_base.specs.Levels.{level_of};
ghost use Rattle.disposition.specs.Ladder.{pairs, devs, same_pair};
ghost use Rattle.escalation.specs.Rungs.{pair_at, level_at, scope_at, on_device, fetches, aborts};

use crate::devices::devices_of;
use disposition::Todo;
use mid_base::{CmdId, DevAddr, NoMemory, Scope, same_dev};

/// An act that the ladder may come to, from the cheapest to the last.
#[derive(Clone, Copy, PartialEq, Eq, Debug)]
pub(crate) enum Rung {
    FetchSense(CmdId),
    Abort(CmdId),
    StartUnit(DevAddr),
    ResetDevice(DevAddr),
    ResetTarget(u8, u8),
    ResetBus(u8),
    ResetHost,
    GiveUp(DevAddr),
}

pub(crate) const FETCH_SENSE: u8 = 1;

pub(crate) const ABORT: u8 = 2;

pub(crate) const START_UNIT: u8 = 3;

pub(crate) const RESET_DEVICE: u8 = 4;

pub(crate) const RESET_TARGET: u8 = 5;

pub(crate) const RESET_BUS: u8 = 6;

pub(crate) const RESET_HOST: u8 = 7;

pub(crate) const GIVE_UP: u8 = 8;

impl Rung {
    /// The number of its level.
    pub(crate) fn level(&self) -> u8
        ensures { result ≡ (pair_at self.now).0 }
    {
        match self {
            Rung::FetchSense(_) => FETCH_SENSE,
            Rung::Abort(_) => ABORT,
            Rung::StartUnit(_) => START_UNIT,
            Rung::ResetDevice(_) => RESET_DEVICE,
            Rung::ResetTarget(_, _) => RESET_TARGET,
            Rung::ResetBus(_) => RESET_BUS,
            Rung::ResetHost => RESET_HOST,
            Rung::GiveUp(_) => GIVE_UP,
        }
    }

    /// What it is aimed at.
    pub(crate) fn scope(&self) -> Scope
        ensures { result ≡ scope_at self.now }
    {
        match self {
            Rung::FetchSense(c) => Scope::Cmd(*c),
            Rung::Abort(c) => Scope::Cmd(*c),
            Rung::StartUnit(dev) => Scope::Dev(*dev),
            Rung::ResetDevice(dev) => Scope::Dev(*dev),
            Rung::ResetTarget(channel, target) => Scope::Target(*channel, *target),
            Rung::ResetBus(channel) => Scope::Bus(*channel),
            Rung::ResetHost => Scope::Host,
            Rung::GiveUp(dev) => Scope::Dev(*dev),
        }
    }
}

/// Whether they are the same act.
pub(crate) fn same_rung(a: &Rung, b: &Rung) -> bool
    ensures { result ≡ same_pair (pair_at a.now) (pair_at b.now) }
{
    match (a, b) {
        (Rung::FetchSense(c), Rung::FetchSense(d)) => *c == *d,
        (Rung::Abort(c), Rung::Abort(d)) => *c == *d,
        (Rung::StartUnit(d), Rung::StartUnit(e)) => same_dev(*d, *e),
        (Rung::ResetDevice(d), Rung::ResetDevice(e)) => same_dev(*d, *e),
        (Rung::ResetTarget(c, t), Rung::ResetTarget(d, u)) => *c == *d && *t == *u,
        (Rung::ResetBus(c), Rung::ResetBus(d)) => *c == *d,
        (Rung::ResetHost, Rung::ResetHost) => true,
        (Rung::GiveUp(d), Rung::GiveUp(e)) => same_dev(*d, *e),
        _ => false,
    }
}

// The rung of a level on a device, or on what has it.
fn on_device(level: u8, dev: DevAddr) -> Rung
    ensures { result ≡ on_device (level_of level) dev }
{
    match level {
        START_UNIT => Rung::StartUnit(dev),
        RESET_DEVICE => Rung::ResetDevice(dev),
        RESET_TARGET => Rung::ResetTarget(dev.channel, dev.target),
        RESET_BUS => Rung::ResetBus(dev.channel),
        _ => Rung::GiveUp(dev),
    }
}

// Adds a level's rungs on these devices.
fn add_level(rungs: &mut Vec<Rung>, level: u8, devices: &[DevAddr]) -> Result<(), NoMemory>
    ensures { IfOk result (λ u. rungs.new.items ≡ rungs.old.items ++ map (on_device (level_of level)) devices.now) }
{
    for dev in devices {
        let rung = on_device(level, *dev);
        if rungs.push(rung).is_err() {
            return Err(NoMemory);
        }
    }
    Ok(())
}

fn add_fetches(rungs: &mut Vec<Rung>, todo: &[Todo]) -> Result<(), NoMemory>
    ensures { IfOk result (λ u. rungs.new.items ≡ rungs.old.items ++ map fetches todo.now) }
{
    for x in todo {
        if rungs.push(Rung::FetchSense(x.cmd)).is_err() {
            return Err(NoMemory);
        }
    }
    Ok(())
}

fn add_aborts(rungs: &mut Vec<Rung>, todo: &[Todo]) -> Result<(), NoMemory>
    ensures { IfOk result (λ u. rungs.new.items ≡ rungs.old.items ++ map aborts todo.now) }
{
    for x in todo {
        if rungs.push(Rung::Abort(x.cmd)).is_err() {
            return Err(NoMemory);
        }
    }
    Ok(())
}

fn add_host(rungs: &mut Vec<Rung>) -> Result<(), NoMemory>
    ensures { IfOk result (λ u. rungs.new.items ≡ rungs.old.items ++ ResetHost ∷ []) }
{
    match rungs.push(Rung::ResetHost) {
        Ok(()) => Ok(()),
        Err(_) => Err(NoMemory),
    }
}

/// Each rung of a ladder for these commands, the first being the lowest.
pub(crate) fn rungs_of(todo: &Vec<Todo>) -> Result<Vec<Rung>, NoMemory>
    ensures { IfOk result (λ v. map pair_at v.items ≡ pairs todo.now.items) }
{
    let devices = devices_of(todo)?;
    let mut rungs = Vec::new(*todo.allocator());
    add_fetches(&mut rungs, todo)?;
    add_aborts(&mut rungs, todo)?;
    add_level(&mut rungs, START_UNIT, &devices)?;
    add_level(&mut rungs, RESET_DEVICE, &devices)?;
    add_level(&mut rungs, RESET_TARGET, &devices)?;
    add_level(&mut rungs, RESET_BUS, &devices)?;
    add_host(&mut rungs)?;
    add_level(&mut rungs, GIVE_UP, &devices)?;
    Ok(rungs)
}
