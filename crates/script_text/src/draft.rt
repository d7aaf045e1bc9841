ghost use Rattle.std.specs.Ordering.{nat_cmp};
ghost use Rattle.std.specs.BTreeSet.{insert_key};
ghost use Rattle.std.specs.Prelude.{◌≡◌, ◌+◌, ◌<◌, ◌++◌, ◌∷◌, [], option_copied, OnOk, Some};
ghost use Rattle.script_text.specs.Said.{nothing, host_of, is_id, on_host, with_unit, with_planned, with_command};
ghost use Rattle.script_text.specs.Adds.{with_scan};
ghost use Rattle.script_text.specs.Script.{keyword_fault};
ghost use Rattle.script_text.specs.Gives.{seen};

use crate::host_draft::HostDraft;
use crate::hosts::{command_onto, fault_onto, unit_onto};
use mid_base::{CmdId, CmdSpec, DevAddr, HostNo, LunSpec, NoMemory, PlanEntry, Step};
use script_words::{Keyword, Kind};
use std::alloc::Global;
use std::collections::BTreeSet;

/// What the lines so far say, and the number of the present line.
#[derive(Drop)]
pub struct Draft {
    pub alloc: Global,
    pub line: u64,
    pub hosts: Vec<HostDraft>,
    pub scans: Vec<(HostNo, DevAddr)>,
    pub ids: BTreeSet<u32>,
    pub plans: usize,
    pub steps: Vec<(u64, HostNo, Step)>,
    pub budget: Option<u64>,
    pub ended: bool,
    pub drain: bool,
}

impl Draft {
    pub fn new(alloc: Global) -> Draft
        ensures { seen result ≡ nothing }
    {
        Draft {
            alloc,
            line: 0,
            hosts: Vec::new(alloc),
            scans: Vec::new(alloc),
            ids: BTreeSet::new(alloc),
            plans: 0,
            steps: Vec::new(alloc),
            budget: None,
            ended: false,
            drain: false,
        }
    }

    /// What is wrong with a line of this kind before its other words are read.
    pub fn bars(&self, keyword: Keyword) -> Option<Kind>
        ensures { result ≡ keyword_fault (seen self.now) keyword }
    {
        if keyword == Keyword::BudgetLine && self.budget.is_some() {
            return Some(Kind::Twice);
        }
        if self.ended {
            return Some(Kind::AfterEnd);
        }
        let is_full = match keyword {
            Keyword::HostLine => self.hosts.len() >= 64,
            Keyword::PlanLine => self.plans >= 65_536,
            Keyword::CommandLine => self.ids.len() >= 65_536,
            Keyword::LunLine | Keyword::StepLine | Keyword::BudgetLine | Keyword::EndLine => false,
        };
        if is_full { Some(Kind::Limit) } else { None }
    }

    /// The host with this number, if an earlier line has one.
    pub fn host(&self, number: u128) -> Option<&HostDraft>
        ensures { option_copied result ≡ host_of (seen self.now).hosts number }
    {
        self.hosts.iter().find(|h| h.no().0 as u128 == number)
    }

    /// Whether an earlier line has this command.
    pub fn has_id(&self, id: u32) -> bool
        ensures { result ≡ is_id (seen self.now).ids id }
    {
        self.ids.contains(&id)
    }

    /// Adds a host behind the others.
    pub fn add_host(&mut self, host: HostDraft) -> Result<(), NoMemory>
        ensures { OnOk result (seen self.new ≡ record (seen self.old) { hosts = (seen self.old).hosts ++ host ∷ [] }) }
    {
        match self.hosts.push(host) {
            Ok(()) => Ok(()),
            Err(_) => Err(NoMemory),
        }
    }

    /// Adds a unit to the host with this number; its device may be one that is found by scanning.
    pub fn add_unit(&mut self, no: HostNo, unit: LunSpec, scan: bool) -> Result<(), NoMemory>
        ensures { OnOk result (seen self.new ≡ record (seen self.old) { hosts = on_host no.0 (with_unit unit) (seen self.old).hosts; scans = with_scan scan (no, unit.dev) (seen self.old).scans }) }
    {
        let dev = unit.dev;
        unit_onto(&mut self.hosts, no, unit)?;
        self.note_scan(no, dev, scan)
    }

    // Notes a device that is found by scanning, if it is.
    fn note_scan(&mut self, no: HostNo, dev: DevAddr, scan: bool) -> Result<(), NoMemory>
        ensures { OnOk result (seen self.new ≡ record (seen self.old) { scans = with_scan scan (no, dev) (seen self.old).scans }) }
    {
        if !scan {
            return Ok(());
        }
        match self.scans.push((no, dev)) {
            Ok(()) => Ok(()),
            Err(_) => Err(NoMemory),
        }
    }

    /// Adds a planned fault to the host with this number.
    pub fn add_planned(&mut self, no: HostNo, entry: PlanEntry) -> Result<(), NoMemory>
        requires { self.old.plans < 65536 }
        ensures { OnOk result (seen self.new ≡ record (seen self.old) { hosts = on_host no.0 (with_planned entry) (seen self.old).hosts; plans = (seen self.old).plans + 1 }) }
    {
        self.plans += 1;
        fault_onto(&mut self.hosts, no, entry)
    }

    /// Adds a command to the host with this number.
    pub fn add_command(&mut self, no: HostNo, command: CmdSpec) -> Result<(), NoMemory>
        requires { command.lane.0 < 64 }
        ensures { OnOk result (seen self.new ≡ record (seen self.old) { hosts = on_host no.0 (with_command command) (seen self.old).hosts; ids = insert_key nat_cmp (seen self.old).ids command.id.0 }) }
    {
        if self.ids.insert(command.id.0).is_err() {
            return Err(NoMemory);
        }
        command_onto(&mut self.hosts, no, command)
    }

    /// Adds a step of this host, which the present line says.
    pub fn add_step(&mut self, no: HostNo, step: Step) -> Result<(), NoMemory>
        ensures { OnOk result (seen self.new ≡ record (seen self.old) { steps = (seen self.old).steps ++ ((seen self.old).line, no, step) ∷ [] }) }
    {
        match self.steps.push((self.line, no, step)) {
            Ok(()) => Ok(()),
            Err(_) => Err(NoMemory),
        }
    }
}
