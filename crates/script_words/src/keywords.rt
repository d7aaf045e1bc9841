ghost use Rattle.std.specs.Prelude.{◌≡◌};
ghost use Rattle.script_words.specs.Keywords.{keyword, step_name, eh_name, end_name, owner, state, failfast};

use mid_base::{By, DeviceState};

/// The kinds of lines, which their first words tell.
#[derive(Clone, Copy, PartialEq, Eq, Debug)]
pub enum Keyword {
    HostLine,
    LunLine,
    PlanLine,
    CommandLine,
    StepLine,
    BudgetLine,
    EndLine,
}

/// The kinds of steps that a script may name.
#[derive(Clone, Copy, PartialEq, Eq, Debug)]
pub enum StepName {
    Submit,
    Send,
    Work,
    Due,
    Own,
    Settle,
    Drop,
    Abort,
    Eh,
    Tick,
    State,
}

/// The steps of recovery, which the word behind `eh` tells.
#[derive(Clone, Copy, PartialEq, Eq, Debug)]
pub enum EhName {
    Begin,
    Act,
    Flush,
    End,
}

/// How a script ends, which the word behind `end` tells: with its last step, or with the hosts run on until nothing is left
/// to do.
#[derive(Clone, Copy, PartialEq, Eq, Debug)]
pub enum EndName {
    Stop,
    Drain,
}

/// The kind of line that begins with this word.
#[tactic(auto, unfolding(crate::specs::Keywords::keyword))]
pub fn keyword_of(word: &[u8]) -> Option<Keyword>
    ensures { result ≡ keyword word.now }
{
    if word == b"host".as_slice() {
        return Some(Keyword::HostLine);
    }
    if word == b"lun".as_slice() {
        return Some(Keyword::LunLine);
    }
    if word == b"plan".as_slice() {
        return Some(Keyword::PlanLine);
    }
    if word == b"cmd".as_slice() {
        return Some(Keyword::CommandLine);
    }
    if word == b"step".as_slice() {
        return Some(Keyword::StepLine);
    }
    if word == b"budget".as_slice() {
        return Some(Keyword::BudgetLine);
    }
    if word == b"end".as_slice() {
        return Some(Keyword::EndLine);
    }
    None
}

/// The kind of step that this word names.
#[tactic(auto, unfolding(crate::specs::Keywords::step_name))]
pub fn step_name_of(word: &[u8]) -> Option<StepName>
    ensures { result ≡ step_name word.now }
{
    if word == b"submit".as_slice() {
        return Some(StepName::Submit);
    }
    if word == b"send".as_slice() {
        return Some(StepName::Send);
    }
    if word == b"work".as_slice() {
        return Some(StepName::Work);
    }
    if word == b"due".as_slice() {
        return Some(StepName::Due);
    }
    if word == b"own".as_slice() {
        return Some(StepName::Own);
    }
    if word == b"settle".as_slice() {
        return Some(StepName::Settle);
    }
    if word == b"drop".as_slice() {
        return Some(StepName::Drop);
    }
    if word == b"abort".as_slice() {
        return Some(StepName::Abort);
    }
    if word == b"eh".as_slice() {
        return Some(StepName::Eh);
    }
    if word == b"tick".as_slice() {
        return Some(StepName::Tick);
    }
    if word == b"state".as_slice() {
        return Some(StepName::State);
    }
    None
}

/// The step of recovery that this word names.
#[tactic(auto, unfolding(crate::specs::Keywords::eh_name))]
pub fn eh_name_of(word: &[u8]) -> Option<EhName>
    ensures { result ≡ eh_name word.now }
{
    if word == b"begin".as_slice() {
        return Some(EhName::Begin);
    }
    if word == b"act".as_slice() {
        return Some(EhName::Act);
    }
    if word == b"flush".as_slice() {
        return Some(EhName::Flush);
    }
    if word == b"end".as_slice() {
        return Some(EhName::End);
    }
    None
}

/// The end of a script that this word names.
#[tactic(auto, unfolding(crate::specs::Keywords::end_name))]
pub fn end_name_of(word: &[u8]) -> Option<EndName>
    ensures { result ≡ end_name word.now }
{
    if word == b"stop".as_slice() {
        return Some(EndName::Stop);
    }
    if word == b"drain".as_slice() {
        return Some(EndName::Drain);
    }
    None
}

/// Whom this word gives an attempt to: its answer, or its expired timer.
#[tactic(auto, unfolding(crate::specs::Keywords::owner))]
pub fn owner_of(word: &[u8]) -> Option<By>
    ensures { result ≡ owner word.now }
{
    if word == b"answer".as_slice() {
        return Some(By::Answer);
    }
    if word == b"expiry".as_slice() {
        return Some(By::Expiry);
    }
    None
}

/// The state of a device that this word names.
#[tactic(auto, unfolding(crate::specs::Keywords::state))]
pub fn state_of(word: &[u8]) -> Option<DeviceState>
    ensures { result ≡ state word.now }
{
    if word == b"running".as_slice() {
        return Some(DeviceState::Running);
    }
    if word == b"quiesce".as_slice() {
        return Some(DeviceState::Quiesce);
    }
    if word == b"block".as_slice() {
        return Some(DeviceState::Block);
    }
    if word == b"offline".as_slice() {
        return Some(DeviceState::Offline);
    }
    if word == b"cancel".as_slice() {
        return Some(DeviceState::Cancel);
    }
    if word == b"del".as_slice() {
        return Some(DeviceState::Del);
    }
    None
}

/// Whether this word says that a command is to fail at the first error: `-` says no, `failfast` yes.
#[tactic(auto, unfolding(crate::specs::Keywords::failfast))]
pub fn failfast_of(word: &[u8]) -> Option<bool>
    ensures { result ≡ failfast word.now }
{
    if word == b"-".as_slice() {
        return Some(false);
    }
    if word == b"failfast".as_slice() {
        return Some(true);
    }
    None
}
