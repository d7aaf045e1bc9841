//! Worked journals, each with the proof that the rules allow it, or that they don't: what the rules say, shown on whole
//! examples; and the tables of the rules, row by row.
//!
//! A wrong journal differs from a legal one in one entry, which is left out, doubled, changed round with the next, put in
//! or put in another's place, or in one callback of its host. Of each the clause says which place has the first entry that
//! may not stand, and its name says what is wrong there.
#![tactic(auto)]

/// The journals, each legal, and its host drained at its end.
pub mod legal;

/// Wrong neighbours: what is taken and sent, and the states of devices.
pub mod sending;

/// Wrong neighbours: time, owners, answers, aborts.
pub mod attempts;

/// Wrong neighbours: the beginning of recovery, and its acts.
pub mod recovery;

/// Wrong neighbours: what is told or goes again at the end of recovery.
pub mod flush;

/// What is said of whole journals: that something is owed, that a host isn't drained, that an entry doesn't stand.
pub mod whole;

/// The tables: states, dispositions, levels, scopes, addresses, depths, verdicts.
pub mod tables;

/// What the laws of the headline count and refuse, and the trace of a command.
pub mod counts;

/// What bars a step, what opens it, and the tags and claims along a journal.
pub mod steps;

/// A wrong place, or an end too soon, isn't legal.
pub mod laws;
