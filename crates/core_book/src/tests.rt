use crate::CoreBook;
use mid_base::{Attempt, CmdId, Entry, NoMemory, Tag};
use std::alloc::Global;

// A journal with these entries.
fn book_of(alloc: Global, entries: &[Entry]) -> Result<CoreBook, NoMemory> {
    let mut book = CoreBook::new(alloc, 0)?;
    for e in entries {
        book.reserve(1)?;
        book.push(*e);
    }
    Ok(book)
}

// Whether these are the entries of a command, the oldest first.
fn is_trace(book: &CoreBook, c: u32, entries: &[Entry]) -> bool {
    let mut trace = book.of(CmdId(c));
    for e in entries {
        if trace.next() != Some(*e) {
            return false;
        }
    }
    trace.next() == None
}

// Nobody sent the attempts 1 and 2, so what is said of them is of command 0.
const OF_NOBODY: [Entry; 5] = [
    Entry::Late(Attempt(1)),
    Entry::Took(CmdId(3)),
    Entry::Took(CmdId(0)),
    Entry::Sent(CmdId(0), Attempt(4), Tag(0)),
    Entry::Due(Attempt(2)),
];

#[test]
fn what_is_said_of_unknown_attempts_is_of_command_0(rt: HostRuntime) {
    let Ok(book) = book_of(rt.alloc(), &OF_NOBODY) else {
        assert!(rt; false, "room for five entries");
        return;
    };
    let of_none = [OF_NOBODY[0], OF_NOBODY[2], OF_NOBODY[3], OF_NOBODY[4]];
    assert!(rt; is_trace(&book, 0, &of_none));
}

// One attempt is sent for two commands, one after the other.
const SENT_TWICE: [Entry; 5] = [
    Entry::Sent(CmdId(1), Attempt(9), Tag(0)),
    Entry::Due(Attempt(9)),
    Entry::Sent(CmdId(2), Attempt(9), Tag(0)),
    Entry::Longer(Attempt(9)),
    Entry::Again(CmdId(1), true),
];

#[test]
fn an_attempt_is_of_the_command_that_it_was_sent_for_last(rt: HostRuntime) {
    let Ok(book) = book_of(rt.alloc(), &SENT_TWICE) else {
        assert!(rt; false, "room for five entries");
        return;
    };
    assert!(rt; is_trace(&book, 1, &[SENT_TWICE[0], SENT_TWICE[1], SENT_TWICE[4]]));
    assert!(rt; is_trace(&book, 2, &[SENT_TWICE[2], SENT_TWICE[3]]));
}

// Entry number i of a long journal: commands are taken, attempts sent, also those of before, and found late, in turn.
fn entry(i: u32) -> Entry {
    match i % 3 {
        0 => Entry::Took(CmdId(i % 5)),
        1 => Entry::Sent(CmdId(i % 7), Attempt(u64::from(i % 11)), Tag(0)),
        _ => Entry::Late(Attempt(u64::from(i % 4))),
    }
}

// For which command the attempt was sent last among the entries before number i, found by looking back at each of them.
fn sent_for(attempt: u32, i: u32) -> u32 {
    for j in (0..i).rev() {
        if j % 3 == 1 && j % 11 == attempt {
            return j % 7;
        }
    }
    0
}

fn command(i: u32) -> u32 {
    match i % 3 {
        0 => i % 5,
        1 => i % 7,
        _ => sent_for(i % 4, i),
    }
}

fn long_book(alloc: Global) -> Result<CoreBook, NoMemory> {
    let mut book = CoreBook::new(alloc, 300)?;
    for i in 0..300 {
        book.reserve(1)?;
        book.push(entry(i));
    }
    Ok(book)
}

// Whether the trace of a command is what looking back for each of the 300 entries gives.
fn is_walked(book: &CoreBook, c: u32) -> bool {
    let mut trace = book.of(CmdId(c));
    for i in 0..300 {
        if command(i) == c && trace.next() != Some(entry(i)) {
            return false;
        }
    }
    trace.next() == None
}

#[test]
fn the_traces_of_a_long_journal_are_those_of_looking_back(rt: HostRuntime) {
    let Ok(book) = long_book(rt.alloc()) else {
        assert!(rt; false, "room for 300 entries");
        return;
    };
    for c in 0..8 {
        assert!(rt; is_walked(&book, c), "command {c}");
    }
}
