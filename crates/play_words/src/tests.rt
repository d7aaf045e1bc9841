use crate::{Mode, listed};
use std::alloc::Global;
use std::test::Fail;

// What these words ask for.
fn mode(alloc: Global, words: &[&str]) -> Result<Option<Mode>, Fail> {
    let mut list = Vec::new(alloc);
    for word in words {
        list.push(word.to_string(alloc)?)?;
    }
    Ok(listed(&list))
}

#[test]
fn no_words_ask_for_the_script(rt: HostRuntime) -> Result<(), Fail> {
    assert_eq!(rt; mode(rt.alloc(), &[])?, Some(Mode::Script));
    Ok(())
}

#[test]
fn two_signs_alone_ask_for_the_script(rt: HostRuntime) -> Result<(), Fail> {
    assert_eq!(rt; mode(rt.alloc(), &["--"])?, Some(Mode::Script));
    Ok(())
}

// Each list that is known, with the number that it asks for.
const MADE: [(&[&str], u32); 6] = [
    (&["--make", "4"], 4),
    (&["--make=20", "--"], 20),
    (&["--make=1"], 1),
    (&["--make", "20000"], 20_000),
    (&["--make", "99", "--"], 99),
    (&["--make=12345"], 12_345),
];

#[test]
fn a_number_asks_for_so_many_commands(rt: HostRuntime) -> Result<(), Fail> {
    for (words, count) in MADE {
        assert_eq!(rt; mode(rt.alloc(), words)?, Some(Mode::Make(count)));
    }
    Ok(())
}

const UNKNOWN: [&[&str]; 16] = [
    &["--make"],
    &["--make="],
    &["--make=", "4"],
    &["--make", "020"],
    &["--make=020"],
    &["--make", "0"],
    &["--make", "20001"],
    &["--make", "100000"],
    &["--make", "+4"],
    &["--make", "4x"],
    &["--make", "--"],
    &["--", "--make", "4"],
    &["--make", "4", "--", "--"],
    &["--", "--"],
    &["--verbose"],
    &[""],
];

#[test]
fn any_other_list_is_unknown(rt: HostRuntime) -> Result<(), Fail> {
    for words in UNKNOWN {
        assert_eq!(rt; mode(rt.alloc(), words)?, None);
    }
    Ok(())
}
