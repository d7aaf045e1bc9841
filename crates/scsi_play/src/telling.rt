use play_top::Status;
use std::str;

// A bad line and its kind, as the line that is printed of a bad script has them.
fn parts_of(text: &str) -> Option<(&str, &str)> {
    let rest = text.strip_prefix("bad line ")?;
    let rest = rest.strip_suffix("\n")?;
    rest.split_once(" kind ")
}

// What is wrong with a line of this kind.
fn kind_words(kind: &str) -> &'static str {
    match kind {
        "1" => "a word isn't one of those that may stand there",
        "2" => "a word is no number, or no address",
        "3" => "the line ends too early",
        "4" => "a word is too many",
        "5" => "a digit isn't hexadecimal, or there are too few or too many digits",
        "6" => "a name is given again, or a flag, or the budget",
        "7" => "no earlier line has this name",
        "8" => "a number is outside its range, or there are too many bytes or lines",
        "9" => "the script ends without the line `end stop` or `end drain`",
        "10" => "a line comes behind the last one",
        _ => "it is bad",
    }
}

/// The line of a bad script, and what is wrong with it, by what was printed of it.
pub fn bad_line(printed: &[u8]) -> Option<(&str, &'static str)> {
    let text = str::from_utf8(printed).ok()?;
    let (line, kind) = parts_of(text)?;
    Some((line, kind_words(kind)))
}

/// What failed in a run that ended with this status; nothing where it played the script, or the script is bad.
pub fn failure(status: Status) -> Option<&'static str> {
    match status.0 {
        2 => Some(
            "a script comes on standard input, as in scsi_play < SCRIPT; its only words are --make N, 1 to 20000, and --",
        ),
        4 => Some("the script couldn't be read"),
        5 => Some("the output couldn't be written"),
        6 => Some("the rounds of the script are used up, and a host isn't drained"),
        7 => Some("there isn't enough memory"),
        _ => None,
    }
}

#[cfg(test)]
mod tests {
    use super::*;
    use std::test::Fail;

    #[test]
    fn a_bad_line_is_told_in_words(rt: HostRuntime) -> Result<(), Fail> {
        let told = bad_line(b"bad line 12 kind 4\n");
        assert_eq!(rt; told, Some(("12", "a word is too many")));
        Ok(())
    }

    #[test]
    fn a_journal_has_no_bad_line(rt: HostRuntime) -> Result<(), Fail> {
        assert_eq!(rt; bad_line(b"host 0\nend\n"), None);
        Ok(())
    }

    #[test]
    fn each_status_of_a_failure_is_told(rt: HostRuntime) -> Result<(), Fail> {
        for status in [2, 4, 5, 7] {
            assert!(rt; failure(Status(status)).is_some(), "status {status}");
        }
        assert_eq!(rt; failure(Status(0)), None);
        assert_eq!(rt; failure(Status(3)), None);
        Ok(())
    }
}
