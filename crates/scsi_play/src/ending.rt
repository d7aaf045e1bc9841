ghost use Rattle.std.specs.Prelude.{◌≡◌, ◌≢◌, true, false};

use play_top::Status;

/// The status of a run that was played with this one, by whether all that it had written went out. Want of memory counts
/// before writing that failed.
pub fn ended(played: Status, is_out: bool) -> Status
    ensures out { is_out ≡ true → result ≡ played }
    ensures memory { played.0 ≡ 7 → result ≡ played }
    ensures cut { is_out ≡ false → played.0 ≢ 7 → result.0 ≡ 5 }
{
    if is_out || played == Status(7) {
        played
    } else {
        Status(5)
    }
}

#[cfg(test)]
mod tests {
    use super::*;
    use std::test::Fail;

    #[test]
    fn what_did_not_go_out_is_told(rt: HostRuntime) -> Result<(), Fail> {
        // The status of the run, whether all went out, and the status that it ends with.
        let table = [
            (0, true, 0),
            (3, true, 3),
            (0, false, 5),
            (3, false, 5),
            (7, false, 7),
        ];
        for (played, is_out, want) in table {
            assert_eq!(rt;
                ended(Status(played), is_out),
                Status(want),
                "after {played}"
            );
        }
        Ok(())
    }
}
