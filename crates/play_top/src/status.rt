/// The exit status of a run.
///
/// | status | comes |
/// |---|---|
/// | 0 | the script was played and its journals written; if it ends with `end drain`, each host is drained. Or a script was made and played, and its summary written |
/// | 2 | the words of the command line aren't known; `usage` was written |
/// | 3 | the script is bad; `bad line L kind K` was written |
/// | 4 | the source failed; nothing was written |
/// | 5 | the sink failed; a front of the text was written |
/// | 6 | as 0, but the rounds that the script may take are used up with a host that isn't drained |
/// | 7 | memory ran out; a front of the text was written |
#[derive(Clone, Copy, PartialEq, Eq, Debug)]
pub struct Status(pub u8);
