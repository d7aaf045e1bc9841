use mid_base::{Entry, Scope};

/// What a call of `Ladder::next` did: one act, with its level, what it was aimed at, whether it succeeded, and the entries
/// that tell it in order; or nothing, since every command is cleared.
#[derive(Drop)]
pub enum Acted {
    Act {
        level: u8,
        scope: Scope,
        ok: bool,
        entries: Vec<Entry>,
    },
    Finished,
}
