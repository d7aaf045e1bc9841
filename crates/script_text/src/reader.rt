use crate::draft::Draft;
use crate::present::Present;
use crate::read::{bad, end_line, last_line};
use crate::script::{Bad, ReadEnd, Script};
use mid_base::NoMemory;
use script_words::Kind;
use std::alloc::Global;

/// Takes a script in pieces, which may be cut anywhere, and then says what all of it says.
///
/// It keeps the line that isn't over yet, and what the lines before it say. Contracts see it as what the script will be for
/// each text that may still come (`says`), and by whether an allocation failed (`has_failed`).
#[derive(Drop)]
pub struct Reader {
    draft: Draft,
    present: Present,
    bad: Option<Bad>,
    failed: bool,
}

impl Reader {
    ghost use Rattle.std.specs.Prelude.{◌≡◌, ℕ, List, ◌∷◌, ◌++◌, [], OnOk, OnErr, IsErr, true, false, Err};
    ghost use Rattle.script_text.specs.Script.{script_of};
    ghost use Rattle.script_text.specs.Told.{says, has_failed};
    ghost use Rattle.script_text.specs.Reads.{Answers};

    /// A reader of no bytes so far.
    pub fn new(alloc: Global) -> Reader
        ensures says { (text : List ℕ) → says result text ≡ script_of text }
        ensures failed { has_failed result ≡ false }
    {
        Reader {
            draft: Draft::new(alloc),
            present: Present::new(alloc),
            bad: None,
            failed: false,
        }
    }

    /// Takes the next piece. Where an allocation fails, each later call fails too, and so does `finish`.
    pub fn feed(&mut self, piece: &[u8]) -> Result<(), NoMemory>
        ensures ok { OnOk result ((has_failed self.old ≡ false) × (has_failed self.new ≡ false)) }
        ensures says { OnOk result ((more : List ℕ) → says self.new more ≡ says self.old (piece.now ++ more)) }
        ensures err { OnErr result (has_failed self.new ≡ true) }
        ensures failed { has_failed self.old ≡ true → IsErr result }
    {
        if self.failed {
            return Err(NoMemory);
        }
        for b in piece {
            if self.take_byte(*b).is_err() {
                self.failed = true;
                return Err(NoMemory);
            }
        }
        Ok(())
    }

    /// Takes the next byte. Bytes behind a bad line say nothing.
    #[tactic(auto, using(crate::proofs::Telling::limit_told, crate::proofs::Telling::byte_told, crate::proofs::Telling::newline_told), unfolding(crate::specs::Told::says))]
    fn take_byte(&mut self, b: u8) -> Result<(), NoMemory>
        ensures failed { has_failed self.new ≡ has_failed self.old }
        ensures says { OnOk result ((more : List ℕ) → says self.new more ≡ says self.old (b ∷ more)) }
    {
        if self.bad.is_some() {
            return Ok(());
        }
        if self.present.is_full() {
            self.bad = Some(bad(self.present.before + 1, Kind::Limit));
            return Ok(());
        }
        if b != b'\n' {
            return self.present.push(b);
        }
        self.bad = end_line(&mut self.draft, &self.present.part, self.present.before)?;
        self.present.end();
        Ok(())
    }

    /// What the bytes say that were fed: a script, which can be played (`good_scripts_are_playable`), or the first bad line.
    #[tactic(auto, using(crate::proofs::Telling::end_told), unfolding(crate::specs::Told::says))]
    pub fn finish(self) -> Result<Script, ReadEnd>
        ensures read { Answers (says self []) result }
        ensures failed { has_failed self ≡ true → result ≡ Err ReadEnd.NoMemory }
    {
        if self.failed {
            return Err(ReadEnd::NoMemory);
        }
        if let Some(bad) = self.bad {
            return Err(ReadEnd::Bad(bad));
        }
        last_line(self.draft, &self.present.part, self.present.before)
    }
}
