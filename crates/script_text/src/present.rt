ghost use Rattle.std.specs.Prelude.{◌≡◌, ◌+◌, ◌<◌, ◌++◌, ◌==◌, ◌∷◌, [], OnOk, false};
ghost use Rattle.script_words.specs.Pieces.{is_newline};
ghost use Rattle.script_text.specs.Part.{IsPart};

use mid_base::NoMemory;
use std::alloc::Global;

/// The longest script, in bytes.
const LONGEST: u64 = 16_777_216;

/// The line that isn't over yet: the part of it that was read, how many lines came before it, and how many bytes were read
/// in all.
#[derive(Drop)]
pub struct Present {
    pub part: Vec<u8>,
    pub before: u64,
    pub count: u64,
    ghost kept: { IsPart part.items before count },
}

impl Present {
    pub fn new(alloc: Global) -> Present
        ensures part { result.part.items ≡ [] }
        ensures before { result.before ≡ 0 }
        ensures count { result.count ≡ 0 }
    {
        Present {
            part: Vec::new(alloc),
            before: 0,
            count: 0,
        }
    }

    /// Whether the next byte is behind the longest script.
    pub fn is_full(&self) -> bool
        ensures { result ≡ (self.now.count == 16777216) }
    {
        self.count == LONGEST
    }

    /// Takes a byte that isn't a newline.
    #[tactic(auto, using(crate::proofs::Telling::one_more_within))]
    pub fn push(&mut self, b: u8) -> Result<(), NoMemory>
        requires room { self.old.count < 16777216 }
        requires inside { is_newline b ≡ false }
        ensures part { OnOk result (self.new.part.items ≡ self.old.part.items ++ b ∷ []) }
        ensures before { OnOk result (self.new.before ≡ self.old.before) }
        ensures count { OnOk result (self.new.count ≡ self.old.count + 1) }
    {
        match self.part.push(b) {
            Ok(()) => {
                self.count += 1;
                Ok(())
            }
            Err(_) => Err(NoMemory),
        }
    }

    /// Takes a newline, behind which the next line begins.
    pub fn end(&mut self)
        requires { self.old.count < 16777216 }
        ensures part { self.new.part.items ≡ [] }
        ensures before { self.new.before ≡ self.old.before + 1 }
        ensures count { self.new.count ≡ self.old.count + 1 }
    {
        self.part.clear();
        self.before += 1;
        self.count += 1;
    }
}
