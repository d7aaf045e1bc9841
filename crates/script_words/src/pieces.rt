ghost use Rattle.std.specs.Prelude.{◌≡◌, ◌==◌, ◌≤◌, length, take_while, not, drop, position};
ghost use Rattle.std.specs.Iterator.{YieldsFirstRef, item_count};
ghost use Rattle.script_words.specs.Pieces.{words, parts, parts_left, is_blank};

fn after_first(s: &[u8]) -> &[u8]
    ensures { result.now ≡ drop 1 s.now }
{
    match s {
        [_, rest @ ..] => rest,
        [] => s,
    }
}

/// The words that are left of a line. Spaces, tabs and carriage returns part them.
#[derive(Drop)]
pub struct Words<'a> {
    pub rest: &'a [u8],
}

fn is_blank(b: u8) -> bool
    ensures { result ≡ is_blank b }
{
    b == b' ' || b == b'\t' || b == b'\r'
}

fn blank_len(s: &[u8]) -> usize
    ensures { result ≡ length (take_while is_blank s.now) }
{
    s.iter().take_while(|b| is_blank(**b)).count()
}

fn word_len(s: &[u8]) -> usize
    ensures { result ≡ length (take_while (λ b. not (is_blank b)) s.now) }
{
    s.iter().take_while(|b| !is_blank(**b)).count()
}

impl<'a> Iterator for Words<'a> {
    type Item = &'a [u8];

    ghost next_gives = { YieldsFirstRef (λ s. words s.rest.now) };

    ghost remaining = { item_count (λ s. words s.rest.now) };

    #[tactic(auto, using(crate::proofs::Cuts::words_cut, crate::proofs::Cuts::words_end, crate::proofs::Cuts::blanks_within))]
    fn next(&mut self) -> Option<&'a [u8]> {
        let skipped = blank_len(self.rest);
        let (_, rest) = self.rest.split_at(skipped);
        let n = word_len(rest);
        if n == 0 {
            self.rest = &[];
            return None;
        }
        let (word, rest) = rest.split_at(n);
        self.rest = rest;
        Some(word)
    }
}

/// The parts that are left of a text between its bytes `separator`. A text without that byte is one part.
#[derive(Drop)]
pub struct Parts<'a> {
    pub rest: Option<&'a [u8]>,
    pub separator: u8,
}

fn part_len(s: &[u8], separator: u8) -> usize
    ensures { result ≡ length (take_while (λ b. not (b == separator)) s.now) }
{
    s.iter().take_while(|b| **b != separator).count()
}

impl<'a> Iterator for Parts<'a> {
    type Item = &'a [u8];

    ghost next_gives = { YieldsFirstRef (λ s. parts_left s.separator s.rest) };

    ghost remaining = { item_count (λ s. parts_left s.separator s.rest) };

    #[tactic(auto, using(crate::proofs::Cuts::parts_cut, crate::proofs::Cuts::parts_end))]
    fn next(&mut self) -> Option<&'a [u8]> {
        let rest = self.rest?;
        let n = part_len(rest, self.separator);
        if n == rest.len() {
            self.rest = None;
            return Some(rest);
        }
        let (part, others) = rest.split_at(n);
        self.rest = Some(after_first(others));
        Some(part)
    }
}
