ghost use Rattle.std.specs.Prelude.{◌≡◌, ◌<◌, ◌≤◌, ◌++◌, [], ◌∷◌, IfOk, IsTrue, MatchOption, OnOk, OnErr, Some, length, replicate, slice_get, slice_set};
ghost use Rattle.std.specs.List.{list_any};
ghost use Rattle.mid_base.specs.declared.answers.TagState.{TagState};
ghost use Rattle.host_words.specs.Words.{claimed_word, Fits};
ghost use Rattle.host_words.specs.Views.{begun, showing};
ghost use Rattle.host_words.specs.Leaving.{MayLeave};
ghost use Rattle.host_tests.specs.Attempts.{number, same_by, is_owner, is_left_to};
ghost use Rattle.host_tests.specs.Desks.{entry_of, begins, ClaimsNone, Sends, Owns, Keeps, Settles, Frees};
ghost use Rattle.host_tests.specs.Entering.{OwnerAdded};

use crate::{Desk, Note};
use host_words::WordSeen;
use mid_base::{Attempt, By, CmdId, Entry, HostSpec, NoMemory, Tag, TagState};
use std::alloc::Global;

impl Note {
    fn entry(self) -> Entry
        ensures { result ≡ entry_of self }
    {
        match self {
            Note::Begun => Entry::EhBegin,
            Note::Ended => Entry::EhEnd,
            Note::Answered(n, answer) => Entry::Ready(n, answer),
            Note::Overdue(n) => Entry::Due(n),
        }
    }
}

impl Desk {
    /// Without entries, with `tags` free tags.
    pub fn new(alloc: Global, about: HostSpec, tags: u16) -> Result<Desk, NoMemory>
        ensures { IfOk result (λ d. (d.entries.items ≡ []) × (d.tags.items ≡ replicate tags TagState.Free)) }
    {
        let Ok(states) = Vec::from_elem(alloc, TagState::Free, tags as usize) else {
            return Err(NoMemory);
        };
        Ok(Desk {
            about,
            entries: Vec::new(alloc),
            tags: states,
            last: 0,
        })
    }

    pub fn entries(&self) -> &[Entry]
        ensures { result.now ≡ self.now.entries.items }
    {
        self.entries.as_slice()
    }

    pub fn tags(&self) -> &[TagState]
        ensures { result.now ≡ self.now.tags.items }
    {
        self.tags.as_slice()
    }

    // Puts an entry behind the others.
    #[tactic(auto, using(crate::proofs::Numbers::below_snoc))]
    fn put(&mut self, entry: Entry, last: u64) -> Result<(), NoMemory>
        requires later { self.old.last ≤ last }
        requires known { number entry ≤ last }
        ensures rest { (self.new.about ≡ self.old.about) × (self.new.tags.items ≡ self.old.tags.items) }
        ensures ok { OnOk result (self.new.entries.items ≡ self.old.entries.items ++ entry ∷ []) }
        ensures err { OnErr result (self.new.entries.items ≡ self.old.entries.items) }
    {
        if self.entries.push(entry).is_err() {
            return Err(NoMemory);
        }
        self.last = last;
        Ok(())
    }

    pub(crate) fn note(&mut self, note: Note) -> Result<(), NoMemory>
        ensures about { self.new.about ≡ self.old.about }
        ensures may { MayLeave (begun self.old.entries.items self.old.tags.items) self.new.entries.items self.new.tags.items }
        ensures ok { OnOk result (self.new.entries.items ≡ self.old.entries.items ++ entry_of note ∷ []) }
    {
        match self.put(note.entry(), self.last) {
            Ok(()) => Ok(()),
            Err(_) => Err(NoMemory),
        }
    }

    fn is_free(&self, t: Tag) -> bool
        ensures { IsTrue result → slice_get self.now.tags.items t.0 ≡ Some TagState.Free }
    {
        match self.tags.get(t.0 as usize) {
            Some(TagState::Free) => true,
            _ => false,
        }
    }

    fn set_tag(&mut self, t: Tag, state: TagState)
        requires { t.0 < length self.old.tags.items }
        ensures rest { (self.new.about ≡ self.old.about) × (self.new.entries.items ≡ self.old.entries.items) }
        ensures set { self.new.tags.items ≡ slice_set self.old.tags.items t.0 state }
    {
        self.tags[t.0 as usize] = state;
    }

    // Sends the next attempt under the tag, where it is free and numbers are left.
    pub(crate) fn send(&mut self, t: Tag) -> Result<Option<Attempt>, NoMemory>
        ensures about { self.new.about ≡ self.old.about }
        ensures sends { Sends self.old t result self.new }
    {
        if self.last >= MOST {
            return Ok(None);
        }
        if !self.is_free(t) {
            return Ok(None);
        }
        let n = Attempt(self.last + 1);
        match self.put(Entry::Sent(CmdId(1), n, t), n.0) {
            Ok(()) => {
                self.set_tag(t, TagState::Armed(n));
                Ok(Some(n))
            }
            Err(_) => Err(NoMemory),
        }
    }

    // Enters the owner of an attempt, unless it stands already.
    fn enter_owner(&mut self, n: Attempt, by: By) -> Result<(), NoMemory>
        ensures rest { (self.new.about ≡ self.old.about) × (self.new.tags.items ≡ self.old.tags.items) }
        ensures ok { OnOk result (OwnerAdded self.old.entries.items n by self.new.entries.items) }
        ensures err { OnErr result (self.new.entries.items ≡ self.old.entries.items) }
    {
        if has_owner(self.entries.as_slice(), n, by) {
            return Ok(());
        }
        self.put(Entry::Owned(n, by), self.last.max(n.0))
    }

    // Enters the owner whom a claimed word names, and leaves the tag to it.
    pub(crate) fn own(&mut self, t: Tag, word: WordSeen) -> Result<Option<(Attempt, By)>, NoMemory>
        requires tag { t.0 < length self.old.tags.items }
        requires fits { (had : TagState) → slice_get self.old.tags.items t.0 ≡ Some had → Fits had word }
        ensures about { self.new.about ≡ self.old.about }
        ensures owns { Owns self.old.entries.items word result self.new.entries.items }
        ensures keeps { Keeps self.old t result self.new }
        ensures may { MayLeave (showing (begins self.old) t.0 word) self.new.entries.items self.new.tags.items }
    {
        let Some((n, by)) = owner_of(word) else {
            return Ok(None);
        };
        match self.enter_owner(n, by) {
            Ok(()) => {
                self.set_tag(t, TagState::Owned(n, by));
                Ok(Some((n, by)))
            }
            Err(_) => Err(NoMemory),
        }
    }

    // Enters the owner whom a claimed word names, and frees the tag.
    pub(crate) fn settle(
        &mut self,
        t: Tag,
        word: WordSeen,
    ) -> Result<Option<(Attempt, By)>, NoMemory>
        requires tag { t.0 < length self.old.tags.items }
        ensures about { self.new.about ≡ self.old.about }
        ensures owns { Owns self.old.entries.items word result self.new.entries.items }
        ensures settles { Settles self.old t word result self.new }
    {
        let Some((n, by)) = owner_of(word) else {
            return Ok(None);
        };
        match self.enter_owner(n, by) {
            Ok(()) => {
                self.set_tag(t, TagState::Free);
                Ok(Some((n, by)))
            }
            Err(_) => Err(NoMemory),
        }
    }

    fn is_left_to(&self, t: Tag, n: Attempt, by: By) -> bool
        ensures { result ≡ is_left_to n by (slice_get self.now.tags.items t.0) }
    {
        match self.tags.get(t.0 as usize) {
            Some(TagState::Owned(m, b)) => m.0 == n.0 && is_by(*b, by),
            _ => false,
        }
    }

    // Frees a tag that was left to the owner of its attempt.
    pub(crate) fn free(&mut self, t: Tag, n: Attempt, by: By) -> bool
        ensures rest { (self.new.about ≡ self.old.about) × (self.new.entries.items ≡ self.old.entries.items) }
        ensures frees { Frees self.old t n by result self.new }
    {
        if !self.is_left_to(t, n, by) {
            return false;
        }
        self.set_tag(t, TagState::Free);
        true
    }
}

fn is_by(a: By, b: By) -> bool
    ensures { result ≡ same_by a b }
{
    match (a, b) {
        (By::Answer, By::Answer) => true,
        (By::Expiry, By::Expiry) => true,
        _ => false,
    }
}

fn gives_owner(entry: &Entry, n: Attempt, by: By) -> bool
    ensures { result ≡ is_owner n by entry.now }
{
    match entry {
        Entry::Owned(m, b) => m.0 == n.0 && is_by(*b, by),
        _ => false,
    }
}

fn has_owner(entries: &[Entry], n: Attempt, by: By) -> bool
    ensures { result ≡ list_any (is_owner n by) entries.now }
{
    entries.iter().any(|entry| gives_owner(entry, n, by))
}

fn owner_of(word: WordSeen) -> Option<(Attempt, By)>
    ensures { MatchOption result (ClaimsNone word) (λ o. word ≡ claimed_word o.0 o.1) }
{
    match word {
        WordSeen::Done(n) => Some((n, By::Answer)),
        WordSeen::Expired(n) => Some((n, By::Expiry)),
        _ => None,
    }
}

// The greatest number of an attempt that is sent: a word of the table holds numbers below 2^60.
const MOST: u64 = 1_000_000;
