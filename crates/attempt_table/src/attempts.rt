ghost use Rattle.std.specs.Prelude.{◌≡◌, ◌≤◌, [], true, List, IfOk, OnOk, MatchOption, All, Contains, length, slice_set, nat_lt};
ghost use Rattle.std.specs.List.{list_any};
ghost use Rattle.mid_base.specs.declared.host_spec.HostSpec.{HostSpec as SpecSeen};
ghost use Rattle.mid_base.specs.declared.entries.Entry.{Entry as EntrySeen};
ghost use Rattle.trace_model.specs.Attempts.{attempts, answer as answer_seen, answered, late};
ghost use Rattle.trace_model.specs.Steps.{same_owner};
ghost use Rattle.attempt_table.specs.Claims.{waits_for, is_by, IsNextOwned};
ghost use Rattle.trace_model.specs.Tags.{tag_states};
ghost use Rattle.trace_model.specs.Claims.{waiting_claims, IsNextLate};
ghost use Rattle.attempt_table.specs.Rows.{row_of, live_in, keeps_in, kept_at, answer_in};

use crate::Row;
use mid_base::{Answer, Attempt, By, NoMemory, Tag, TagState};
use std::alloc::Global;

/// The attempts of a host: a row for each, the state of each tag, the answers that may still be asked for, the claims, the
/// answers that are to be ignored, and the attempts that have an owner and aren't settled.
#[derive(Drop)]
pub struct Attempts {
    // Attempt n is at n - 1.
    pub(crate) rows: Vec<Row>,
    pub(crate) tags: Vec<TagState>,
    // The answer of the attempt under way that a tag was sent with.
    pub(crate) kept: Vec<Option<Answer>>,
    pub(crate) claims: Vec<(Tag, Attempt, By)>,
    pub(crate) lates: Vec<u64>,
    pub(crate) owned: Vec<u64>,
}

// The tag comes to a state. Where there is no such tag, nothing changes.
pub fn show(tags: &mut Vec<TagState>, tag: Tag, state: TagState)
    ensures { tags.new.items ≡ slice_set tags.old.items tag.0 state }
{
    if let Some(slot) = tags.get_mut(usize::from(tag.0)) {
        *slot = state;
    }
}

// The answer is kept at its tag. Where there is no such tag, nothing changes.
pub fn keep(kept: &mut Vec<Option<Answer>>, tag: Tag, answer: Answer)
    ensures { kept.new.items ≡ slice_set kept.old.items tag.0 (Some answer) }
{
    if let Some(slot) = kept.get_mut(usize::from(tag.0)) {
        *slot = Some(answer);
    }
}

// The least number of a list.
fn least(numbers: &[u64]) -> Option<u64>
    ensures { MatchOption result (numbers.now ≡ []) (λ m. Contains numbers.now m × All (λ x. m ≤ x) numbers.now) }
{
    numbers.iter().copied().min()
}

// Whether the attempt of this row is under way: open, or owned and not settled.
fn is_live(row: Row) -> bool
    ensures { result ≡ live_in (Some row) }
{
    row.out || row.is_owned()
}

// The answer at a tag.
fn kept_at(kept: &[Option<Answer>], tag: Tag) -> Option<Answer>
    ensures { result ≡ kept_at kept.now tag }
{
    match kept.get(usize::from(tag.0)) {
        Some(answer) => *answer,
        None => None,
    }
}

// Whether two claims are by the same side.
fn same_owner(one: By, other: By) -> bool
    ensures { result ≡ same_owner one other }
{
    matches!(
        (one, other),
        (By::Answer, By::Answer) | (By::Expiry, By::Expiry)
    )
}

impl Attempts {
    ghost use Rattle.attempt_table.specs.AttemptsAgree.{AttemptsAgree, HasRoom, IsSame};

    /// The table of an empty journal, for a host of `can_queue` tags.
    pub fn new(alloc: Global, can_queue: u16) -> Result<Attempts, NoMemory>
        ensures { IfOk result (λ t. (s : SpecSeen) → s.can_queue ≡ can_queue → AttemptsAgree s [] t) }
    {
        let count = usize::from(can_queue);
        let mut tags = Vec::with_capacity(alloc, count).map_err(|_| NoMemory)?;
        let mut kept = Vec::with_capacity(alloc, count).map_err(|_| NoMemory)?;
        for i in 0..can_queue {
            tags.push_reserved(TagState::Free);
            kept.push_reserved(None);
        }
        Ok(Attempts {
            rows: Vec::new(alloc),
            tags,
            kept,
            claims: Vec::new(alloc),
            lates: Vec::new(alloc),
            owned: Vec::new(alloc),
        })
    }

    /// Takes room for one attempt, one claim, one late answer and one owned attempt more. Nothing else changes, also where it
    /// fails.
    pub fn reserve(&mut self) -> Result<(), NoMemory>
        ensures room { OnOk result (HasRoom self.new) }
        ensures same { IsSame self.old self.new }
        ensures tells { (s : SpecSeen) (P : List EntrySeen) → AttemptsAgree s P self.old → AttemptsAgree s P self.new }
    {
        self.rows.reserve(1).map_err(|_| NoMemory)?;
        self.claims.reserve(1).map_err(|_| NoMemory)?;
        let more = self.claims.len().saturating_add(1);
        self.lates.reserve(more).map_err(|_| NoMemory)?;
        self.owned.reserve(more).map_err(|_| NoMemory)
    }

    /// The row of an attempt, None where there is none.
    pub fn row(&self, n: Attempt) -> Option<Row>
        ensures { result ≡ row_of n.0 self.now.rows.items }
    {
        if n.0 == 0 {
            return None;
        }
        self.rows.get((n.0 - 1) as usize).copied()
    }

    /// How many attempts there were. Their numbers are those from 1 up to it.
    pub fn count(&self) -> u64
        ensures { result ≡ length self.now.rows.items }
    {
        self.rows.len() as u64
    }

    /// The answer of an attempt that is under way, None where it has none or is under way no longer.
    pub fn answer_of(&self, n: Attempt) -> Option<Answer>
        ensures shown { result ≡ answer_in self.now.kept.items (row_of n.0 self.now.rows.items) }
        ensures knows { (s : SpecSeen) (P : List EntrySeen) → AttemptsAgree s P self.now → keeps_in (row_of n.0 self.now.rows.items) ≡ true → result ≡ answer_seen n.0 P }
    {
        match self.row(n) {
            Some(row) if row.answered && is_live(row) => kept_at(&self.kept, row.tag),
            _ => None,
        }
    }

    /// The state of each tag, in order.
    pub fn tag_states(&self) -> &[TagState]
        ensures shown { result.now ≡ self.now.tags.items }
        ensures states { (s : SpecSeen) (P : List EntrySeen) → AttemptsAgree s P self.now → result.now ≡ tag_states s P }
    {
        &self.tags
    }

    /// The attempts that wait for their owner, each with its tag, in ascending numbers, by the answer before by the expiry.
    pub fn waiting_claims(&self) -> &[(Tag, Attempt, By)]
        ensures shown { result.now ≡ self.now.claims.items }
        ensures waiting { (s : SpecSeen) (P : List EntrySeen) → AttemptsAgree s P self.now → result.now ≡ waiting_claims P }
    {
        &self.claims
    }

    /// Whether an attempt waits for its owner, by its answer or by its expiry.
    pub fn has_claim(&self, by: By) -> bool
        ensures { (s : SpecSeen) (P : List EntrySeen) → AttemptsAgree s P self.now → list_any (waits_for P by) (attempts P) ≡ result }
    {
        self.has_claim_by(by)
    }

    fn has_claim_by(&self, by: By) -> bool
        ensures { list_any (is_by by) self.now.claims.items ≡ result }
    {
        self.claims.iter().any(|claim| same_owner(claim.2, by))
    }

    /// The least attempt with an answer that is to be ignored.
    pub fn next_late(&self) -> Option<Attempt>
        ensures { (s : SpecSeen) (P : List EntrySeen) → AttemptsAgree s P self.now → IsNextLate P result }
    {
        match least(&self.lates) {
            Some(n) => Some(Attempt(n)),
            None => None,
        }
    }

    /// The least attempt that has an owner and isn't settled; None where there is none.
    pub fn next_owned(&self) -> Option<Attempt>
        ensures { (s : SpecSeen) (P : List EntrySeen) → AttemptsAgree s P self.now → IsNextOwned P result }
    {
        match least(&self.owned) {
            Some(n) => Some(Attempt(n)),
            None => None,
        }
    }

    /// Whether an answer is to be ignored.
    pub fn has_late(&self) -> bool
        ensures { (s : SpecSeen) (P : List EntrySeen) → AttemptsAgree s P self.now → list_any (λ n. nat_lt 0 (late n P)) (answered P) ≡ result }
    {
        !self.lates.is_empty()
    }

    /// Whether an answer of this attempt is to be ignored.
    pub fn is_late(&self, n: Attempt) -> bool
        ensures { (s : SpecSeen) (P : List EntrySeen) → AttemptsAgree s P self.now → nat_lt 0 (late n.0 P) ≡ result }
    {
        self.lates.iter().any(|late| *late == n.0)
    }
}
