ghost use Rattle.std.specs.Prelude.{◌≡◌, ◌<◌, ℕ, ◌∷◌, [], Some, reverse, take};
ghost use Rattle.mid_base.specs.Past.{sent_for};
ghost use Rattle.mid_base.specs.declared.answers.By.TheVariants.{Answer, Expiry};
ghost use Rattle.mid_base.specs.declared.answers.TagState.TheVariants.{Armed as TagArmed, Owned as TagOwned};
ghost use Rattle.mid_base.specs.declared.entries.Entry.TheVariants.{Sent, Owned};
ghost use Rattle.mid_base.specs.declared.names.CmdId.{CmdId};
ghost use Rattle.mid_base.specs.declared.names.Tag.{Tag};
ghost use Rattle.trace_model.specs.Attempts.{owner};
ghost use Rattle.trace_model.specs.Claims.{tag_for, waiting_claims};
ghost use Rattle.trace_model.specs.Legal.{LegalByPlaces};
ghost use Rattle.trace_model.specs.Tags.{tag_states};
ghost use Rattle.host_words.specs.Journals.{In, HasCause};
ghost use Rattle.owner_laws.specs.Numbers.{IsNumbered, WasSent};
ghost use Rattle.owner_laws.specs.Shown.{ShownUnder};
ghost use Rattle.owner_laws.specs.Small.{attempt, small, small_spec, under};

use crate::laws::{
    attempts_are_numbered_in_turn, looking_back_turns_a_journal_round,
    no_two_tags_show_one_attempt, owned_attempts_were_sent, sent_tags_are_the_hosts,
    waiting_claims_have_causes, words_of_attempts_are_entries,
};

/// The rules allow the journal. At its end attempt 1 may be given to its expired timer.
pub fn it_is_legal()
    ensures legal { LegalByPlaces small_spec small }
    ensures tags { tag_states small_spec (reverse small) ≡ TagArmed (attempt 1) ∷ TagOwned (attempt 2) Answer ∷ [] }
    ensures claims { waiting_claims (reverse small) ≡ (under 0, attempt 1, Expiry) ∷ [] }
{}

/// The owner of attempt 2 stands in it, whichever way it is read.
pub fn its_owner_stands_both_ways()
    ensures { In (Owned (attempt 2) Answer) (reverse small) }
{
    looking_back_turns_a_journal_round();
}

/// Attempt 2 was sent under tag 1 for command 2, and belongs to its answer.
pub fn its_words_are_its_entries()
    ensures tag { tag_for 2 (reverse small) ≡ under 1 }
    ensures command { sent_for 2 (reverse small) ≡ 2 }
    ensures owner { owner 2 (reverse small) ≡ Some Answer }
{
    it_is_legal();
    words_of_attempts_are_entries();
}

/// It gave out the numbers 1 and 2.
pub fn its_attempts_are_1_and_2()
    ensures second { WasSent small (attempt 2) }
    ensures no_third { WasSent small (attempt 3) → ⊥ }
{
    it_is_legal();
    attempts_are_numbered_in_turn();
}

/// Whatever command attempt 2 was sent for, and under whatever tag: it is one of two tags.
pub fn its_tags_are_the_hosts()
    ensures { (c : CmdId) (t : Tag) → In (Sent c (attempt 2) t) small → t.0 < 2 }
{
    it_is_legal();
    sent_tags_are_the_hosts();
}

/// Attempt 2 was sent before it was owned.
pub fn its_owned_attempt_was_sent()
    ensures before { WasSent (take 6 small) (attempt 2) }
    ensures numbered { IsNumbered small (attempt 2) }
{
    it_is_legal();
    owned_attempts_were_sent();
}

/// No tag but 1 shows attempt 2.
pub fn its_tag_1_alone_shows_attempt_2()
    ensures { (t : ℕ) → ShownUnder small_spec small t (attempt 2) → t ≡ 1 }
{
    it_is_legal();
    no_two_tags_show_one_attempt();
}

/// The claim of attempt 1 by its expired timer has its cause.
pub fn its_waiting_claim_has_its_cause()
    ensures { HasCause small 0 (attempt 1) Expiry }
{
    it_is_legal();
    waiting_claims_have_causes();
}
