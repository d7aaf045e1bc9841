ghost use Rattle.std.specs.Prelude.{◌≡◌, ◌<◌, ◌^◌, Some, slice_get};
ghost use Rattle.mid_base.specs.declared.answers.By.{By};
ghost use Rattle.mid_base.specs.declared.answers.TagState.{TagState};
ghost use Rattle.mid_base.specs.declared.entries.Entry.TheVariants.{Owned};
ghost use Rattle.mid_base.specs.declared.names.Attempt.{Attempt};
ghost use Rattle.host_words.specs.Journals.{In, HasCause};
ghost use Rattle.host_words.specs.Words.{claimed_word};
ghost use Rattle.host_words.specs.Views.{armed_with, showing, released_of};
ghost use Rattle.host_words.specs.Leaving.{IsNew, IsShownClaimed};
ghost use Rattle.host_words.specs.Looks.{Looks};
ghost use Rattle.host_words.specs.Seats.{view, turn, tag_count, IsSeatOf, IsSameTable, IsHolding, GoesOn, Answers, IsLost};

use crate::host_table::TAGS;
use crate::plays::{Arms, Claims, Frees, Shows};
use crate::words::{armed_number, claimed_number, read_word};
use crate::{Claim, HostSeat, HostTable, WordSeen};
use mid_base::{Attempt, By, Tag};
use trace_model::Booked;

impl<S: Booked> HostTable<S> {
    /// Claims attempt n under tag t, for its answer or for its expired timer: in one exchange, without waiting and without
    /// memory. It is won exactly where the word says that n is armed, and then the word says that n is claimed; else it is
    /// lost to the word that it met, which stays. It is lost where the seat has seen an owner of n: so a claim for an old
    /// attempt on a tag that was used again is.
    ///
    /// The seat must have seen that n was sent under t and was answered, or that its time was up, after that.
    pub fn claim(&self, seat: &mut HostSeat<S>, t: Tag, n: Attempt, by: By) -> Claim
        requires table { IsSeatOf self.now seat.old }
        requires tag { t.0 < tag_count self.now }
        requires attempt { n.0 < 2 ^ 60 }
        requires cause { HasCause (view seat.old).seen t.0 n by }
        ensures table { IsSameTable seat.old seat.new }
        ensures claim { Answers (view seat.old) t.0 n by result (view seat.new) }
        ensures owned { (b : By) → In (Owned n b) (view seat.old).seen → IsLost result }
    {
        let armed = armed_number(n);
        let claimed = claimed_number(n, by);
        let place = t.0 as usize + TAGS;
        let shared = &self.table.shared;
        let met = shared.compare_exchange::<Claims>(&mut seat.seat, place, armed, claimed);
        if met == armed {
            Claim::Won
        } else {
            Claim::Lost(read_word(met))
        }
    }

    /// Arms a free tag for an attempt whose number is above each that the turn knows of.
    pub fn arm(&self, seat: &mut HostSeat<S>, t: Tag, n: Attempt)
        requires table { IsSeatOf self.now seat.old }
        requires turn { IsHolding seat.old }
        requires tag { t.0 < tag_count self.now }
        requires attempt { n.0 < 2 ^ 60 }
        requires free { slice_get (turn seat.old).hand t.0 ≡ Some TagState.Free }
        requires fresh { IsNew (turn seat.old) n }
        ensures { GoesOn seat.old (armed_with (turn seat.old) t.0 n) seat.new }
    {
        let shared = &self.table.shared;
        shared.swap::<Arms>(&mut seat.seat, t.0 as usize + TAGS, armed_number(n));
    }

    /// Looks at the word of a tag. It is one that the tag's state may have, and a claimed one has its cause in the journal
    /// that the turn found; it stays until it is released in this turn. Where the seat has won the tag's attempt, the
    /// claim is shown, unless a look of this turn showed it before or the turn found its owner.
    pub fn look(&self, seat: &mut HostSeat<S>, t: Tag) -> WordSeen
        requires table { IsSeatOf self.now seat.old }
        requires turn { IsHolding seat.old }
        requires tag { t.0 < tag_count self.now }
        ensures turn { GoesOn seat.old (showing (turn seat.old) t.0 result) seat.new }
        ensures tells { Looks (view seat.old) (turn seat.old) t.0 result }
    {
        let shared = &self.table.shared;
        read_word(shared.load::<Shows>(&mut seat.seat, t.0 as usize + TAGS))
    }

    /// Frees a tag whose claimed word a look of this turn showed.
    pub fn release(&self, seat: &mut HostSeat<S>, t: Tag)
        requires table { IsSeatOf self.now seat.old }
        requires turn { IsHolding seat.old }
        requires tag { t.0 < tag_count self.now }
        requires shown { (n : Attempt) × (by : By) × IsShownClaimed (turn seat.old) t.0 n by }
        ensures { (n : Attempt) (by : By) → IsShownClaimed (turn seat.old) t.0 n by → GoesOn seat.old (released_of (turn seat.old) t.0 (claimed_word n by)) seat.new }
    {
        let shared = &self.table.shared;
        shared.swap::<Frees>(&mut seat.seat, t.0 as usize + TAGS, 0);
    }
}
