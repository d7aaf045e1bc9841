ghost use Rattle.std.specs.Prelude.{◌≡◌, ◌≤◌, ◌+◌, ◌*◌, ◌/◌, ◌++◌, ℕ, List, length, map, All, Ok, None};
ghost use Rattle.std.specs.List.{range_with_len};
ghost use denote.Bor.{Bor};
ghost use Rattle.lun_addr.specs.Grammar.{refusal, list_length, lun_list};
ghost use Rattle.lun_addr.specs.Parts.{ReadsBack, part, list_part, entry_parts};

/// The entries of a whole list are the ranges of eight of the caller's slice, from place 8 on up to 8 and the list length.

#[tactic(auto, using(crate::proofs::Entries::in_the_reply))]
pub fn entries_stand_in_the_reply()
    ensures { (b : Bor (List ℕ)) → refusal b.now ≡ None
        → entry_parts (list_part b) ≡ map (λ k. part b (8 + 8 * k) (16 + 8 * k)) (range_with_len 0 (list_length b.now / 8)) }
{}

/// A list that was written, with anything after it, is read again, and its entries have the numbers that were written.

pub fn written_lists_read_back()
    ensures { (b : Bor (List ℕ)) (luns rest : List ℕ) → All (λ n. n ≤ 16383) luns → length luns ≤ 256 → b.now ≡ lun_list luns ++ rest
        → ReadsBack b luns }
{}
