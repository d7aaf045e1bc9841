ghost use Rattle.std.specs.Prelude.{◌≡◌, ◌<◌, ◌^◌, ℕ, Bool, Option, IfSome, List, [], ◌∷◌, true, false};
ghost use denote.Bor.{Bor};
ghost use Rattle.sense_data.specs.Codes.{no_sense_key, recovered_error, not_ready, medium_error, hardware_error, illegal_request, unit_attention, data_protect};
ghost use Rattle.sense_data.specs.Codes.{blank_check, vendor_specific, copy_aborted, aborted_command, volume_overflow, miscompare, completed};
ghost use Rattle.sense_data.specs.Codes.{no_additional_sense, becoming_ready, initializing_command_required, invalid_command_operation_code, block_address_out_of_range, invalid_field_in_cdb, write_protected, reset_occurred};
ghost use Rattle.sense_data.specs.Codes.{unrecovered_read_error, address_mark_not_found, recorded_entity_not_found};
ghost use Rattle.sense_data.specs.Grammar.{HasFields, fixed_sense, descriptor_sense, is_valid_sense, is_fixed, sense_end};
ghost use Rattle.sense_data.specs.Parts.{descriptor_parts, Fill};

/// Fixed sense data of some fields reads back those fields.
#[tactic(auto, using(crate::proofs::Built::fixed_back))]
pub fn fixed_sense_reads_back()
    ensures { (key asc ascq : ℕ) (information : Option ℕ) (deferred : Bool) → key < 16 → IfSome information (λ n. n < 2 ^ 32)
        → HasFields (fixed_sense key asc ascq information deferred) key asc ascq information deferred }
{}

/// So does sense data of the descriptor form.
#[tactic(auto, using(crate::proofs::Built::descriptor_back))]
pub fn descriptor_sense_reads_back()
    ensures { (key asc ascq : ℕ) (information : Option ℕ) (deferred : Bool) → key < 16 → IfSome information (λ n. n < 2 ^ 64)
        → HasFields (descriptor_sense key asc ascq information deferred) key asc ascq information deferred }
{}

/// The descriptors of valid sense data of the descriptor form fill the bytes from the 9th up to where it ends, in order,
/// each right after the one before it, and their bodies are parts of the caller's slice.
#[tactic(auto, using(crate::proofs::Walk::parts_fill))]
pub fn descriptors_fill_the_sense()
    ensures { (b : Bor (List ℕ)) → is_valid_sense b.now ≡ true → is_fixed b.now ≡ false → Fill b (sense_end b.now) 8 (descriptor_parts b) }
{}

/// The sense keys have the numbers of SPC-4, 4.5.6; Ch is reserved.
pub fn sense_keys_have_their_numbers()
    ensures low { no_sense_key ∷ recovered_error ∷ not_ready ∷ medium_error ∷ hardware_error ∷ illegal_request ∷ [] ≡ 0 ∷ 1 ∷ 2 ∷ 3 ∷ 4 ∷ 5 ∷ [] }
    ensures middle { unit_attention ∷ data_protect ∷ blank_check ∷ vendor_specific ∷ [] ≡ 6 ∷ 7 ∷ 8 ∷ 9 ∷ [] }
    ensures high { copy_aborted ∷ aborted_command ∷ volume_overflow ∷ miscompare ∷ completed ∷ [] ≡ 10 ∷ 11 ∷ 13 ∷ 14 ∷ 15 ∷ [] }
{}

/// The additional sense codes have the numbers of SPC-4, 4.5.6.
pub fn additional_sense_codes_have_their_numbers()
    ensures ready { no_additional_sense ∷ becoming_ready ∷ initializing_command_required ∷ [] ≡ (0, 0) ∷ (4, 1) ∷ (4, 2) ∷ [] }
    ensures refused { invalid_command_operation_code ∷ block_address_out_of_range ∷ invalid_field_in_cdb ∷ [] ≡ (32, 0) ∷ (33, 0) ∷ (36, 0) ∷ [] }
    ensures attention { write_protected ∷ reset_occurred ∷ [] ≡ (39, 0) ∷ (41, 0) ∷ [] }
    ensures medium { unrecovered_read_error ∷ address_mark_not_found ∷ recorded_entity_not_found ∷ [] ≡ 17 ∷ 19 ∷ 20 ∷ [] }
{}
