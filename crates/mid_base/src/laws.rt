ghost use Rattle.std.specs.Prelude.{◌≡◌, [], ◌∷◌, None, Some, map};
ghost use Rattle.mid_base.specs.Bytes.{cdb_list, sense_list};
ghost use Rattle.mid_base.specs.Callbacks.{abort_bit, device_bit, target_bit, bus_bit, host_bit};
ghost use Rattle.mid_base.specs.Codes.{did_ok, did_no_connect, did_bus_busy, did_time_out, did_bad_target, did_abort, did_parity, did_error, did_reset, did_soft_error, did_imm_retry, did_requeue};
ghost use Rattle.mid_base.specs.Codes.{good, check_condition, condition_met, busy, reservation_conflict, task_set_full, aca_active, task_aborted};
ghost use Rattle.mid_base.specs.Codes.{test_unit_ready, request_sense, inquiry, start_stop_unit, report_luns};
ghost use Rattle.mid_base.specs.Levels.{callback, levels, level_of, number, not_online, fetch_sense, abort, start_unit, reset_device, reset_target, reset_bus, reset_host, give_up, no_level};
ghost use Rattle.mid_base.specs.declared.bytes.CdbBytes.{CdbBytes as Cdb};
ghost use Rattle.mid_base.specs.declared.bytes.SenseBytes.{SenseBytes as Sense};

/// Equal lists of bytes are equal blocks.
pub fn equal_cdb_lists_are_equal()
    ensures { (a b : Cdb) → cdb_list a ≡ cdb_list b → a ≡ b }
{}

/// Equal lists of bytes are equal sense data.
pub fn equal_sense_lists_are_equal()
    ensures { (a b : Sense) → sense_list a ≡ sense_list b → a ≡ b }
{}

/// The host bytes have the numbers of the Linux kernel's `scsi_status.h`.
pub fn host_bytes_have_their_numbers()
    ensures up_to_abort { did_ok ∷ did_no_connect ∷ did_bus_busy ∷ did_time_out ∷ did_bad_target ∷ did_abort ∷ [] ≡ 0 ∷ 1 ∷ 2 ∷ 3 ∷ 4 ∷ 5 ∷ [] }
    ensures from_parity { did_parity ∷ did_error ∷ did_reset ∷ did_soft_error ∷ did_imm_retry ∷ did_requeue ∷ [] ≡ 6 ∷ 7 ∷ 8 ∷ 11 ∷ 12 ∷ 13 ∷ [] }
{}

/// The statuses have the numbers of SAM-5, 5.3.
pub fn statuses_have_their_numbers()
    ensures low { good ∷ check_condition ∷ condition_met ∷ busy ∷ [] ≡ 0 ∷ 2 ∷ 4 ∷ 8 ∷ [] }
    ensures high { reservation_conflict ∷ task_set_full ∷ aca_active ∷ task_aborted ∷ [] ≡ 24 ∷ 40 ∷ 48 ∷ 64 ∷ [] }
{}

/// The commands of recovery and scanning have the operation codes of SPC-4 and SBC-3.
pub fn operation_codes_have_their_numbers()
    ensures { test_unit_ready ∷ request_sense ∷ inquiry ∷ start_stop_unit ∷ report_luns ∷ [] ≡ 0 ∷ 3 ∷ 18 ∷ 27 ∷ 160 ∷ [] }
{}

/// The callbacks of recovery have the bits of `Handlers`.
pub fn callbacks_have_their_bits()
    ensures { abort_bit ∷ device_bit ∷ target_bit ∷ bus_bit ∷ host_bit ∷ [] ≡ 1 ∷ 2 ∷ 4 ∷ 8 ∷ 16 ∷ [] }
{}

/// The levels of recovery are numbered from 0 to 8; levels 2 and 4 to 7 call a callback each.
pub fn levels_have_their_numbers()
    ensures numbers { map number levels ≡ 0 ∷ 1 ∷ 2 ∷ 3 ∷ 4 ∷ 5 ∷ 6 ∷ 7 ∷ 8 ∷ [] }
    ensures low { map level_of (0 ∷ 1 ∷ 2 ∷ 3 ∷ 4 ∷ []) ≡ not_online ∷ fetch_sense ∷ abort ∷ start_unit ∷ reset_device ∷ [] }
    ensures high { map level_of (5 ∷ 6 ∷ 7 ∷ 8 ∷ 9 ∷ []) ≡ reset_target ∷ reset_bus ∷ reset_host ∷ give_up ∷ no_level ∷ [] }
    ensures callbacks { map callback levels ≡ None ∷ None ∷ Some 1 ∷ None ∷ Some 2 ∷ Some 4 ∷ Some 8 ∷ Some 16 ∷ None ∷ [] }
{}
