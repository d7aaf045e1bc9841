ghost use Rattle.std.specs.Prelude.{◌≡◌, ◌≤◌, ◌<◌, ◌++◌, [], length, vec_len, vec_capacity, MatchResult, Some, None};
ghost use Rattle.lun_addr.specs.Grammar.{refusal, lun_number};
ghost use Rattle.lun_addr.specs.Parts.{entry_parts};
ghost use Rattle.lun_scan.specs.Numbers.{known, lun_numbers, numbers_in};

use lun_addr::{ListFault, LunList, number};

// The numbers of a list of logical units, in its order, in a vector that has room for 256. An entry whose form isn't known is
// left out.
pub(crate) fn numbers_of(list: &[u8], room: Vec<u16>) -> Result<Vec<u16>, ListFault>
    requires short { length list.now ≤ 2056 }
    requires none { room.items ≡ [] }
    requires room { 256 ≤ vec_capacity room }
    ensures { MatchResult result (λ v. (refusal list.now ≡ None) × (v.items ≡ lun_numbers list.now)) (λ e. refusal list.now ≡ Some e) }
{
    match LunList::read(list) {
        Ok(luns) => {
            let mut numbers = room;
            add_numbers(&luns, &mut numbers);
            Ok(numbers)
        }
        Err(fault) => Err(fault),
    }
}

fn add_numbers(luns: &LunList, numbers: &mut Vec<u16>)
    requires none { numbers.old.items ≡ [] }
    requires few { length (entry_parts luns.now) ≤ 256 }
    requires room { 256 ≤ vec_capacity numbers.old }
    ensures { numbers.new.items ≡ numbers_in (entry_parts luns.now) }
{
    for entry in luns.iter() {
        add_number(entry, numbers);
    }
}

fn add_number(entry: &[u8], numbers: &mut Vec<u16>)
    requires entry { length entry.now ≡ 8 }
    requires room { vec_len numbers.old < vec_capacity numbers.old }
    ensures items { numbers.new.items ≡ numbers.old.items ++ known (lun_number entry.now) }
    ensures capacity { vec_capacity numbers.new ≡ vec_capacity numbers.old }
{
    match number(entry) {
        Ok(lun) => numbers.push_reserved(lun),
        Err(_) => {}
    }
}
