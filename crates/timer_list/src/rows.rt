ghost use Rattle.std.specs.Prelude.{◌≡◌, ◌≤◌, ◌<◌, ◌+◌, None, Some, vec_len, vec_capacity, length, slice_index_or, MatchOption};
ghost use Rattle.std.specs.List.{insert};
ghost use Rattle.mid_base.specs.declared.names.Attempt.{Attempt};
ghost use Rattle.mid_base.specs.declared.names.Tick.{Tick};
ghost use Rattle.timer_list.specs.Timers.{deadline_of, IsFirstOf};
ghost use Rattle.timer_list.specs.Orders.{is_lower, is_earlier, IsRow, IsPlace, IsAt};

use mid_base::{Attempt, Tick};

// The place of an attempt's timer in a row by number, None where it has none.
pub fn find(row: &[(Attempt, Tick)], n: Attempt) -> Option<usize>
    requires { IsRow is_lower row.now }
    ensures { MatchOption result (deadline_of n.0 row.now ≡ None) (λ place. IsAt n.0 row.now place) }
{
    let place = place_by_number(row, (n, Tick(0)));
    if place < row.len() && row[place].0 == n {
        return Some(place);
    }
    None
}

// Where a timer stands in a row by number, or would stand.
pub fn place_by_number(row: &[(Attempt, Tick)], timer: (Attempt, Tick)) -> usize
    requires { IsRow is_lower row.now }
    ensures { IsPlace is_lower timer row.now result }
{
    row.partition_point(|known| is_lower(*known, timer))
}

// Where a timer stands in a row by deadline, or would stand.
pub fn place_by_deadline(row: &[(Attempt, Tick)], timer: (Attempt, Tick)) -> usize
    requires { IsRow is_earlier row.now }
    ensures { IsPlace is_earlier timer row.now result }
{
    row.partition_point(|known| is_earlier(*known, timer))
}

// Puts a timer at a place of a row, which has room for it.
pub fn put(row: &mut Vec<(Attempt, Tick)>, place: usize, timer: (Attempt, Tick))
    requires place { place ≤ vec_len row.old }
    requires room { vec_len row.old < vec_capacity row.old }
    ensures items { row.new.items ≡ insert row.old.items place timer }
    ensures len { vec_len row.new ≡ vec_len row.old + 1 }
    ensures capacity { vec_capacity row.old ≤ vec_capacity row.new }
{
    let Ok(()) = row.insert(place, timer) else {
        unreachable!();
    };
}

// The first timer of a row by deadline, None where its deadline is after `now` or there is none.
pub fn first_by(row: &[(Attempt, Tick)], now: Tick) -> Option<(Attempt, Tick)>
    requires { IsRow is_earlier row.now }
    ensures { IsFirstOf row.now now.0 result }
{
    let first = *row.first()?;
    if first.1 > now {
        return None;
    }
    Some(first)
}

fn is_lower(one: (Attempt, Tick), other: (Attempt, Tick)) -> bool
    ensures { result ≡ is_lower one other }
{
    one.0.0 < other.0.0
}

fn is_earlier(one: (Attempt, Tick), other: (Attempt, Tick)) -> bool
    ensures { result ≡ is_earlier one other }
{
    one.1.0 < other.1.0 || one.1.0 == other.1.0 && one.0.0 < other.0.0
}
