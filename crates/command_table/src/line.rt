ghost use Rattle.std.specs.Prelude.{◌≡◌, ◌<◌, ◌≤◌, ◌+◌, ◌==◌, ◌&&◌, ◌||◌, ◌-◌, ℕ, not, true, false, OnOk, OnErr, MatchOption};
ghost use Rattle.std.specs.BinaryHeap.{IsHeap, heap_items, heap_len, heap_capacity};
ghost use Rattle.std.specs.List.{list_any};
ghost use Rattle.std.specs.Ordering.{nat_cmp};
ghost use Rattle.std.proofs.Props.{props};

use mid_base::NoMemory;
use std::alloc::Global;
use std::cmp::Reverse;
use std::collections::BinaryHeap;

/// The commands of a device that wait, by their order of taking, and a free place for each of them that is busy.
#[derive(Drop)]
pub struct Line {
    orders: BinaryHeap<Reverse<usize>>,
    // How many are busy. They come back with no memory asked for.
    out: usize,
    ghost least_first: { IsHeap (λ x y. nat_cmp y.0 x.0) (heap_items orders) } by { Prim.hlevel props },
    ghost room: { heap_len orders + out ≤ heap_capacity orders },
}

impl Line {
    ghost use Rattle.command_table.specs.Sets.{stands};

    // The line of a device of which no command was taken.
    pub fn new(alloc: Global) -> Line
        ensures none { (j : ℕ) → stands j result ≡ false }
        ensures out { result.out ≡ 0 }
    {
        Line {
            orders: BinaryHeap::new(alloc),
            out: 0,
        }
    }

    // Which of them was taken earliest.
    pub fn first(&self) -> Option<usize>
        ensures { MatchOption result ((j : ℕ) → stands j self.now ≡ false) (λ o. (stands o self.now ≡ true) × ((k : ℕ) → k < o → stands k self.now ≡ false)) }
    {
        match self.orders.peek() {
            Some(least) => Some(least.0),
            None => None,
        }
    }

    // One more waits. NoMemory changes nothing.
    pub fn join(&mut self, order: usize) -> Result<(), NoMemory>
        ensures ok { OnOk result ((j : ℕ) → stands j self.new ≡ ((order == j) || stands j self.old)) }
        ensures err { OnErr result ((j : ℕ) → stands j self.new ≡ stands j self.old) }
        ensures out { self.new.out ≡ self.old.out }
    {
        self.orders.reserve(self.out + 1).map_err(|_| NoMemory)?;
        push_reserved(&mut self.orders, order);
        Ok(())
    }

    // One that waits is sent, and its place is kept for it.
    pub fn send(&mut self, order: usize)
        ensures left { (j : ℕ) → stands j self.new ≡ (not (order == j) && stands j self.old) }
        ensures out { stands order self.old ≡ true → self.new.out ≡ self.old.out + 1 }
    {
        let count = self.orders.len();
        self.leave(order);
        if self.orders.len() < count {
            self.out += 1;
        }
    }

    // One that is busy waits again.
    pub fn come_back(&mut self, order: usize)
        ensures back { 0 < self.old.out → (j : ℕ) → stands j self.new ≡ ((order == j) || stands j self.old) }
        ensures out { self.new.out ≡ self.old.out - 1 }
    {
        if self.out > 0 {
            self.out -= 1;
            push_reserved(&mut self.orders, order);
        }
    }

    // One that is busy ends.
    pub fn end_out(&mut self)
        ensures same { (j : ℕ) → stands j self.new ≡ stands j self.old }
        ensures out { self.new.out ≡ self.old.out - 1 }
    {
        self.out = self.out.saturating_sub(1);
    }

    // One that waits goes. The first is at hand; for another one all are looked at.
    pub fn leave(&mut self, order: usize)
        ensures left { (j : ℕ) → stands j self.new ≡ (not (order == j) && stands j self.old) }
        ensures fewer { stands order self.old ≡ true → heap_len self.new.orders < heap_len self.old.orders }
        ensures no_more { heap_len self.new.orders ≤ heap_len self.old.orders }
        ensures capacity { heap_capacity self.new.orders ≡ heap_capacity self.old.orders }
        ensures out { self.new.out ≡ self.old.out }
    {
        self.pop_if(order);
        self.drop_all(order);
    }

    // Takes the first off, where it is this one.
    fn pop_if(&mut self, order: usize)
        ensures others { (j : ℕ) → (order == j) ≡ false → stands j self.new ≡ stands j self.old }
        ensures fewer { stands order self.old ≡ true → stands order self.new ≡ false → heap_len self.new.orders < heap_len self.old.orders }
        ensures no_more { heap_len self.new.orders ≤ heap_len self.old.orders }
        ensures capacity { heap_capacity self.new.orders ≡ heap_capacity self.old.orders }
        ensures out { self.new.out ≡ self.old.out }
    {
        let Some(least) = self.orders.peek() else {
            return;
        };
        if least.0 == order {
            self.orders.pop();
        }
    }

    // Takes this one off, wherever it is. None is looked at where all were taken later.
    fn drop_all(&mut self, order: usize)
        ensures left { (j : ℕ) → stands j self.new ≡ (not (order == j) && stands j self.old) }
        ensures fewer { stands order self.old ≡ true → heap_len self.new.orders < heap_len self.old.orders }
        ensures no_more { heap_len self.new.orders ≤ heap_len self.old.orders }
        ensures capacity { heap_capacity self.new.orders ≡ heap_capacity self.old.orders }
        ensures out { self.new.out ≡ self.old.out }
    {
        let Some(least) = self.first() else {
            return;
        };
        if least > order {
            return;
        }
        self.orders.retain(|waiting| waiting.0 != order);
    }
}

// Puts a number into a heap that has a free place.
fn push_reserved(orders: &mut BinaryHeap<Reverse<usize>>, order: usize)
    requires { heap_len orders.old < heap_capacity orders.old }
    ensures held { (j : ℕ) → list_any (λ x. x.0 == j) (heap_items orders.new) ≡ ((order == j) || list_any (λ x. x.0 == j) (heap_items orders.old)) }
    ensures heap_order { IsHeap (λ x y. nat_cmp y.0 x.0) (heap_items orders.old) → IsHeap (λ x y. nat_cmp y.0 x.0) (heap_items orders.new) }
    ensures count { heap_len orders.new ≡ heap_len orders.old + 1 }
    ensures capacity { heap_capacity orders.old ≤ heap_capacity orders.new }
{
    let _ = orders.push(Reverse(order));
}
