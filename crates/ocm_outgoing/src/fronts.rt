//! The numbers at which threads begin, in order.
ghost use Rattle.std.specs.Prelude.{◌≡◌, ◌≤◌, ◌<◌, ◌+◌, ◌-◌, ℕ, length, get_or, nat_eq, cond, is_none, vec_len, vec_capacity};
ghost use Rattle.std.specs.Option.{option_map_or};
ghost use Rattle.std.specs.List.Sorted.{IsNonDecreasing};
ghost use Rattle.ocm_outgoing.specs.Threads.{times};

use crate::rows::Thread;

// How many of these numbers are below this one.
fn place_of(fronts: &[u32], number: u32) -> usize
    requires { IsNonDecreasing fronts.now }
    ensures within { result ≤ length fronts.now }
    ensures below { (k d : ℕ) → k < result → get_or fronts.now k d < number }
    ensures behind { (k d : ℕ) → result ≤ k → k < length fronts.now → number ≤ get_or fronts.now k d }
{
    fronts.partition_point(|front| *front < number)
}

// Puts a number at its place.
fn put(fronts: &mut Vec<u32>, number: u32)
    requires rising { IsNonDecreasing fronts.old.items }
    requires room { vec_len fronts.old < vec_capacity fronts.old }
    ensures times { (k : ℕ) → times k fronts.new.items ≡ times k fronts.old.items + cond (nat_eq k number) 1 0 }
    ensures rising { IsNonDecreasing fronts.new.items }
    ensures len { vec_len fronts.new ≡ vec_len fronts.old + 1 }
    ensures capacity { vec_capacity fronts.old ≤ vec_capacity fronts.new }
{
    let place = place_of(fronts, number);
    fronts.insert(place, number).unwrap();
}

// Takes a number away.
fn take(fronts: &mut Vec<u32>, number: u32)
    requires rising { IsNonDecreasing fronts.old.items }
    requires there { 0 < times number fronts.old.items }
    ensures times { (k : ℕ) → times k fronts.new.items + cond (nat_eq k number) 1 0 ≡ times k fronts.old.items }
    ensures rising { IsNonDecreasing fronts.new.items }
    ensures len { vec_len fronts.new + 1 ≡ vec_len fronts.old }
    ensures capacity { vec_capacity fronts.new ≡ vec_capacity fronts.old }
{
    let place = place_of(fronts, number);
    let _number = fronts.remove(place);
}

/// Puts the number of a new message at its place, where no older thread goes on with it. It takes no
/// memory.
pub fn begin(fronts: &mut Vec<u32>, older: Option<Thread>, number: u32)
    requires rising { IsNonDecreasing fronts.old.items }
    requires room { vec_len fronts.old < vec_capacity fronts.old }
    ensures times { (k : ℕ) → times k fronts.new.items ≡ times k fronts.old.items + cond (is_none older) (cond (nat_eq k number) 1 0) 0 }
    ensures rising { IsNonDecreasing fronts.new.items }
    ensures len { vec_len fronts.new ≤ vec_len fronts.old + 1 }
    ensures capacity { vec_capacity fronts.old ≤ vec_capacity fronts.new }
{
    if older.is_none() {
        put(fronts, number);
    }
}

/// Takes a number away, and puts another at its place, if there is one. It takes no memory.
pub fn go_on(fronts: &mut Vec<u32>, from: u32, to: Option<u32>)
    requires rising { IsNonDecreasing fronts.old.items }
    requires there { 0 < times from fronts.old.items }
    ensures times { (k : ℕ) → times k fronts.new.items + cond (nat_eq k from) 1 0 ≡ times k fronts.old.items + option_map_or (λ j. cond (nat_eq k j) 1 0) to 0 }
    ensures rising { IsNonDecreasing fronts.new.items }
    ensures len { vec_len fronts.new ≤ vec_len fronts.old }
    ensures capacity { vec_capacity fronts.old ≤ vec_capacity fronts.new }
{
    take(fronts, from);
    if let Some(number) = to {
        put(fronts, number);
    }
}
