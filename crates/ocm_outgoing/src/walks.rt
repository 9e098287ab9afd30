ghost use Rattle.std.specs.Prelude.{◌≡◌, ◌≤◌, ◌<◌, ◌+◌, length, cond, Some, ◌++◌, IfOk, OnOk, IsSome, option_copied, option_map, option_to_list, vec_len, vec_capacity};
ghost use Rattle.std.specs.HashMap.{spare};
ghost use Rattle.ocm_rules.specs.declared.rows.Subject.{Subject};
ghost use Rattle.ocm_rules.specs.Numbers.{at_number};
ghost use Rattle.ocm_rules.specs.State.{changed_at};
ghost use Rattle.ocm_outgoing.specs.declared.rows.Sent.{Sent};
ghost use Rattle.ocm_outgoing.specs.declared.rows.Thread.{Thread};
ghost use Rattle.ocm_outgoing.specs.Threads.{marked, linked, with_link, first_or, begins_at, moved, waiting, IsWalk, IsFound, at_numbers, same_key, thread_of};

use crate::rows::{Sent, Thread};
use ocm_base::{List, NoMemory};
use ocm_rules::{Subject, row_at};
use ocm_types::Numbered;
use std::alloc::Global;
use std::collections::HashMap;

/// Marks the message of this number as settled.
pub fn mark(rows: &mut Vec<Sent>, number: u32)
    requires { IsSome (at_number rows.old.items number) }
    ensures rows { rows.new.items ≡ changed_at number marked rows.old.items }
    ensures room { vec_capacity rows.new ≡ vec_capacity rows.old }
    ensures len { vec_len rows.new ≡ vec_len rows.old }
{
    let row = &mut rows[number as usize - 1];
    row.settled = true;
}

// Writes the number of the next message about the same into the row of this number.
fn link(rows: &mut Vec<Sent>, number: u32, next: u32)
    requires { IsSome (at_number rows.old.items number) }
    ensures rows { rows.new.items ≡ changed_at number (linked next) rows.old.items }
    ensures room { vec_capacity rows.new ≡ vec_capacity rows.old }
    ensures len { vec_len rows.new ≡ vec_len rows.old }
{
    let row = &mut rows[number as usize - 1];
    row.next = next;
}

/// Links the last row of a thread, if there is one, to a new last of this number. The result is the
/// first number of the thread that there is then.
pub fn link_last(rows: &mut Vec<Sent>, older: Option<Thread>, number: u32) -> u32
    requires { (t : Thread) → older ≡ Some t → IsSome (at_number rows.old.items t.last) }
    ensures rows { rows.new.items ≡ with_link older number rows.old.items }
    ensures room { vec_capacity rows.new ≡ vec_capacity rows.old }
    ensures len { vec_len rows.new ≡ vec_len rows.old }
    ensures first { result ≡ first_or number older }
{
    match older {
        Some(thread) => {
            link(rows, thread.last, number);
            thread.first
        }
        None => number,
    }
}

/// Whether a thread begins at this number.
pub fn begins_at(thread: Option<&Thread>, number: u32) -> bool
    ensures { result ≡ begins_at (option_copied thread.entry) number }
{
    match thread {
        Some(thread) => thread.first == number,
        None => false,
    }
}

/// The number of the first unsettled message from this one on, along the links of its thread. None
/// where there is none.
pub fn first_waiting(rows: &[Sent], from: u32) -> Option<u32>
    requires { (s : Subject) × (t : Thread) × IsWalk rows.now s t from }
    ensures { (s : Subject) (t : Thread) → IsWalk rows.now s t from → IsFound (waiting rows.now s) t.first result }
{
    let mut number = from;
    while number != 0 {
        let row = &rows[number as usize - 1];
        if !row.settled {
            return Some(number);
        }
        number = row.next;
    }
    None
}

/// Moves the begin of the thread of a subject to this number, or takes the thread away where nothing
/// of it waits.
pub fn move_first(threads: &mut HashMap<Subject, Thread>, subject: Subject, first: Option<u32>)
    ensures threads { (q : Subject) → thread_of threads.new q ≡ cond (same_key subject q) (moved first (thread_of threads.old subject)) (thread_of threads.old q) }
    ensures room { spare threads.old ≤ spare threads.new }
{
    match first {
        Some(first) => {
            if let Some(thread) = threads.get_mut(&subject) {
                thread.first = first;
            }
        }
        None => {
            let _thread = threads.remove(&subject);
        }
    }
}

// Adds the message of this number once more to a list, if there is one.
fn copy_at(copies: &mut List<Numbered>, rows: &[Sent], number: u32) -> Result<(), NoMemory>
    ensures { OnOk result (copies.new ≡ copies.old ++ option_to_list (option_map (λ (row : Sent). row.numbered) (at_number rows.now number))) }
{
    if let Some(row) = row_at(rows, number) {
        let numbered = row.numbered.copy()?;
        copies.push(numbered)?;
    }
    Ok(())
}

/// The messages of these numbers once more.
pub fn copies(alloc: Global, rows: &[Sent], numbers: &[u32]) -> Result<List<Numbered>, NoMemory>
    ensures { IfOk result (λ copies. copies ≡ at_numbers rows.now numbers.now) }
{
    let mut copies = List::new(alloc);
    for number in numbers {
        copy_at(&mut copies, rows, *number)?;
    }
    Ok(copies)
}
