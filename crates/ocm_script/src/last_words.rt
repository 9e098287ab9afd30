//! The last word of a line, or its last two, each as one of a kind.

ghost use Rattle.std.specs.Prelude.{Some, option_copied};
ghost use Rattle.ocm_script.specs.Gives.{Gives};
ghost use Rattle.ocm_script.specs.Several.{last, last_two};
ghost use Rattle.ocm_script.specs.Words as words;

use crate::faults::LineFault;
use crate::next_words::{next_address, next_name, next_number};
use crate::words::{
    crash_word, digits_word, ended, fresh_word, number_word, overwrite_word, perms_if_word,
    perms_word, word,
};
use ocm_base::{Bytes, and};
use ocm_disk::Crash;
use ocm_types::{Address, Fresh, Name, Perms};
use std::alloc::Global;

/// The last word.
#[tactic(auto, unfolding(crate::specs::Several::last, crate::specs::Words::next))]
fn last_word(rest: Option<&[u8]>) -> Result<&[u8], LineFault>
    ensures { Gives (λ x. x.now) result (last (λ word. Some word) (option_copied rest.entry)) }
{
    let (word, rest) = word(rest)?;
    ended(rest)?;
    Ok(word)
}

/// The last word as what a secret is drawn from.
#[tactic(auto, unfolding(crate::specs::Several::last, crate::specs::Words::next))]
pub fn last_fresh(rest: Option<&[u8]>) -> Result<Fresh, LineFault>
    ensures { Gives (λ x. x) result (last words.fresh_word (option_copied rest.entry)) }
{
    let word = last_word(rest)?;
    fresh_word(word)
}

/// The last word as permissions.
#[tactic(auto, unfolding(crate::specs::Several::last, crate::specs::Words::next))]
fn last_perms(rest: Option<&[u8]>) -> Result<Perms, LineFault>
    ensures { Gives (λ x. x) result (last words.perms_word (option_copied rest.entry)) }
{
    let word = last_word(rest)?;
    perms_word(word)
}

/// The last word as permissions, or `-` for none.
#[tactic(auto, unfolding(crate::specs::Several::last, crate::specs::Words::next))]
fn last_perms_if(rest: Option<&[u8]>) -> Result<Option<Perms>, LineFault>
    ensures { Gives (λ x. x) result (last words.perms_if_word (option_copied rest.entry)) }
{
    let word = last_word(rest)?;
    perms_if_word(word)
}

/// The last word as a number.
#[tactic(auto, unfolding(crate::specs::Several::last, crate::specs::Words::next))]
pub fn last_number(rest: Option<&[u8]>) -> Result<u32, LineFault>
    ensures { Gives (λ x. x) result
        (last (words.number_word words.most_number) (option_copied rest.entry)) }
{
    let word = last_word(rest)?;
    number_word(u32::MAX, word)
}

/// The last word as whether what stands at the target is replaced.
#[tactic(auto, unfolding(crate::specs::Several::last, crate::specs::Words::next))]
pub fn last_overwrite(rest: Option<&[u8]>) -> Result<bool, LineFault>
    ensures { Gives (λ x. x) result (last words.overwrite_word (option_copied rest.entry)) }
{
    let word = last_word(rest)?;
    overwrite_word(word)
}

/// The last word as what a crash leaves.
#[tactic(auto, unfolding(crate::specs::Several::last, crate::specs::Words::next))]
pub fn last_crash(rest: Option<&[u8]>) -> Result<Crash, LineFault>
    ensures { Gives (λ x. x) result (last words.crash_word (option_copied rest.entry)) }
{
    let word = last_word(rest)?;
    crash_word(word)
}

/// The last word as the bytes that digits spell.
#[tactic(auto, unfolding(crate::specs::Several::last, crate::specs::Words::next))]
fn last_digits(alloc: Global, rest: Option<&[u8]>) -> Result<Bytes, LineFault>
    ensures { Gives (λ x. x) result (last words.digits_word (option_copied rest.entry)) }
{
    let word = last_word(rest)?;
    digits_word(alloc, word)
}

/// The last two words as a number and permissions.
#[tactic(auto, unfolding(crate::specs::Several::last_two))]
pub fn last_number_and_perms(rest: Option<&[u8]>) -> Result<(u32, Perms), LineFault>
    ensures { Gives (λ x. x) result
        (last_two (words.number_word words.most_number) words.perms_word (option_copied rest.entry)) }
{
    let (number, rest) = next_number(rest)?;
    let perms = last_perms(rest)?;
    Ok((number, perms))
}

/// The last two words as a number and what a secret is drawn from.
#[tactic(auto, unfolding(crate::specs::Several::last_two))]
pub fn last_number_and_fresh(rest: Option<&[u8]>) -> Result<(u32, Fresh), LineFault>
    ensures { Gives (λ x. x) result
        (last_two (words.number_word words.most_number) words.fresh_word (option_copied rest.entry)) }
{
    let (number, rest) = next_number(rest)?;
    let fresh = last_fresh(rest)?;
    Ok((number, fresh))
}

/// The last two words as numbers.
#[tactic(auto, unfolding(crate::specs::Several::last_two))]
pub fn last_numbers(rest: Option<&[u8]>) -> Result<(u32, u32), LineFault>
    ensures { Gives (λ x. x) result
        (last_two (words.number_word words.most_number) (words.number_word words.most_number)
        (option_copied rest.entry)) }
{
    let (first, rest) = next_number(rest)?;
    let second = last_number(rest)?;
    Ok((first, second))
}

/// The last two words as permissions and what a secret is drawn from.
#[tactic(auto, unfolding(crate::specs::Several::last_two, crate::specs::Words::next))]
pub fn last_perms_and_fresh(rest: Option<&[u8]>) -> Result<(Perms, Fresh), LineFault>
    ensures { Gives (λ x. x) result
        (last_two words.perms_word words.fresh_word (option_copied rest.entry)) }
{
    let (perms, rest) = word(rest)?;
    let perms = perms_word(perms)?;
    let fresh = last_fresh(rest)?;
    Ok((perms, fresh))
}

/// The last two words as an address and permissions, which may be `-` for none.
#[tactic(auto, unfolding(crate::specs::Several::last_two))]
pub fn last_address_and_perms(
    alloc: Global,
    rest: Option<&[u8]>,
) -> Result<(Address, Option<Perms>), LineFault>
    ensures { Gives (λ x. x) result
        (last_two words.address_word words.perms_if_word (option_copied rest.entry)) }
{
    let (address, rest) = next_address(alloc, rest)?;
    and(address, last_perms_if(rest))
}

/// The last two words as a name and what a secret is drawn from.
#[tactic(auto, unfolding(crate::specs::Several::last_two))]
pub fn last_name_and_fresh(alloc: Global, rest: Option<&[u8]>) -> Result<(Name, Fresh), LineFault>
    ensures { Gives (λ x. x) result
        (last_two words.name_word words.fresh_word (option_copied rest.entry)) }
{
    let (name, rest) = next_name(alloc, rest)?;
    and(name, last_fresh(rest))
}

/// The last two words as what a secret is drawn from, and the bytes that digits spell.
#[tactic(auto, unfolding(crate::specs::Several::last_two, crate::specs::Words::next))]
pub fn last_fresh_and_digits(
    alloc: Global,
    rest: Option<&[u8]>,
) -> Result<(Fresh, Bytes), LineFault>
    ensures { Gives (λ x. x) result
        (last_two words.fresh_word words.digits_word (option_copied rest.entry)) }
{
    let (fresh, rest) = word(rest)?;
    let fresh = fresh_word(fresh)?;
    let bytes = last_digits(alloc, rest)?;
    Ok((fresh, bytes))
}
