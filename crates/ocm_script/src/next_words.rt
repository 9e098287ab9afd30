//! The next word of a line, as one of a kind, and what follows it.

ghost use Rattle.std.specs.Prelude.{◌&&◌, IfOk, IsTrue, option_copied};
ghost use Rattle.ocm_entry.specs.Proper.{is_short};
ghost use Rattle.ocm_script.specs.Several.{next_two};
ghost use Rattle.ocm_script.specs.Words as words;
ghost use Rattle.ocm_script.specs.Gives.{Gives};

use crate::faults::LineFault;
use crate::words::{
    address_word, known, name_word, new_host, number_word, path_word, secret_word, word,
};
use ocm_base::and;
use ocm_path::Path;
use ocm_types::{Address, Host, Name, Secret};
use std::alloc::Global;

/// The next word as a host that is named before.
#[tactic(auto, unfolding(crate::specs::Words::next))]
pub fn next_host<'a>(
    named: &[Host],
    rest: Option<&'a [u8]>,
) -> Result<(Host, Option<&'a [u8]>), LineFault>
    ensures { Gives (λ x. (x.0, option_copied x.1)) result
        (words.next (words.known named.now) (option_copied rest.entry)) }
{
    let (word, rest) = word(rest)?;
    let host = known(named, word)?;
    Ok((host, rest))
}

/// The next word as a host that is not named before.
#[tactic(auto, unfolding(crate::specs::Words::next))]
pub fn next_new_host<'a>(
    alloc: Global,
    named: &[Host],
    rest: Option<&'a [u8]>,
) -> Result<(Host, Option<&'a [u8]>), LineFault>
    ensures { Gives (λ x. (x.0, option_copied x.1)) result
        (words.next (words.new_host named.now) (option_copied rest.entry)) }
{
    let (word, rest) = word(rest)?;
    let host = new_host(alloc, named, word)?;
    Ok((host, rest))
}

/// The next word as a user's name.
#[tactic(auto, unfolding(crate::specs::Words::next))]
pub fn next_name(alloc: Global, rest: Option<&[u8]>) -> Result<(Name, Option<&[u8]>), LineFault>
    ensures { Gives (λ x. (x.0, option_copied x.1)) result
        (words.next words.name_word (option_copied rest.entry)) }
{
    let (word, rest) = word(rest)?;
    let name = name_word(alloc, word)?;
    Ok((name, rest))
}

/// The next word as a secret or a key.
#[tactic(auto, unfolding(crate::specs::Words::next))]
fn next_secret(alloc: Global, rest: Option<&[u8]>) -> Result<(Secret, Option<&[u8]>), LineFault>
    ensures { Gives (λ x. (x.0, option_copied x.1)) result
        (words.next words.secret_word (option_copied rest.entry)) }
{
    let (word, rest) = word(rest)?;
    let secret = secret_word(alloc, word)?;
    Ok((secret, rest))
}

/// The next two words as a host that is named before, and a secret or a key.
#[tactic(auto, unfolding(crate::specs::Several::next_two))]
pub fn next_holder<'a>(
    alloc: Global,
    named: &[Host],
    rest: Option<&'a [u8]>,
) -> Result<((Host, Secret), Option<&'a [u8]>), LineFault>
    ensures { Gives (λ x. (x.0, option_copied x.1)) result
        (next_two (words.known named.now) words.secret_word (option_copied rest.entry)) }
{
    let (host, rest) = next_host(named, rest)?;
    let (host, (secret, rest)) = and(host, next_secret(alloc, rest))?;
    Ok(((host, secret), rest))
}

/// The next word as a number.
#[tactic(auto, unfolding(crate::specs::Words::next))]
pub fn next_number(rest: Option<&[u8]>) -> Result<(u32, Option<&[u8]>), LineFault>
    ensures { Gives (λ x. (x.0, option_copied x.1)) result
        (words.next (words.number_word words.most_number) (option_copied rest.entry)) }
{
    let (word, rest) = word(rest)?;
    let number = number_word(u32::MAX, word)?;
    Ok((number, rest))
}

/// The next word as a path.
#[tactic(auto, unfolding(crate::specs::Words::next))]
pub fn next_path(alloc: Global, rest: Option<&[u8]>) -> Result<(Path, Option<&[u8]>), LineFault>
    ensures exact { Gives (λ x. (x.0, option_copied x.1)) result
        (words.next words.path_word (option_copied rest.entry)) }
    ensures short { IfOk result (λ x. IsTrue (is_short x.0)) }
{
    let (word, rest) = word(rest)?;
    let path = path_word(alloc, word)?;
    Ok((path, rest))
}

/// The next word as an address.
#[tactic(auto, unfolding(crate::specs::Words::next))]
pub fn next_address(
    alloc: Global,
    rest: Option<&[u8]>,
) -> Result<(Address, Option<&[u8]>), LineFault>
    ensures { Gives (λ x. (x.0, option_copied x.1)) result
        (words.next words.address_word (option_copied rest.entry)) }
{
    let (word, rest) = word(rest)?;
    let address = address_word(alloc, word)?;
    Ok((address, rest))
}

/// The next two words as a path and an address.
#[tactic(auto, unfolding(crate::specs::Several::next_two))]
pub fn next_path_and_address(
    alloc: Global,
    rest: Option<&[u8]>,
) -> Result<((Path, Address), Option<&[u8]>), LineFault>
    ensures exact { Gives (λ x. (x.0, option_copied x.1)) result
        (next_two words.path_word words.address_word (option_copied rest.entry)) }
    ensures short { IfOk result (λ x. IsTrue (is_short x.0.0)) }
{
    let (path, rest) = next_path(alloc, rest)?;
    let (path, (address, rest)) = and(path, next_address(alloc, rest))?;
    Ok(((path, address), rest))
}

/// The next two words as paths.
#[tactic(auto, unfolding(crate::specs::Several::next_two))]
pub fn next_paths(
    alloc: Global,
    rest: Option<&[u8]>,
) -> Result<((Path, Path), Option<&[u8]>), LineFault>
    ensures exact { Gives (λ x. (x.0, option_copied x.1)) result
        (next_two words.path_word words.path_word (option_copied rest.entry)) }
    ensures short { IfOk result (λ x. IsTrue (is_short x.0.0 && is_short x.0.1)) }
{
    let (from, rest) = next_path(alloc, rest)?;
    let (from, (to, rest)) = and(from, next_path(alloc, rest))?;
    Ok(((from, to), rest))
}
