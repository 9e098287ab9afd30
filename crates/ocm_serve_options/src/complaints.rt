//! What is wrong with words of `serve` that order nothing, for the one line that tells it.
ghost use Rattle.std.specs.Prelude.{◌≡◌, IfOk, IfErr, IfSome};
ghost use Rattle.ocm_serve_options.specs.Complaints as specified;
ghost use Rattle.ocm_serve_options.specs.Complaints.{IsSo};

use crate::option_names::OptionName;
use crate::options::{peers_of, workers_of};
use ocm_base::{NoMemory, decimal_read};
use ocm_types::{AddressFault, Host, Secret, TextFault};
use std::alloc::Global;

/// What is wrong with the words of `serve`.
#[derive(Clone, Copy)]
pub enum Complaint<'a> {
    /// No option is called so.
    Unknown(&'a str),
    /// The word at this place belongs to no option; the first behind `serve` is at 1. It may be a part of a key.
    Stray(u64),
    /// The option has no value.
    NoValue(OptionName),
    /// The option has a value, and takes none.
    FlagValue(OptionName),
    /// The option is there more than once.
    Twice(OptionName),
    /// The option is missing.
    Missing(OptionName),
    /// Both options for the administrator's key are there.
    TwoKeys,
    /// The option does not take this value.
    Value(OptionName, &'a str),
}

/// The options, in the order in which they are looked at.
const ALL: [OptionName; 11] = [
    OptionName::Host,
    OptionName::Disk,
    OptionName::AdminFile,
    OptionName::Admin,
    OptionName::Listen,
    OptionName::Workers,
    OptionName::KeyFile,
    OptionName::Connections,
    OptionName::Log,
    OptionName::Existing,
    OptionName::Peers,
];

/// What a word is.
#[derive(Clone, Copy)]
enum Role<'a> {
    /// An option whose value is the next word.
    Begins(OptionName),
    /// The end of an option of this value. That of a flag is empty.
    Ends(OptionName, &'a str),
}

/// What the words give an option.
#[derive(Clone, Copy)]
enum Given<'a> {
    /// It is not there.
    Nothing,
    /// It is there once, with this value.
    Once(&'a str),
    /// It is there more than once.
    More,
}

/// What a word at a place is, behind one that may have begun an option.
fn role_of<'a>(
    begun: Option<OptionName>,
    word: &'a str,
    place: u64,
) -> Result<Role<'a>, Complaint<'a>>
    ensures so { IfErr result IsSo }
{
    match begun {
        Some(option) if word.len() > 1 && word.starts_with('-') => Err(Complaint::NoValue(option)),
        Some(option) => Ok(Role::Ends(option, word)),
        None => match word.strip_prefix("--") {
            Some(text) => option_role(text),
            None => Err(Complaint::Stray(place)),
        },
    }
}

/// What a word is that names an option behind its two dashes, maybe with `=` and a value.
fn option_role<'a>(text: &'a str) -> Result<Role<'a>, Complaint<'a>>
    ensures so { IfErr result IsSo }
{
    let (name, value) = match text.split_once('=') {
        Some((name, value)) => (name, Some(value)),
        None => (text, None),
    };
    let Some(option) = OptionName::read(name) else {
        return Err(Complaint::Unknown(name));
    };
    match value {
        Some(_) if option.is_flag() => Err(Complaint::FlagValue(option)),
        Some(value) => Ok(Role::Ends(option, value)),
        None if option.is_flag() => Ok(Role::Ends(option, "")),
        None => Ok(Role::Begins(option)),
    }
}

/// The option that a word begins, whose value is the next word.
fn begun_by(role: Role<'_>) -> Option<OptionName> {
    match role {
        Role::Begins(option) => Some(option),
        Role::Ends(..) => None,
    }
}

/// The first word that does not belong where it stands.
fn misplaced<'a>(words: &'a [String]) -> Option<Complaint<'a>>
    ensures { IfSome result IsSo }
{
    let mut begun = None;
    let mut place: u64 = 0;
    for word in words {
        place = place.saturating_add(1);
        match role_of(begun, word.as_str(), place) {
            Ok(role) => begun = begun_by(role),
            Err(complaint) => return Some(complaint),
        }
    }
    match begun {
        Some(option) => Some(Complaint::NoValue(option)),
        None => None,
    }
}

/// What words give an option of which each stands where it belongs.
fn given_to<'a>(words: &'a [String], option: OptionName) -> Given<'a> {
    let mut found = Given::Nothing;
    let mut begun = None;
    for word in words {
        begun = match role_of(begun, word.as_str(), 0) {
            Ok(role) => {
                found = with_role(found, role, option);
                begun_by(role)
            }
            Err(_) => None,
        };
    }
    found
}

/// What words give an option with one more word behind them.
fn with_role<'a>(found: Given<'a>, role: Role<'a>, option: OptionName) -> Given<'a> {
    match role {
        Role::Ends(other, value) if other == option => match found {
            Given::Nothing => Given::Once(value),
            Given::Once(_) | Given::More => Given::More,
        },
        _ => found,
    }
}

/// The first option that is there more than once.
fn repeated<'a>(words: &'a [String]) -> Option<Complaint<'a>>
    ensures { IfSome result IsSo }
{
    for option in &ALL {
        if let Given::More = given_to(words, *option) {
            return Some(Complaint::Twice(*option));
        }
    }
    None
}

/// What is missing, or is there beside what it stands for.
fn missing<'a>(words: &'a [String]) -> Option<Complaint<'a>>
    ensures { IfSome result IsSo }
{
    if let Given::Nothing = given_to(words, OptionName::Host) {
        return Some(Complaint::Missing(OptionName::Host));
    }
    if let Given::Nothing = given_to(words, OptionName::Disk) {
        return Some(Complaint::Missing(OptionName::Disk));
    }
    match (
        given_to(words, OptionName::Admin),
        given_to(words, OptionName::AdminFile),
    ) {
        (Given::Nothing, Given::Nothing) => Some(Complaint::Missing(OptionName::AdminFile)),
        (Given::Nothing, _) | (_, Given::Nothing) => None,
        _ => Some(Complaint::TwoKeys),
    }
}

/// Whether a host is read of a text.
fn is_host(alloc: Global, text: &str) -> Result<bool, NoMemory>
    ensures { IfOk result (λ taken. taken ≡ specified.is_taken OptionName.Host text.now) }
{
    match Host::read(alloc, text) {
        Ok(_) => Ok(true),
        Err(AddressFault::NoMemory) => Err(NoMemory),
        Err(_) => Ok(false),
    }
}

/// Whether a key is read of a text.
fn is_key(alloc: Global, text: &str) -> Result<bool, NoMemory>
    ensures { IfOk result (λ taken. taken ≡ specified.is_taken OptionName.Admin text.now) }
{
    match Secret::read(alloc, text) {
        Ok(_) => Ok(true),
        Err(TextFault::NoMemory) => Err(NoMemory),
        Err(_) => Ok(false),
    }
}

/// Whether a number of workers is read of a text.
fn is_workers(text: &str) -> bool
    ensures { result ≡ specified.is_taken OptionName.Workers text.now }
{
    match decimal_read(text) {
        Some(number) => workers_of(number).is_some(),
        None => false,
    }
}

/// Whether an option takes a value.
fn is_taken(alloc: Global, option: OptionName, text: &str) -> Result<bool, NoMemory>
    ensures { IfOk result (λ taken. taken ≡ specified.is_taken option text.now) }
{
    match option {
        OptionName::Host => is_host(alloc, text),
        OptionName::Admin => is_key(alloc, text),
        OptionName::Workers => Ok(is_workers(text)),
        OptionName::Connections => Ok(decimal_read(text).is_some()),
        OptionName::Peers => Ok(peers_of(text).is_some()),
        _ => Ok(true),
    }
}

/// The complaint about a value of an option, where it does not take that.
fn refused<'a>(alloc: Global, option: OptionName, value: &'a str) -> Option<Complaint<'a>>
    ensures { IfSome result IsSo }
{
    match is_taken(alloc, option, value) {
        Ok(false) => Some(Complaint::Value(option, value)),
        Ok(true) | Err(NoMemory) => None,
    }
}

/// The first option that does not take the value that it is given.
fn misread<'a>(alloc: Global, words: &'a [String]) -> Option<Complaint<'a>>
    ensures { IfSome result IsSo }
{
    for option in &ALL {
        if let Given::Once(value) = given_to(words, *option) {
            let complaint = refused(alloc, *option, value);
            if complaint.is_some() {
                return complaint;
            }
        }
    }
    None
}

/// What is wrong with words whose first is `serve`. None where nothing is found, or there was no memory to test a value.
pub fn complaint_of<'a>(alloc: Global, words: &'a [String]) -> Option<Complaint<'a>>
    ensures { IfSome result IsSo }
{
    let options = match words {
        [_, options @ ..] => options,
        [] => words,
    };
    if let Some(complaint) = misplaced(options) {
        return Some(complaint);
    }
    if let Some(complaint) = repeated(options) {
        return Some(complaint);
    }
    match missing(options) {
        Some(complaint) => Some(complaint),
        None => misread(alloc, options),
    }
}

/// The text that `--host` is among words whose first is `serve`.
pub fn host_given<'a>(words: &'a [String]) -> Option<&'a str> {
    let options = match words {
        [_, options @ ..] => options,
        [] => words,
    };
    match given_to(options, OptionName::Host) {
        Given::Once(text) => Some(text),
        Given::Nothing | Given::More => None,
    }
}
