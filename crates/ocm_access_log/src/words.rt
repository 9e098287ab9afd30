//! The words of a line.
ghost use Rattle.std.specs.Prelude.{◌≡◌, IfOk, bytes_eq};
ghost use Rattle.ocm_path.specs.Escapes.{escape};
ghost use Rattle.ocm_path.specs.Paths.{path_escaped};
ghost use Rattle.ocm_access_log.specs.Lines as lines;
ghost use Rattle.ocm_access_log.specs.Gives.{Gives};

use crate::escapes::{decoded, escaped};
use crate::faults::LineFault;
use ocm_base::{NoMemory, and, decimal_read};
use ocm_entry::Method;
use ocm_path::{Path, PathFault};
use ocm_types::{Secret, TextFault};
use std::alloc::Global;

/// A word that is UTF-8.
fn text_of(word: &[u8]) -> Result<&str, LineFault>
    ensures { Gives (λ text. text.now) result (lines.text_of word.now) }
{
    match str::from_utf8(word) {
        Ok(text) => Ok(text),
        Err(_) => Err(LineFault::Bad),
    }
}

/// A decimal below 2^64, with no leading zero.
#[tactic(auto, unfolding(crate::specs::Lines::number_word))]
pub fn number_word(word: &[u8]) -> Result<u64, LineFault>
    ensures { Gives (λ number. number) result (lines.number_word word.now) }
{
    let text = text_of(word)?;
    match decimal_read(text) {
        Some(number) => Ok(number),
        None => Err(LineFault::Bad),
    }
}

/// Whether the word is this one.
fn is_word(word: &[u8], keyword: &[u8]) -> bool
    ensures { result ≡ bytes_eq word.now keyword.now }
{
    word == keyword
}

/// The method of a read.
#[tactic(auto, unfolding(crate::specs::Lines::method_word))]
pub fn method_word(word: &[u8]) -> Result<Method, LineFault>
    ensures { Gives (λ method. method) result (lines.method_word word.now) }
{
    if is_word(word, b"get") {
        Ok(Method::Get)
    } else if is_word(word, b"head") {
        Ok(Method::Head)
    } else if is_word(word, b"list0") {
        Ok(Method::List0)
    } else if is_word(word, b"list1") {
        Ok(Method::List1)
    } else {
        Err(LineFault::Bad)
    }
}

/// Whether a text is escaped as this word.
fn is_escaped(alloc: Global, plain: &str, word: &[u8]) -> Result<bool, NoMemory>
    ensures { IfOk result (λ same. same ≡ bytes_eq (escape plain.now) word.now) }
{
    let text = escaped(alloc, plain)?;
    Ok(is_word(text.as_bytes(), word))
}

/// A secret that is escaped as this word.
fn only_secret(alloc: Global, secret: Secret, word: &[u8]) -> Result<Secret, LineFault>
    ensures { Gives (λ given. given) result (lines.when (bytes_eq (escape secret) word.now) secret) }
{
    let same = is_escaped(alloc, secret.as_str(), word);
    let (secret, same) = and(secret, same)?;
    if same {
        Ok(secret)
    } else {
        Err(LineFault::Bad)
    }
}

/// A secret, escaped and in no other spelling.
#[tactic(auto, unfolding(crate::specs::Lines::secret_word))]
pub fn secret_word(alloc: Global, word: &[u8]) -> Result<Secret, LineFault>
    ensures { Gives (λ secret. secret) result (lines.secret_word word.now) }
{
    let text = decoded(alloc, word)?;
    match Secret::read(alloc, text.as_str()) {
        Ok(secret) => only_secret(alloc, secret, word),
        Err(TextFault::Length | TextFault::Char) => Err(LineFault::Bad),
        Err(TextFault::NoMemory) => Err(LineFault::NoMemory),
    }
}

/// Whether a path is escaped as this word.
fn is_path_word(path: &Path, word: &[u8]) -> Result<bool, NoMemory>
    ensures { IfOk result (λ same. same ≡ bytes_eq (path_escaped path.now) word.now) }
{
    let text = path.escaped()?;
    Ok(is_word(text.as_str().as_bytes(), word))
}

/// A path that is escaped as this word.
fn only_path(path: Path, word: &[u8]) -> Result<Path, LineFault>
    ensures { Gives (λ given. given) result (lines.when (bytes_eq (path_escaped path) word.now) path) }
{
    let same = is_path_word(&path, word);
    let (path, same) = and(path, same)?;
    if same { Ok(path) } else { Err(LineFault::Bad) }
}

/// A path, escaped and in no other spelling.
#[tactic(auto, unfolding(crate::specs::Lines::path_word))]
pub fn path_word(alloc: Global, word: &[u8]) -> Result<Path, LineFault>
    ensures { Gives (λ path. path) result (lines.path_word word.now) }
{
    let text = text_of(word)?;
    match Path::read(alloc, text) {
        Ok(path) => only_path(path, word),
        Err(PathFault::NoMemory) => Err(LineFault::NoMemory),
        Err(_) => Err(LineFault::Bad),
    }
}

/// Three digits.
#[tactic(auto, unfolding(crate::specs::Lines::status_word))]
pub fn status_word(word: &[u8]) -> Result<u16, LineFault>
    ensures { Gives (λ status. status) result (lines.status_word word.now) }
{
    let [a, b, c] = word else {
        return Err(LineFault::Bad);
    };
    if a.is_ascii_digit() && b.is_ascii_digit() && c.is_ascii_digit() {
        Ok(100 * u16::from(*a - b'0') + 10 * u16::from(*b - b'0') + u16::from(*c - b'0'))
    } else {
        Err(LineFault::Bad)
    }
}
