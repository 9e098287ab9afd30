//! How a line is written.
ghost use Rattle.std.specs.Prelude.{◌≡◌, ◌≤◌, ◌++◌, [], ◌∷◌, IfOk, IsTrue, OnOk};
ghost use Rattle.std.specs.Fmt.{decimal};
ghost use Rattle.ocm_path.specs.Escapes.{escape};
ghost use Rattle.ocm_path.specs.Paths.{path_escaped};
ghost use Rattle.ocm_access_log.specs.Lines as lines;
ghost use Rattle.ocm_access_log.specs.Lines.{is_reading, log_line, method_text};

use crate::escapes::escaped;
use itoa::Buffer;
use ocm_base::{Bytes, NoMemory};
use ocm_entry::Method;
use ocm_path::Path;
use ocm_types::Secret;
use std::alloc::Global;

/// How many bytes of memory a line is given at first: most lines have fewer.
const ROOM: usize = 128;

/// Whether a method reads: only such a request stands in a log.
pub fn is_reading(method: Method) -> bool
    ensures { result ≡ is_reading method }
{
    matches!(
        method,
        Method::Get | Method::Head | Method::List0 | Method::List1
    )
}

/// The word of a method.
fn method_text(method: Method) -> &'static [u8]
    requires { IsTrue (is_reading method) }
    ensures { result.now ≡ method_text method }
{
    match method {
        Method::Get => b"get",
        Method::Head => b"head",
        Method::List0 => b"list0",
        Method::List1 => b"list1",
        _ => b"",
    }
}

/// Adds a number, and a byte that ends it.
fn add_number(text: &mut Bytes, number: u64, end: u8) -> Result<(), NoMemory>
    ensures { OnOk result (text.new ≡ text.old ++ decimal number ++ end ∷ []) }
{
    let mut digits = Buffer::new();
    text.add(digits.format(number).as_bytes())?;
    text.add(&[end])
}

/// Adds a word and a space.
fn add_word(text: &mut Bytes, word: &[u8]) -> Result<(), NoMemory>
    ensures { OnOk result (text.new ≡ text.old ++ word.now ++ 32 ∷ []) }
{
    text.add(word)?;
    text.add(b" ")
}

/// Adds a secret and a path, each escaped, and a space after each.
fn add_target(alloc: Global, text: &mut Bytes, secret: &Secret, path: &Path) -> Result<(), NoMemory>
    ensures { OnOk result (text.new ≡ text.old ++ escape secret.now ++ 32 ∷ path_escaped path.now ++ 32 ∷ []) }
{
    let secret = escaped(alloc, secret.as_str())?;
    add_word(text, secret.as_bytes())?;
    drop(secret);
    let path = path.escaped()?;
    add_word(text, path.as_str().as_bytes())
}

/// The line of a read, with its line feed: the place and the moment at which it was answered, in seconds since the epoch,
/// and its status, which has three digits.
pub fn log_line(
    alloc: Global,
    place: u64,
    moment: u64,
    method: Method,
    secret: &Secret,
    path: &Path,
    status: u16,
) -> Result<Bytes, NoMemory>
    requires reads { IsTrue (is_reading method) }
    requires digits { (100 ≤ status) × (status ≤ 999) }
    ensures { IfOk result (λ text. text ≡ log_line place moment method secret.now path.now status) }
{
    let mut text = Bytes::from_vec(Vec::with_capacity(alloc, ROOM)?);
    add_number(&mut text, place, b' ')?;
    add_number(&mut text, moment, b' ')?;
    add_word(&mut text, method_text(method))?;
    add_target(alloc, &mut text, secret, path)?;
    add_number(&mut text, u64::from(status), b'\n')?;
    Ok(text)
}
