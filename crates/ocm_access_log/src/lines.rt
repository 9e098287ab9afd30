ghost use Rattle.std.specs.Prelude.{◌≡◌, None, [], ◌∷◌, MatchResult};
ghost use Rattle.std.specs.List.{slice_split};
ghost use Rattle.ocm_access_log.specs.Gives.{Gives};
ghost use Rattle.ocm_access_log.specs.Lines.{is_space, line_in, line_of};
ghost use Rattle.ocm_access_log.specs.declared.faults.LineFault.TheVariants.{Bad};

use crate::cuts::cut;
use crate::faults::LineFault;
use crate::words::{method_word, number_word, path_word, secret_word, status_word};
use ocm_base::{Bytes, and};
use ocm_entry::Ask;
use std::alloc::Global;

/// A line of a log: what a read was answered.
pub struct LogLine {
    /// How many entries that are no tick were kept when it was answered.
    pub place: u64,
    /// The moment at which it was answered, in whole seconds since the epoch.
    pub moment: u64,
    /// The read: a GET, a HEAD, or a listing.
    pub ask: Ask,
    /// The status of its reply.
    pub status: u16,
}

impl Drop for LogLine {
    fn drop(self) {
        let LogLine {
            place: _,
            moment: _,
            ask: _,
            status: _,
        } = self;
    }
}

/// The words of a line.
#[derive(Clone, Copy)]
struct Words<'a> {
    place: &'a [u8],
    moment: &'a [u8],
    method: &'a [u8],
    secret: &'a [u8],
    path: &'a [u8],
    status: &'a [u8],
}

/// The word before the first space, and what follows that space.
fn next_word(line: &[u8]) -> Result<(&[u8], &[u8]), LineFault>
    ensures { MatchResult result
        (λ parts. slice_split is_space line.now ≡ parts.0.now ∷ slice_split is_space parts.1.now)
        (λ fault. (fault ≡ Bad) × (slice_split is_space line.now ≡ line.now ∷ [])) }
{
    match cut(b' ', line) {
        Some(parts) => Ok(parts),
        None => Err(LineFault::Bad),
    }
}

/// The words of a line, with one space between each two. The last is all that follows the fifth space.
#[tactic(auto, unfolding(crate::specs::Lines::line_of, crate::specs::Lines::line_in))]
fn cut_words(line: &[u8]) -> Result<Words<'_>, LineFault>
    ensures { MatchResult result
        (λ words. line_of line.now ≡ line_in (words.place.now ∷ words.moment.now ∷ words.method.now ∷ words.secret.now ∷ words.path.now ∷ words.status.now ∷ []))
        (λ fault. (fault ≡ Bad) × (line_of line.now ≡ None)) }
{
    let (place, rest) = next_word(line)?;
    let (moment, rest) = next_word(rest)?;
    let (method, rest) = next_word(rest)?;
    let (secret, rest) = next_word(rest)?;
    let (path, status) = next_word(rest)?;
    Ok(Words {
        place,
        moment,
        method,
        secret,
        path,
        status,
    })
}

/// The line that bytes spell, its line feed aside.
#[tactic(auto, unfolding(crate::specs::Lines::line_in))]
pub fn read_line(alloc: Global, bytes: &[u8]) -> Result<LogLine, LineFault>
    ensures { Gives (λ line. line) result (line_of bytes.now) }
{
    let words = cut_words(bytes)?;
    let place = number_word(words.place)?;
    let moment = number_word(words.moment)?;
    let method = method_word(words.method)?;
    let secret = secret_word(alloc, words.secret)?;
    let (secret, path) = and(secret, path_word(alloc, words.path))?;
    let ((secret, path), status) = and((secret, path), status_word(words.status))?;
    let ask = Ask::Dav {
        secret,
        method,
        path,
        body: Bytes::new(alloc),
    };
    Ok(LogLine {
        place,
        moment,
        ask,
        status,
    })
}
