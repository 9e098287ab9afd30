ghost use Rattle.std.specs.Prelude.{◌≡◌, ◌≢◌, [], ◌++◌, ◌≤◌, length, drop, Some, None, Ok, Err, IfOk, IfErr, IsTrue, option_copied, string_bytes};
ghost use Rattle.ocm_limits.specs.Limits.{most_asked_path_bytes, most_path_bytes};
ghost use Rattle.ocm_path.specs.Paths.{parent, is_root, last, is_above, path_text, joined_escaped, path_escaped, is_path, path_below, path_of, path_given};
ghost use Rattle.ocm_path.specs.PathTexts.{below_slash, path_with_text};

use crate::faults::PathFault;
use crate::reading::{own_segments, read_segments, without_last_slash};
use crate::segments::{add_copies, behind, joined, joined_escaped, joined_len};
use ocm_limits::MOST_ASKED_PATH_BYTES;
use ocm_texts::{List, NoMemory, Text};
use std::alloc::Global;
use std::hash::{Hash, Hasher};
use std::marker::Model;

/// A path below a user's or a share's root: its segments, none for the root.
///
/// Each segment is a text of 1 to 255 bytes, neither `.` nor `..`, with no `/` and no control
/// character of ASCII. The path's text has at most 2,048 bytes.
#[derive(Debug, PartialEq, Eq)]
pub struct Path {
    segments: List<Text>,
}

impl Drop for Path {
    fn drop(self) {
        let Path { segments: _ } = self;
    }
}

impl Model for Path {
    ghost use Rattle.std.specs.Prelude.{List, ℕ, IsTrue};
    ghost use Rattle.ocm_path.specs.Paths.{is_path};

    ghost Value = { List (List ℕ) };

    ghost view = { λ path. path.segments };

    ghost invariant = { λ path. IsTrue (is_path path.segments) };

    ghost inverse = { λ segments. record { segments = segments } };
}

impl Path {
    /// The root.
    pub fn root(alloc: Global) -> Path
        ensures { result ≡ [] }
    {
        Path {
            segments: List::new(alloc),
        }
    }

    /// Reads a path as it stands in a URL: nothing or `/` for the root, else segments that are
    /// percent-encoded (RFC 3986 section 2.1), each after a `/`, with one `/` more at the end or none.
    /// The first segment with a fault decides; the text of the path has at most 1,024 bytes.
    pub fn read(alloc: Global, rest: &str) -> Result<Path, PathFault>
        ensures ok { IfOk result (λ path. path_of rest.now ≡ Ok path) }
        ensures err { IfErr result (λ fault. fault ≢ PathFault.NoMemory → path_of rest.now ≡ Err fault) }
        ensures within { IfOk result (λ path. length (path_text path) ≤ most_asked_path_bytes) }
        ensures given { IfOk result (λ path. path_given rest.now ≡ Some path) }
        ensures refused { IfErr result (λ fault. fault ≢ PathFault.NoMemory → path_given rest.now ≡ None) }
    {
        match rest.as_bytes() {
            [] => Ok(Path::root(alloc)),
            [b'/', below @ ..] => Path::read_below(alloc, below),
            _ => Err(PathFault::EmptySegment),
        }
    }

    fn read_below(alloc: Global, below: &[u8]) -> Result<Path, PathFault>
        ensures ok { IfOk result (λ path. path_below below.now ≡ Ok path) }
        ensures err { IfErr result (λ fault. fault ≢ PathFault.NoMemory → path_below below.now ≡ Err fault) }
        ensures within { IfOk result (λ path. length (path_text path) ≤ most_asked_path_bytes) }
    {
        if below.is_empty() {
            return Ok(Path::root(alloc));
        }
        let segments = read_segments(alloc, without_last_slash(below))?;
        if joined_len(segments.as_slice()) > MOST_ASKED_PATH_BYTES {
            drop(segments);
            return Err(PathFault::TooLong);
        }
        Ok(Path { segments })
    }

    /// The path whose own text this is, of at most 1,024 bytes, and `None` for every other text.
    /// Nothing in it is escaped.
    pub fn of_text(alloc: Global, text: &str) -> Result<Option<Path>, NoMemory>
        ensures { IfOk result (λ path. path ≡ path_with_text text.now) }
    {
        match text.as_bytes() {
            [b'/', below @ ..] => Path::of_below(alloc, below),
            _ => Ok(None),
        }
    }

    /// The path whose text is `/` and these bytes.
    fn of_below(alloc: Global, below: &[u8]) -> Result<Option<Path>, NoMemory>
        ensures { IfOk result (λ path. path ≡ below_slash below.now) }
    {
        if below.is_empty() {
            return Ok(Some(Path::root(alloc)));
        }
        if below.len() >= MOST_ASKED_PATH_BYTES {
            return Ok(None);
        }
        match own_segments(alloc, below)? {
            Some(segments) => Ok(Some(Path { segments })),
            None => Ok(None),
        }
    }

    /// Whether this is the root.
    pub fn is_root(&self) -> bool
        ensures { result ≡ is_root self.now }
    {
        self.segments.as_slice().is_empty()
    }

    /// The segments, from the root on.
    pub fn segments(&self) -> &[Text]
        ensures value { result.now ≡ self.now }
        ensures sound { IsTrue (is_path self.now) }
    {
        self.segments.as_slice()
    }

    /// The last segment; the root has none.
    pub fn last(&self) -> Option<&Text>
        ensures { option_copied result ≡ last self.now }
    {
        self.segments.as_slice().last()
    }

    /// The text: each segment after a `/`, or `/` for the root.
    pub fn text(&self) -> Result<Text, NoMemory>
        ensures { IfOk result (λ text. text ≡ path_text self.now) }
    {
        let alloc = self.segments.allocator();
        if self.is_root() {
            return Ok(Text::of(alloc, "/")?);
        }
        let text = joined(alloc, self.segments.as_slice())?;
        Ok(Text::from_string(text))
    }

    /// How many bytes the text has: 1 for the root, at most 2,048.
    pub fn text_len(&self) -> usize
        ensures { result ≡ length (path_text self.now) }
    {
        joined_len(self.segments.as_slice()).max(1)
    }

    /// The text, with each segment percent-encoded (RFC 3986 section 2.1): all but ASCII letters,
    /// digits, `-`, `.`, `_` and `~` (section 2.3), in upper-case digits.
    pub fn escaped(&self) -> Result<Text, NoMemory>
        ensures { IfOk result (λ text. text ≡ path_escaped self.now) }
    {
        let alloc = self.segments.allocator();
        if self.is_root() {
            return Ok(Text::of(alloc, "/")?);
        }
        let text = joined_escaped(alloc, self.segments.as_slice())?;
        Ok(Text::from_string(text))
    }

    /// What stands before the `/` of a segment below this path: the segments, each percent-encoded and after a `/`,
    /// and nothing for the root.
    pub fn escaped_front(&self) -> Result<String, NoMemory>
        ensures { IfOk result (λ text. string_bytes text ≡ joined_escaped self.now) }
    {
        joined_escaped(self.segments.allocator(), self.segments.as_slice())
    }

    /// The path without its last segment; the root's is the root.
    pub fn parent(&self) -> Result<Path, NoMemory>
        ensures value { IfOk result (λ path. path ≡ parent self.now) }
        ensures no_longer { IfOk result (λ path. length (path_text path) ≤ length (path_text self.now)) }
    {
        let all = self.segments.as_slice();
        let mut segments = List::new(self.segments.allocator());
        add_copies(&mut segments, &all[..all.len().saturating_sub(1)])?;
        Ok(Path { segments })
    }

    /// This path without its last segment, in the memory that it has; the root's is the root.
    pub fn into_parent(self) -> Path
        ensures { result ≡ parent self }
    {
        let Path { segments } = self;
        let mut segments = segments.into_vec();
        let _last = segments.pop();
        Path {
            segments: List::from_vec(segments),
        }
    }

    /// This path with those segments below it.
    pub fn join(&self, below: &Path) -> Result<Path, NoMemory>
        requires this { length (path_text self.now) ≤ most_asked_path_bytes }
        requires below { length (path_text below.now) ≤ most_asked_path_bytes }
        ensures { IfOk result (λ path. path ≡ self.now ++ below.now) }
    {
        let mut segments = self.segments.copy()?;
        add_copies(&mut segments, below.segments.as_slice())?;
        Ok(Path { segments })
    }

    /// The path at which lies what lay here, at or below `from`, once `from` is moved to `to`: these
    /// segments, with those of `to` in place of as many as `from` has. The text of what is made has at
    /// most 2,048 bytes.
    pub fn moved(&self, from: &Path, to: &Path) -> Result<Path, NoMemory>
        requires within { length (path_text (to.now ++ drop (length from.now) self.now)) ≤ most_path_bytes }
        ensures { IfOk result (λ path. path ≡ to.now ++ drop (length from.now) self.now) }
    {
        let mut segments = to.segments.copy()?;
        let rest = behind(self.segments.as_slice(), from.segments.len());
        add_copies(&mut segments, rest)?;
        Ok(Path { segments })
    }

    /// A copy.
    pub fn copy(&self) -> Result<Path, NoMemory>
        ensures { IfOk result (λ path. path ≡ self.now) }
    {
        let segments = self.segments.copy()?;
        Ok(Path { segments })
    }

    /// Whether the other path is this one or above it.
    pub fn starts_with(&self, above: &Path) -> bool
        ensures { result ≡ is_above above.now self.now }
    {
        self.segments
            .as_slice()
            .starts_with(above.segments.as_slice())
    }
}

impl Hash for Path {
    ghost use Rattle.std.specs.Hash as fed;
    ghost use Rattle.std.specs.Cmp.Lexicographic.{bytes_decides};

    ghost hash_input = { λ path. fed.slice fed.str path };

    ghost respects_eq = { (fed.items_Alike (fed.same_Alike fed.str bytes_decides)).fed };

    fn hash<H: Hasher>(&self, state: &mut H) {
        self.segments.as_slice().hash(state);
    }
}
