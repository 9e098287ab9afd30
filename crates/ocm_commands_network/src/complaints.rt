//! The line that tells what is wrong with the words of `dav`.
use ocm_commands_dav::{WordsFault, test_words};
use ocm_serve_options::Shown;
use std::alloc::Global;
use std::fmt;

/// Words that ask for a request.
const EXAMPLE: &str = "ocmd dav get files.example KEY /notes.txt";

/// What is wrong with the words of `dav`, with the one that it is about and an example. A secret is not told.
#[derive(Clone, Copy)]
pub(crate) struct Complaint<'a> {
    fault: WordsFault,
    words: &'a [String],
}

impl<'a> Complaint<'a> {
    /// What is wrong with words whose first is `dav`. None where nothing is, or there was no memory to find out.
    pub(crate) fn of(alloc: Global, words: &'a [String]) -> Option<Complaint<'a>> {
        match test_words(alloc, words) {
            Err(fault) if fault.is_usage() => Some(Complaint { fault, words }),
            Ok(()) | Err(_) => None,
        }
    }

    /// The word at this place, behind `dav` at 0.
    fn word(&self, place: usize) -> Shown<'a> {
        match self.words.get(place) {
            Some(word) => Shown(word.as_str()),
            None => Shown(""),
        }
    }
}

impl fmt::Display for Complaint<'_> {
    fn fmt<W: fmt::Write>(&self, f: &mut fmt::Formatter<W>) -> fmt::Result {
        match self.fault {
            WordsFault::Number => f.write_str(
                "dav: it takes a verb, a host, a key or secret, and a path, and no more",
            ),
            WordsFault::Verb => write!(
                f,
                "dav {}: the verb is none of get, put, delete, mkcol and list",
                self.word(1)
            ),
            WordsFault::Host => write!(
                f,
                "dav .. {} ..: a host is a name or an IPv4 address, and :PORT unless that is 80",
                self.word(2)
            ),
            WordsFault::Secret => f.write_str(
                "dav: a key or secret has 1 to 255 bytes, and neither a control character nor ':'",
            ),
            WordsFault::Path => write!(
                f,
                "dav .. {}: a path begins with '/', is escaped as in a URL, and has no part that is empty, '.' or '..'",
                self.word(4)
            ),
            WordsFault::NoMemory => f.write_str("dav: out of memory"),
        }?;
        write!(f, ". Example: {EXAMPLE}")
    }
}
