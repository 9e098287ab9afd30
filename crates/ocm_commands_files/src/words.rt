ghost use Rattle.std.specs.Prelude.{◌≡◌, ◌↔◌, ◌∷◌, [], Some, List, map, IfOk, IfSome, OnErr};
ghost use Rattle.ocm_serve_options.specs.Plans.{texts};
ghost use Rattle.ocm_commands_files.specs.Words as specified;
ghost use Rattle.ocm_commands_files.specs.Words.{AreOf, BeginTrace, IsSmall, kind_word, most_bytes};

use ocm_base::{NoMemory, decimal_read};
use ocm_limits::{MOST_AUDITED_BYTES, MOST_JSON_BYTES, MOST_LOGCHECK_BYTES, MOST_SCRIPT_BYTES};
use ocm_types::Host;
use std::alloc::Global;

/// A record that `check` reads.
#[derive(Clone, Copy)]
pub enum Kind {
    /// `discovery`: what a server says of itself.
    Discovery,
    /// `offer`: a share is offered.
    Offer,
    /// `notice`: a notification.
    Notice,
    /// `error`: why a server refused.
    Error,
}

impl Kind {
    /// The kind of record that this word names, none where it names none.
    pub fn read(word: &str) -> Option<Kind>
        ensures { (kind : Kind) → (result ≡ Some kind) ↔ (word.now ≡ kind_word kind) }
    {
        match word {
            "discovery" => Some(Kind::Discovery),
            "offer" => Some(Kind::Offer),
            "notice" => Some(Kind::Notice),
            "error" => Some(Kind::Error),
            _ => None,
        }
    }
}

/// The most events of a drill.
const MOST_EVENTS: u64 = 90_000;

/// A command that works on standard input, or on nothing.
pub enum Command {
    /// `replay`: runs a script.
    Replay,
    /// `trace HOST`: runs a script, and tells what the reads at one of its servers were answered.
    Trace(Host),
    /// `audit`: tells what the records of a journal's file say.
    Audit,
    /// `logcheck`: tests a log of reads against the journal of the server that answered them.
    Logcheck,
    /// `compact`: writes a journal's file anew in its least form.
    Compact,
    /// `check KIND`: reads a record and writes it in its one form.
    Check(Kind),
    /// `drill NUMBER EVENTS`: runs a script that is made of a number.
    Drill {
        number: u64,
        /// How many events follow the first sixteen.
        events: u32,
    },
    /// `help` or `--help`: tells the commands, their options and the statuses.
    Help,
    /// `serve --help`: tells the options of `serve`.
    ServeHelp,
    /// `dav --help`: tells the words of `dav`.
    DavHelp,
    /// `version` or `--version`: tells the version.
    Version,
}

impl Drop for Command {
    fn drop(self) {
        match self {
            Command::Replay => {}
            Command::Trace(_) => {}
            Command::Audit => {}
            Command::Logcheck => {}
            Command::Compact => {}
            Command::Check(_) => {}
            Command::Drill {
                number: _,
                events: _,
            } => {}
            Command::Help => {}
            Command::ServeHelp => {}
            Command::DavHelp => {}
            Command::Version => {}
        }
    }
}

impl Command {
    /// The command that the words behind the program's name are, none where they are no command's.
    pub fn read(alloc: Global, words: &[String]) -> Result<Option<Command>, NoMemory>
        ensures read { IfOk result (λ found. (command : Command) → (found ≡ Some command) ↔ AreOf command (texts words.now)) }
        ensures small { IfOk result (λ found. IfSome found IsSmall) }
        ensures memory { OnErr result (BeginTrace (texts words.now)) }
    {
        match words {
            [word] => Ok(Command::of_one(word.as_str())),
            [word, argument] => Command::of_two(alloc, word.as_str(), argument.as_str()),
            [word, number, events] => Ok(Command::of_three(
                word.as_str(),
                number.as_str(),
                events.as_str(),
            )),
            _ => Ok(None),
        }
    }

    /// The command of one word.
    fn of_one(word: &str) -> Option<Command>
        ensures read { (command : Command) → (result ≡ Some command) ↔ AreOf command (word.now ∷ []) }
        ensures small { IfSome result IsSmall }
    {
        match word {
            "replay" => Some(Command::Replay),
            "audit" => Some(Command::Audit),
            "logcheck" => Some(Command::Logcheck),
            "compact" => Some(Command::Compact),
            "help" | "--help" => Some(Command::Help),
            "version" | "--version" => Some(Command::Version),
            _ => None,
        }
    }

    /// The command of a word and its argument.
    fn of_two(alloc: Global, word: &str, argument: &str) -> Result<Option<Command>, NoMemory>
        ensures read { IfOk result (λ found. (command : Command) → (found ≡ Some command) ↔ AreOf command (word.now ∷ argument.now ∷ [])) }
        ensures small { IfOk result (λ found. IfSome found IsSmall) }
        ensures memory { OnErr result (BeginTrace (word.now ∷ argument.now ∷ [])) }
    {
        match word {
            "check" => match Kind::read(argument) {
                Some(kind) => Ok(Some(Command::Check(kind))),
                None => Ok(None),
            },
            "trace" => match Host::read_canonical(alloc, argument)? {
                Some(host) => Ok(Some(Command::Trace(host))),
                None => Ok(None),
            },
            "serve" if argument == "--help" => Ok(Some(Command::ServeHelp)),
            "dav" if argument == "--help" => Ok(Some(Command::DavHelp)),
            _ => Ok(None),
        }
    }

    /// The command of a word and two numbers.
    fn of_three(word: &str, number: &str, events: &str) -> Option<Command>
        ensures read { (command : Command) → (result ≡ Some command) ↔ AreOf command (word.now ∷ number.now ∷ events.now ∷ []) }
        ensures small { IfSome result IsSmall }
    {
        if word != "drill" {
            return None;
        }
        let number = decimal_read(number)?;
        let events = decimal_read(events)?;
        if events > MOST_EVENTS {
            return None;
        }
        Some(Command::Drill {
            number,
            events: events as u32,
        })
    }

    /// Whether it reads the source.
    pub fn reads(&self) -> bool
        ensures { result ≡ specified.reads self.now }
    {
        match self {
            Command::Replay
            | Command::Trace(_)
            | Command::Audit
            | Command::Logcheck
            | Command::Compact
            | Command::Check(_) => true,
            Command::Drill { .. }
            | Command::Help
            | Command::ServeHelp
            | Command::DavHelp
            | Command::Version => false,
        }
    }

    /// The most bytes of its input.
    pub fn most_bytes(&self) -> u64
        ensures { result ≡ most_bytes self.now }
    {
        match self {
            Command::Replay | Command::Trace(_) => MOST_SCRIPT_BYTES,
            Command::Audit | Command::Compact => MOST_AUDITED_BYTES,
            Command::Logcheck => MOST_LOGCHECK_BYTES,
            Command::Check(_) => MOST_JSON_BYTES as u64,
            Command::Drill { .. }
            | Command::Help
            | Command::ServeHelp
            | Command::DavHelp
            | Command::Version => 0,
        }
    }
}
