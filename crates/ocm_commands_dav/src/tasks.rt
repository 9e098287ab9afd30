ghost use Rattle.std.specs.Prelude.{◌≡◌, ◌↔◌, List, ℕ, Ok, Some, IfOk, IfErr, IsTrue, map, true, false};
ghost use Rattle.std.specs.String.{string_bytes};
ghost use Rattle.ocm_types.specs.Hosts.{host_of};
ghost use Rattle.ocm_types.specs.Texts.{secret_of};
ghost use Rattle.ocm_path.specs.Paths.{Segments, path_of};
ghost use Rattle.ocm_commands_dav.specs.Words.{Asks, IsCause, IsOther, IsUsage, Spells, verb_word};

use crate::verbs::Verb;
use ocm_base::and;
use ocm_path::{Path, PathFault};
use ocm_types::{AddressFault, Host, Secret, TextFault};
use std::alloc::Global;

/// What the words ask for.
#[derive(Drop)]
pub struct Task {
    pub verb: Verb,
    /// Whose discovery document names the server of the files.
    pub host: Host,
    pub secret: Secret,
    pub path: Path,
}

/// Why the words gave no task.
#[derive(Clone, Copy, Debug, PartialEq, Eq)]
pub enum WordsFault {
    /// They are not five, of which the first is `dav`.
    Number,
    /// The second is no verb.
    Verb,
    /// The third is no host.
    Host,
    /// The fourth is no secret.
    Secret,
    /// The fifth is no path.
    Path,
    /// There was no memory for the task.
    NoMemory,
}

impl WordsFault {
    /// Whether it lies in the words.
    pub fn is_usage(self) -> bool
        ensures usage { result ≡ true → IsUsage self }
        ensures no_memory { result ≡ false → self ≡ WordsFault.NoMemory }
    {
        match self {
            WordsFault::Number
            | WordsFault::Verb
            | WordsFault::Host
            | WordsFault::Secret
            | WordsFault::Path => true,
            WordsFault::NoMemory => false,
        }
    }
}

fn verb_in(word: &str) -> Result<Verb, WordsFault>
    ensures ok { IfOk result (λ verb. word.now ≡ verb_word verb) }
    ensures other { IfErr result (λ fault. (fault ≡ WordsFault.Verb) × ((verb : Verb) → word.now ≡ verb_word verb → ⊥)) }
{
    match Verb::read(word) {
        Some(verb) => Ok(verb),
        None => Err(WordsFault::Verb),
    }
}

fn host_in(alloc: Global, word: &str) -> Result<Host, WordsFault>
    ensures ok { IfOk result (λ host. host_of word.now ≡ Ok host) }
    ensures other { IfErr result (λ fault. IsUsage fault → (fault ≡ WordsFault.Host) × ((host : List ℕ) → host_of word.now ≡ Ok host → ⊥)) }
{
    match Host::read(alloc, word) {
        Ok(host) => Ok(host),
        Err(AddressFault::NoMemory) => Err(WordsFault::NoMemory),
        Err(_) => Err(WordsFault::Host),
    }
}

fn secret_in(alloc: Global, word: &str) -> Result<Secret, WordsFault>
    ensures ok { IfOk result (λ secret. secret_of word.now ≡ Some secret) }
    ensures other { IfErr result (λ fault. IsUsage fault → (fault ≡ WordsFault.Secret) × ((secret : List ℕ) → secret_of word.now ≡ Some secret → ⊥)) }
{
    match Secret::read(alloc, word) {
        Ok(secret) => Ok(secret),
        Err(TextFault::NoMemory) => Err(WordsFault::NoMemory),
        Err(_) => Err(WordsFault::Secret),
    }
}

fn path_in(alloc: Global, word: &str) -> Result<Path, WordsFault>
    ensures ok { IfOk result (λ path. path_of word.now ≡ Ok path) }
    ensures other { IfErr result (λ fault. IsUsage fault → (fault ≡ WordsFault.Path) × ((path : Segments) → path_of word.now ≡ Ok path → ⊥)) }
{
    match Path::read(alloc, word) {
        Ok(path) => Ok(path),
        Err(PathFault::NoMemory) => Err(WordsFault::NoMemory),
        Err(_) => Err(WordsFault::Path),
    }
}

impl Task {
    /// The task that the words behind the program's name ask for.
    pub fn read(alloc: Global, words: &[String]) -> Result<Task, WordsFault>
        ensures ok { IfOk result (λ task. Asks (map (λ word. string_bytes word) words.now) task) }
        ensures other { IfErr result (λ fault. IsUsage fault → IsOther (map (λ word. string_bytes word) words.now)) }
    {
        match words {
            [dav, verb, host, secret, path] if is_word(dav.as_str(), "dav") => Task::spelled(
                alloc,
                verb.as_str(),
                host.as_str(),
                secret.as_str(),
                path.as_str(),
            ),
            _ => Err(WordsFault::Number),
        }
    }

    /// The task of a verb, a host, a secret and a path.
    fn spelled(
        alloc: Global,
        verb: &str,
        host: &str,
        secret: &str,
        path: &str,
    ) -> Result<Task, WordsFault>
        ensures ok { IfOk result (λ task. Spells verb.now host.now secret.now path.now task) }
        ensures cause { IfErr result (λ fault. IsUsage fault → IsCause fault verb.now host.now secret.now path.now) }
    {
        let verb = verb_in(verb)?;
        let host = host_in(alloc, host)?;
        let (host, secret) = and(host, secret_in(alloc, secret))?;
        let ((host, secret), path) = and((host, secret), path_in(alloc, path))?;
        Ok(Task {
            verb,
            host,
            secret,
            path,
        })
    }
}

fn is_word(word: &str, keyword: &str) -> bool
    ensures { IsTrue result ↔ (word.now ≡ keyword.now) }
{
    word == keyword
}

/// Whether the words ask for a task, and if not, why.
pub fn test_words(alloc: Global, words: &[String]) -> Result<(), WordsFault>
    ensures { IfErr result (λ fault. IsUsage fault → IsOther (map (λ word. string_bytes word) words.now)) }
{
    match Task::read(alloc, words) {
        Ok(_) => Ok(()),
        Err(fault) => Err(fault),
    }
}
