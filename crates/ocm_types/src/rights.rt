ghost use Rattle.std.specs.Prelude.{◌≡◌, ◌↔◌, IfOk, IsTrue, find, bytes_eq, option_copied};
ghost use Rattle.ocm_types.specs.Rights.{has, both, is_within, is_any, perms_from, perms_text, perms_of, every_rights};
ghost use Rattle.ocm_types.specs.declared.rights.Rights.{Rights};
ghost use Rattle.ocm_types.specs.declared.rights.Need.{Need};

use ocm_texts::{NoMemory, Text};
use std::alloc::Global;
use std::marker::Model;

/// What may be done with what is shared: the words `read`, `write` and `share` of the `permissions` of an offer
/// (Open Cloud Mesh API 1.1). It may be that none of them is held.
#[derive(Clone, Copy, Debug, PartialEq, Eq)]
pub struct Rights {
    /// To list and to get.
    pub read: bool,
    /// To put, to make collections and to remove.
    pub write: bool,
    /// To share it with others.
    pub share: bool,
}

/// One right, as an ask needs it.
#[derive(Clone, Copy, Debug, PartialEq, Eq)]
pub enum Need {
    /// To list and to get.
    Read,
    /// To put, to make collections and to remove.
    Write,
    /// To share it with others.
    Share,
}

impl Rights {
    /// All three rights.
    pub const ALL: Rights = Rights {
        read: true,
        write: true,
        share: true,
    };

    /// The rights that are among both.
    pub fn both(self, other: Rights) -> Rights
        ensures { result ≡ both self other }
    {
        Rights {
            read: self.read && other.read,
            write: self.write && other.write,
            share: self.share && other.share,
        }
    }

    /// Whether the needed right is among these.
    pub fn has(self, need: Need) -> bool
        ensures { result ≡ has self need }
    {
        match need {
            Need::Read => self.read,
            Need::Write => self.write,
            Need::Share => self.share,
        }
    }

    fn new(read: bool, write: bool, share: bool) -> Rights
        ensures { result ≡ record { read = read; write = write; share = share } }
    {
        Rights { read, write, share }
    }

    /// Each set of rights.
    fn every() -> [Rights; 8]
        ensures { result ≡ every_rights }
    {
        [
            Rights::new(true, true, true),
            Rights::new(true, true, false),
            Rights::new(true, false, true),
            Rights::new(true, false, false),
            Rights::new(false, true, true),
            Rights::new(false, true, false),
            Rights::new(false, false, true),
            Rights::new(false, false, false),
        ]
    }

    /// The words of these rights in the order read, write, share, with a comma between each two.
    fn words(self) -> &'static str
        ensures { result.now ≡ perms_text self }
    {
        match (self.read, self.write, self.share) {
            (true, true, true) => "read,write,share",
            (true, true, false) => "read,write",
            (true, false, true) => "read,share",
            (true, false, false) => "read",
            (false, true, true) => "write,share",
            (false, true, false) => "write",
            (false, false, true) => "share",
            (false, false, false) => "",
        }
    }

    fn has_words(&self, words: &str) -> bool
        ensures { result ≡ bytes_eq (perms_text self.now) words.now }
    {
        self.words() == words
    }

    /// The first of some rights that has these words.
    fn with_words<'a>(among: &'a [Rights], words: &str) -> Option<&'a Rights>
        ensures { option_copied result
            ≡ find (λ rights. bytes_eq (perms_text rights) words.now) among.now }
    {
        among.iter().find(|rights| rights.has_words(words))
    }
}

/// Permissions: rights of which at least one is held. Contracts see the rights.
#[derive(Clone, Copy, Debug, PartialEq, Eq)]
pub struct Perms {
    rights: Rights,
}

impl Model for Perms {
    ghost use Rattle.std.specs.Prelude.{IsTrue};
    ghost use Rattle.ocm_types.specs.declared.rights.Rights.{Rights};
    ghost use Rattle.ocm_types.specs.Rights.{is_any};

    ghost Value = { Rights };

    ghost view = { λ perms. perms.rights };

    ghost invariant = { λ perms. IsTrue (is_any perms.rights) };

    ghost inverse = { λ rights. record { rights = rights } };
}

impl Perms {
    /// The rights as permissions, or None where there is no right.
    pub fn of(rights: Rights) -> Option<Perms>
        ensures { result ≡ perms_from rights }
    {
        if rights.read || rights.write || rights.share {
            Some(Perms { rights })
        } else {
            None
        }
    }

    /// Reads one to three of the words `read`, `write` and `share`, in this order, each at most once, with a comma
    /// between each two. Any other text gives None.
    pub fn read_list(s: &str) -> Option<Perms>
        ensures definition { result ≡ perms_of s.now }
        ensures exact { (rights : Rights) → (result ≡ Some rights)
            ↔ (IsTrue (is_any rights) × (s.now ≡ perms_text rights)) }
    {
        let every = Rights::every();
        Perms::of(*Rights::with_words(&every, s)?)
    }

    /// The rights, of which at least one is held.
    pub fn rights(&self) -> Rights
        ensures value { result ≡ self.now }
        ensures any { IsTrue (is_any result) }
    {
        self.rights
    }

    /// Whether each of these rights is among the others.
    pub fn within(&self, other: Rights) -> bool
        ensures value { result ≡ is_within self.now other }
        ensures each { IsTrue result
            ↔ ((need : Need) → IsTrue (has self.now need) → IsTrue (has other need)) }
    {
        self.rights.both(other) == self.rights
    }

    /// The text that `read_list` reads: the words of the rights, with a comma between each two.
    pub fn text(&self, alloc: Global) -> Result<Text, NoMemory>
        ensures text { IfOk result (λ text. text ≡ perms_text self.now) }
        ensures read_back { IfOk result (λ text. perms_of text ≡ Some self.now) }
    {
        Text::of(alloc, self.rights.words())
    }
}
