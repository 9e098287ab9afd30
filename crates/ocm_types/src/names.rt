ghost use Rattle.std.specs.Prelude.{◌≡◌, ◌↔◌, IfOk, IsErrOf, IsTrue, false};
ghost use Rattle.ocm_types.specs.Reads.{Gives};
ghost use Rattle.ocm_types.specs.Texts.{has_length, is_name, is_share_name, name_of, share_name_of};

use crate::texts::{TextFault, checked_text};
use ocm_texts::{Copied, NoMemory, Text};
use std::alloc::Global;
use std::marker::Model;

/// A user's name at its server: the part of an address before the last `@`. It has 1 to 64 bytes of UTF-8, no control
/// character (0 to 31, and 127) and no `/`. Contracts see its bytes.
#[derive(Debug, PartialEq, Eq, Hash)]
pub struct Name {
    text: Text,
}

impl Drop for Name {
    fn drop(self) {
        let Name { text: _ } = self;
    }
}

impl Model for Name {
    ghost use Rattle.std.specs.Prelude.{List, ℕ, IsTrue};
    ghost use Rattle.ocm_types.specs.Texts.{is_name};

    ghost Value = { List ℕ };

    ghost view = { λ name. name.text };

    ghost invariant = { λ name. IsTrue (is_name name.text) };

    ghost inverse = { λ bytes. record { text = bytes } };
}

impl Name {
    /// Reads a name.
    pub fn read(alloc: Global, s: &str) -> Result<Name, TextFault>
        ensures ok { IfOk result (λ name. name ≡ s.now) }
        ensures is { IfOk result (λ name. IsTrue (is_name name)) }
        ensures length { IsErrOf result TextFault.Length ↔ (has_length 1 64 s.now ≡ false) }
        ensures char { IsErrOf result TextFault.Char
            ↔ (IsTrue (has_length 1 64 s.now) × (is_name s.now ≡ false)) }
        ensures definition { Gives result (name_of s.now) }
    {
        let text = checked_text(alloc, s, 64, Some(b'/'))?;
        Ok(Name { text })
    }

    /// The text.
    pub fn as_str(&self) -> &str
        ensures text { result.now ≡ self.now }
        ensures is { IsTrue (is_name self.now) }
    {
        self.text.as_str()
    }

    /// The same value once more.
    pub fn copy(&self) -> Result<Name, NoMemory>
        ensures { IfOk result (λ copy. copy ≡ self.now) }
    {
        let text = self.text.copy()?;
        Ok(Name { text })
    }
}

impl Copied for Name {
    fn copied(&self) -> Result<Name, NoMemory> {
        self.copy()
    }
}

/// What the owner calls a share: the `name` of an offer (Open Cloud Mesh API 1.1). It has 1 to 1,024 bytes of UTF-8 and
/// no control character. Contracts see its bytes.
#[derive(Debug, PartialEq, Eq, Hash)]
pub struct ShareName {
    text: Text,
}

impl Drop for ShareName {
    fn drop(self) {
        let ShareName { text: _ } = self;
    }
}

impl Model for ShareName {
    ghost use Rattle.std.specs.Prelude.{List, ℕ, IsTrue};
    ghost use Rattle.ocm_types.specs.Texts.{is_share_name};

    ghost Value = { List ℕ };

    ghost view = { λ name. name.text };

    ghost invariant = { λ name. IsTrue (is_share_name name.text) };

    ghost inverse = { λ bytes. record { text = bytes } };
}

impl ShareName {
    /// Reads a share's name.
    pub fn read(alloc: Global, s: &str) -> Result<ShareName, TextFault>
        ensures ok { IfOk result (λ name. name ≡ s.now) }
        ensures is { IfOk result (λ name. IsTrue (is_share_name name)) }
        ensures length { IsErrOf result TextFault.Length ↔ (has_length 1 1024 s.now ≡ false) }
        ensures char { IsErrOf result TextFault.Char
            ↔ (IsTrue (has_length 1 1024 s.now) × (is_share_name s.now ≡ false)) }
        ensures definition { Gives result (share_name_of s.now) }
    {
        let text = checked_text(alloc, s, 1024, None)?;
        Ok(ShareName { text })
    }

    /// The text.
    pub fn as_str(&self) -> &str
        ensures text { result.now ≡ self.now }
        ensures is { IsTrue (is_share_name self.now) }
    {
        self.text.as_str()
    }

    /// The same value once more.
    pub fn copy(&self) -> Result<ShareName, NoMemory>
        ensures { IfOk result (λ copy. copy ≡ self.now) }
    {
        let text = self.text.copy()?;
        Ok(ShareName { text })
    }
}

impl Copied for ShareName {
    fn copied(&self) -> Result<ShareName, NoMemory> {
        self.copy()
    }
}
