ghost use Rattle.std.specs.Prelude.{◌≡◌, ◌↔◌, IfOk, IsErrOf, IsTrue, false};
ghost use Rattle.ocm_types.specs.Reads.{Gives};
ghost use Rattle.ocm_types.specs.Texts.{has_length, is_secret, secret_of};

use crate::texts::{TextFault, checked_text};
use ocm_texts::{Copied, NoMemory, Text};
use std::alloc::Global;
use std::marker::Model;

/// What the holder of a share shows to reach it: the `sharedSecret` of an offer and of each notification (Open Cloud Mesh
/// API 1.1). It has 1 to 255 bytes of UTF-8, no control character and no `:`, so that it may stand as the user of HTTP's
/// basic credentials. Contracts see its bytes.
#[derive(PartialEq, Eq, PartialOrd, Ord, Hash)]
pub struct Secret {
    text: Text,
}

impl Drop for Secret {
    fn drop(self) {
        let Secret { text: _ } = self;
    }
}

impl Model for Secret {
    ghost use Rattle.std.specs.Prelude.{List, ℕ, IsTrue};
    ghost use Rattle.ocm_types.specs.Texts.{is_secret};

    ghost Value = { List ℕ };

    ghost view = { λ secret. secret.text };

    ghost invariant = { λ secret. IsTrue (is_secret secret.text) };

    ghost inverse = { λ bytes. record { text = bytes } };
}

impl Secret {
    /// Reads a secret.
    pub fn read(alloc: Global, s: &str) -> Result<Secret, TextFault>
        ensures ok { IfOk result (λ secret. secret ≡ s.now) }
        ensures is { IfOk result (λ secret. IsTrue (is_secret secret)) }
        ensures length { IsErrOf result TextFault.Length ↔ (has_length 1 255 s.now ≡ false) }
        ensures char { IsErrOf result TextFault.Char
            ↔ (IsTrue (has_length 1 255 s.now) × (is_secret s.now ≡ false)) }
        ensures definition { Gives result (secret_of s.now) }
    {
        let text = checked_text(alloc, s, 255, Some(b':'))?;
        Ok(Secret { text })
    }

    /// The secret of a text that was found to be one.
    pub(crate) fn of_text(text: Text) -> Secret
        requires { IsTrue (is_secret text) }
        ensures { result ≡ text }
    {
        Secret { text }
    }

    /// The text.
    pub fn as_str(&self) -> &str
        ensures text { result.now ≡ self.now }
        ensures is { IsTrue (is_secret self.now) }
    {
        self.text.as_str()
    }

    /// The same value once more.
    pub fn copy(&self) -> Result<Secret, NoMemory>
        ensures { IfOk result (λ copy. copy ≡ self.now) }
    {
        let text = self.text.copy()?;
        Ok(Secret { text })
    }
}

impl Copied for Secret {
    fn copied(&self) -> Result<Secret, NoMemory> {
        self.copy()
    }
}
