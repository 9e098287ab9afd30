ghost use Rattle.std.specs.Prelude.{◌≡◌, ◌↔◌, IfOk, IsErrOf, IsTrue, false};
ghost use Rattle.ocm_types.specs.Reads.{Gives};
ghost use Rattle.ocm_types.specs.Texts.{has_length, is_provider_id, is_sender_id, provider_id_of, sender_id_of};

use crate::texts::{TextFault, checked_text};
use ocm_texts::{Copied, NoMemory, Text};
use std::alloc::Global;
use std::marker::Model;

/// The owner's mark of a share, unique at its server: the `providerId` of an offer and of each notification about the
/// share (Open Cloud Mesh API 1.1). It has 1 to 255 bytes of UTF-8 and no control character. Contracts see its bytes.
#[derive(Debug, PartialEq, Eq, Hash)]
pub struct ProviderId {
    text: Text,
}

impl Drop for ProviderId {
    fn drop(self) {
        let ProviderId { text: _ } = self;
    }
}

impl Model for ProviderId {
    ghost use Rattle.std.specs.Prelude.{List, ℕ, IsTrue};
    ghost use Rattle.ocm_types.specs.Texts.{is_provider_id};

    ghost Value = { List ℕ };

    ghost view = { λ id. id.text };

    ghost invariant = { λ id. IsTrue (is_provider_id id.text) };

    ghost inverse = { λ bytes. record { text = bytes } };
}

impl ProviderId {
    /// Reads an owner's mark of a share.
    pub fn read(alloc: Global, s: &str) -> Result<ProviderId, TextFault>
        ensures ok { IfOk result (λ id. id ≡ s.now) }
        ensures is { IfOk result (λ id. IsTrue (is_provider_id id)) }
        ensures length { IsErrOf result TextFault.Length ↔ (has_length 1 255 s.now ≡ false) }
        ensures char { IsErrOf result TextFault.Char
            ↔ (IsTrue (has_length 1 255 s.now) × (is_provider_id s.now ≡ false)) }
        ensures definition { Gives result (provider_id_of s.now) }
    {
        let text = checked_text(alloc, s, 255, None)?;
        Ok(ProviderId { text })
    }

    /// The text.
    pub fn as_str(&self) -> &str
        ensures text { result.now ≡ self.now }
        ensures is { IsTrue (is_provider_id self.now) }
    {
        self.text.as_str()
    }

    /// The same value once more.
    pub fn copy(&self) -> Result<ProviderId, NoMemory>
        ensures { IfOk result (λ copy. copy ≡ self.now) }
    {
        let text = self.text.copy()?;
        Ok(ProviderId { text })
    }
}

impl Copied for ProviderId {
    fn copied(&self) -> Result<ProviderId, NoMemory> {
        self.copy()
    }
}

/// A recipient's mark of its request that a share be passed on, unique at its server: the `senderId` of the notification
/// `REQUEST_RESHARE` (Open Cloud Mesh API 1.1). It has 1 to 64 bytes of UTF-8 and no control character. Contracts see its
/// bytes.
#[derive(Debug, PartialEq, Eq, PartialOrd, Ord)]
pub struct SenderId {
    text: Text,
}

impl Drop for SenderId {
    fn drop(self) {
        let SenderId { text: _ } = self;
    }
}

impl Model for SenderId {
    ghost use Rattle.std.specs.Prelude.{List, ℕ, IsTrue};
    ghost use Rattle.ocm_types.specs.Texts.{is_sender_id};

    ghost Value = { List ℕ };

    ghost view = { λ id. id.text };

    ghost invariant = { λ id. IsTrue (is_sender_id id.text) };

    ghost inverse = { λ bytes. record { text = bytes } };
}

impl SenderId {
    /// Reads a recipient's mark of a request.
    pub fn read(alloc: Global, s: &str) -> Result<SenderId, TextFault>
        ensures ok { IfOk result (λ id. id ≡ s.now) }
        ensures is { IfOk result (λ id. IsTrue (is_sender_id id)) }
        ensures length { IsErrOf result TextFault.Length ↔ (has_length 1 64 s.now ≡ false) }
        ensures char { IsErrOf result TextFault.Char
            ↔ (IsTrue (has_length 1 64 s.now) × (is_sender_id s.now ≡ false)) }
        ensures definition { Gives result (sender_id_of s.now) }
    {
        let text = checked_text(alloc, s, 64, None)?;
        Ok(SenderId { text })
    }

    /// The text.
    pub fn as_str(&self) -> &str
        ensures text { result.now ≡ self.now }
        ensures is { IsTrue (is_sender_id self.now) }
    {
        self.text.as_str()
    }

    /// The same value once more.
    pub fn copy(&self) -> Result<SenderId, NoMemory>
        ensures { IfOk result (λ copy. copy ≡ self.now) }
    {
        let text = self.text.copy()?;
        Ok(SenderId { text })
    }
}

impl Copied for SenderId {
    fn copied(&self) -> Result<SenderId, NoMemory> {
        self.copy()
    }
}
