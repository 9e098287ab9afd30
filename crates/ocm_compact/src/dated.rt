//! The records of asks with their moments.
ghost use Rattle.std.specs.Prelude.{◌≡◌, OnOk, IsTrue, false};
ghost use Rattle.ocm_entry_bytes.specs.Spells.{Fits, has_spelling};
ghost use Rattle.ocm_law_alike.specs.Others.{is_aside};
ghost use Rattle.ocm_compact.specs.Texts.{noted};

use ocm_base::{Bytes, List, NoMemory};
use ocm_compact_candidates::dated;
use ocm_entry::Ask;

/// Whether an ask is a tick or one for files.
pub fn is_aside(ask: &Ask) -> bool
    ensures { result ≡ is_aside ask.now }
{
    match ask {
        Ask::Tick { .. } | Ask::Dav { .. } | Ask::Carry { .. } => true,
        Ask::AddUser { .. }
        | Ask::Local { .. }
        | Ask::Offer { .. }
        | Ask::Notice { .. }
        | Ask::Due
        | Ask::Settle { .. } => false,
    }
}

/// Adds the record of an ask at a moment, where it is neither a tick nor for files.
pub fn note(others: &mut List<Bytes>, clock: u64, ask: &Ask) -> Result<(), NoMemory>
    requires { IsTrue (has_spelling ask.now) }
    ensures texts { OnOk result (others.new ≡ noted clock ask.now others.old) }
    ensures fits { OnOk result (is_aside ask.now ≡ false → Fits ask.now) }
{
    if is_aside(ask) {
        return Ok(());
    }
    let text = dated(others.allocator(), clock, ask)?;
    others.push(text)
}
