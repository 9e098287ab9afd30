//! The records of asks with their moments.
ghost use Rattle.std.specs.Prelude.{◌≡◌, IfOk, OnOk, IsTrue};
ghost use Rattle.ocm_entry_bytes.specs.Spells.{Fits, has_spelling};
ghost use Rattle.ocm_compact_candidates.specs.Dated.{dated_text};

use ocm_base::{Bytes, NoMemory};
use ocm_entry::Ask;
use ocm_entry_bytes::add_ask;
use std::alloc::Global;

/// The record in form 2 of an ask at a moment.
#[tactic(auto, unfolding(crate::specs::Dated::dated_text, ocm_entry_bytes::specs::Spells::eight_bytes))]
pub fn dated(alloc: Global, clock: u64, ask: &Ask) -> Result<Bytes, NoMemory>
    requires { IsTrue (has_spelling ask.now) }
    ensures text { IfOk result (λ text. text ≡ dated_text clock ask.now) }
    ensures fits { OnOk result (Fits ask.now) }
{
    let mut text = Bytes::of(alloc, &clock.to_be_bytes())?;
    add_ask(alloc, &mut text, ask)?;
    Ok(text)
}
