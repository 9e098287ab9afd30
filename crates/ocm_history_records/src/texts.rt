//! The records of the shortest journal, made of what is kept.
ghost use Rattle.std.specs.Prelude.{◌≡◌, ◌∷◌, ◌++◌, [], if◌then◌else◌, option_copied, false, OnOk, OnErr, Err};
ghost use Rattle.ocm_journal_image.specs.Layout.{AreRecords};
ghost use Rattle.ocm_history_records.specs.Kept.{IsTooLong, is_tick_record, lean_text};

use crate::faults::RecordFault;
use crate::views::KeptView;
use ocm_base::Bytes;
use ocm_journal_area::AreaRecords;

/// Adds the record in form 2 of an ask, where this body still stands or none; that of a tick is passed over. `TooLong`
/// says that no journal takes it. After a fault the texts are as before.
pub fn add_asked(
    texts: &mut AreaRecords,
    kept: &KeptView<'_>,
    standing: Option<&Bytes>,
) -> Result<(), RecordFault>
    ensures sizes { OnOk result (AreRecords texts.old → AreRecords texts.new) }
    ensures text { OnOk result (let text = lean_text kept.now (option_copied standing.entry) in texts.new ≡ (if is_tick_record kept.now then texts.old else texts.old ++ text ∷ [])) }
    ensures full { result ≡ Err RecordFault.TooLong → (is_tick_record kept.now ≡ false) × IsTooLong (lean_text kept.now (option_copied standing.entry)) }
    ensures unchanged { OnErr result (texts.new ≡ texts.old) }
{
    if kept.is_tick() {
        return Ok(());
    }
    add_text(texts, kept, standing)
}

/// Adds the record in form 2, where this body still stands or none. `TooLong` says that no journal takes it. After a
/// fault the texts are as before.
pub fn add_text(
    texts: &mut AreaRecords,
    kept: &KeptView<'_>,
    standing: Option<&Bytes>,
) -> Result<(), RecordFault>
    ensures sizes { OnOk result (AreRecords texts.old → AreRecords texts.new) }
    ensures text { OnOk result (texts.new ≡ texts.old ++ lean_text kept.now (option_copied standing.entry) ∷ []) }
    ensures full { result ≡ Err RecordFault.TooLong → IsTooLong (lean_text kept.now (option_copied standing.entry)) }
    ensures unchanged { OnErr result (texts.new ≡ texts.old) }
{
    kept.add_to(texts, standing)?;
    Ok(())
}
