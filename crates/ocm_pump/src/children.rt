ghost use Rattle.std.specs.Prelude.{◌≡◌, IfOk};
ghost use Rattle.ocm_json.specs.Seen.{data_at};
ghost use Rattle.ocm_records.specs.Kinds as kinds;
ghost use Rattle.ocm_records.specs.Rows.{Gives, record_of};
ghost use Rattle.ocm_pump.specs.Delivery as delivery;

use ocm_base::Text;
use ocm_json::{FieldFault, FieldsRef};
use ocm_records::{Field, RecordFault, fields_of};
use ocm_types::{ProviderId, TextFault};
use std::alloc::Global;

/// The decimal of the number that the field is.
fn decimal_at(alloc: Global, fields: FieldsRef<'_>) -> Result<Option<Text>, RecordFault>
    ensures { Gives (λ s. s) result (kinds.decimal_at (data_at fields.entry) Field.ProviderId) }
{
    match fields.number(Field::ProviderId.name()) {
        Ok(Some(number)) => {
            let text = number.to_string(alloc)?;
            Ok(Some(Text::from_string(text)))
        }
        Ok(None) => Ok(None),
        Err(FieldFault::Kind) => Err(RecordFault::Kind(Field::ProviderId)),
        Err(FieldFault::Length | FieldFault::Range) => Err(RecordFault::Value(Field::ProviderId)),
    }
}

/// The text that the field is, or the decimal of its number.
fn text_or_decimal(alloc: Global, fields: FieldsRef<'_>) -> Result<Option<Text>, RecordFault>
    ensures { Gives (λ s. s) result (kinds.text_or_decimal_at (data_at fields.entry) Field.ProviderId) }
{
    match fields.text(Field::ProviderId.name(), 0, usize::MAX) {
        Ok(Some(text)) => {
            let text = Text::of(alloc, text)?;
            Ok(Some(text))
        }
        Ok(None) => Ok(None),
        Err(FieldFault::Kind) => decimal_at(alloc, fields),
        Err(FieldFault::Length | FieldFault::Range) => Err(RecordFault::Value(Field::ProviderId)),
    }
}

/// The mark of a share in an object.
#[tactic(auto, unfolding(crate::specs::Delivery::child))]
fn child(alloc: Global, fields: FieldsRef<'_>) -> Result<ProviderId, RecordFault>
    ensures { Gives (λ id. id) result (delivery.child (data_at fields.entry)) }
{
    let Some(text) = text_or_decimal(alloc, fields)? else {
        return Err(RecordFault::Missing(Field::ProviderId));
    };
    match ProviderId::read(alloc, text.as_str()) {
        Ok(id) => Ok(id),
        Err(TextFault::Length | TextFault::Char) => Err(RecordFault::Value(Field::ProviderId)),
        Err(TextFault::NoMemory) => Err(RecordFault::NoMemory),
    }
}

/// Reads the mark of the share that a reshare request made: the `providerId` of the object that the bytes are, as an
/// offer has it (Open Cloud Mesh API 1.1).
pub fn read_child(alloc: Global, bytes: &[u8]) -> Result<ProviderId, RecordFault>
    ensures { Gives (λ id. id) result (record_of delivery.child bytes.now) }
{
    let fields = fields_of(alloc, bytes)?;
    let id = child(alloc, fields.borrowed())?;
    Ok(id)
}
