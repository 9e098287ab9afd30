ghost use Rattle.std.specs.Prelude.{◌≡◌, ◌≢◌, Some, None, IfOk, IfErr, map};
ghost use Rattle.serde_json.specs.Find.{as_str};
ghost use Rattle.serde_json.specs.View.{items_view};
ghost use Rattle.ocm_json.specs.Json.{each_in, object_in};
ghost use Rattle.ocm_json.specs.Seen.{data_at, data_in};

use crate::borrowed::FieldsRef;
use crate::faults::JsonFieldFault;
use crate::fields::Fields;
use ocm_texts::{List, NoMemory, Text};
use serde_json::Value;
use std::alloc::Global;

/// The texts that the elements are.
pub fn texts_among(alloc: Global, elements: &[Value]) -> Result<List<Text>, JsonFieldFault>
    ensures ok { IfOk result (λ texts. each_in as_str (items_view elements.now) ≡ Some texts) }
    ensures kind { IfErr result (λ fault. fault ≢ JsonFieldFault.NoMemory → each_in as_str (items_view elements.now) ≡ None) }
{
    let mut texts = List::new(alloc);
    for element in elements {
        let Some(text) = element.as_str() else {
            return Err(JsonFieldFault::Kind);
        };
        texts.push(Text::of(alloc, text)?)?;
    }
    Ok(texts)
}

/// The objects that the elements are.
pub fn objects_among<'a>(
    alloc: Global,
    elements: &'a [Value],
) -> Result<List<FieldsRef<'a>>, JsonFieldFault>
    ensures ok { IfOk result (λ objects. each_in object_in (items_view elements.now) ≡ Some (map data_at objects)) }
    ensures kind { IfErr result (λ fault. fault ≢ JsonFieldFault.NoMemory → each_in object_in (items_view elements.now) ≡ None) }
{
    let mut objects = List::new(alloc);
    for element in elements {
        let Some(object) = FieldsRef::of(element) else {
            return Err(JsonFieldFault::Kind);
        };
        objects.push(object)?;
    }
    Ok(objects)
}

/// A copy of each object.
pub fn copies(objects: &List<FieldsRef<'_>>) -> Result<List<Fields>, NoMemory>
    ensures { IfOk result (λ made. map data_in made ≡ map data_at objects.now) }
{
    let mut made = List::new(objects.allocator());
    for object in objects.as_slice() {
        made.push(object.to_fields()?)?;
    }
    Ok(made)
}
