//! The fields of a JSON object (RFC 8259), each read by its kind: a text, a flag, a whole number, an object, a list.
//!
//! A field that is `null` counts as absent. What a JSON text is, and what stands in it, is as `serde_json` reads it.
#![tactic(auto)]

mod borrowed;
mod faults;
mod fields;
mod lists;

pub use borrowed::FieldsRef;
pub use faults::{FieldFault, JsonFault, JsonFieldFault};
pub use fields::Fields;
