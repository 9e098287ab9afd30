//! The records of Open Cloud Mesh API 1.1 and of the local interface, read from JSON and written as
//! JSON; and, for others that read or write parts of records, the object that a record is and the JSON
//! values of what several records have.
#![tactic(auto)]

mod choices;
mod commands;
mod document_json;
mod documents;
mod faults;
mod kinds;
mod notice_json;
mod notices;
mod offer_json;
mod offers;
mod opening;
mod values;
mod writing;

pub use commands::read_local;
pub use document_json::{write_discovery, write_error};
pub use documents::{read_discovery, read_error};
pub use faults::{Field, RecordFault};
pub use notice_json::write_notice;
pub use notices::read_notice;
pub use offer_json::write_offer;
pub use offers::read_offer;
pub use opening::fields_of;
pub use values::{Discovery, ErrorBody, FieldNote, LocalAsk};
pub use writing::{
    bytes_of, object_of, put_address, put_address_if, put_if, put_perms, put_perms_if, put_text,
};
