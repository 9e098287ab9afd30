//! The bytes of a journal: what an image is, how it is read, and what a new one holds.
#![tactic(auto)]

mod areas;
mod blanks;
mod faults;
mod framed;
mod fresh;
mod headers;
mod images;
mod laws;
mod readings;

pub use areas::{GREATEST_RECORD, next_record, read_area};
pub use blanks::{Blank, read_blank, read_blank_for_any};
pub use faults::{ImageFault, NotImage};
pub use framed::FramedRecord;
pub use fresh::{area_bytes, fits_area, fresh_bytes};
pub use headers::{GREATEST_AREA, HEADER_SIZE, LEAST_AREA, read_header};
pub use images::{Front, read_front, read_image};
pub use laws::{
    a_blank_file_is_no_image, an_image_is_read, one_image_in_bytes, what_is_read_is_an_image,
};
pub use readings::{Area, Header, Image, RawRecord, Records};
