//! Laws of the definitions, each the contract of a function that computes nothing.
ghost use Rattle.std.specs.Prelude.{◌≡◌, ℕ, ◌+◌, List, Ok};
ghost use Rattle.ocm_journal_image.specs.Blank.{IsBlank};
ghost use Rattle.ocm_journal_image.specs.Layout.{IsImage, placed, contents, live_start, blocks_size};
ghost use Rattle.ocm_texts.specs.Hex.{AreBytes};
ghost use Rattle.ocm_journal_image.specs.Reading.{image_of};
ghost use Rattle.ocm_journal_image.specs.declared.readings.Image.{Image};

/// The bytes of an image are read as it, with each record at its place.
pub fn an_image_is_read()
    ensures { (label : List ℕ) (area form : ℕ) (records : List (List ℕ)) (bytes : List ℕ) (image : IsImage label area form records bytes)
        → image_of bytes ≡ Ok (record {
          header = record { label = label; area = area; selector = image.selector };
          live = record {
            form = form;
            records = placed (live_start area image.selector + 1) records;
            end = live_start area image.selector + 1 + blocks_size records;
          };
        }) }
{}

/// What is read of bytes is what they are an image of.
pub fn what_is_read_is_an_image()
    ensures { (bytes : List ℕ) (read : Image) → AreBytes bytes → image_of bytes ≡ Ok read
        → (image : IsImage read.header.label read.header.area read.live.form (contents read.live.records) bytes)
        × (image.selector ≡ read.header.selector)
        × (read.live.records ≡ placed (live_start read.header.area read.header.selector + 1) (contents read.live.records)) }
{}

/// Bytes are an image of at most one label, area size, form and list of records.
pub fn one_image_in_bytes()
    ensures { (bytes label other_label : List ℕ) (area other_area form other_form : ℕ) (records others : List (List ℕ))
        → IsImage label area form records bytes → IsImage other_label other_area other_form others bytes
        → (label ≡ other_label) × (area ≡ other_area) × (form ≡ other_form) × (records ≡ others) }
{}

/// A file on which no journal was made yet is no image, whatever its label and area size were to be.
pub fn a_blank_file_is_no_image()
    ensures { (bytes label other_label : List ℕ) (area other_area form : ℕ) (records : List (List ℕ))
        → IsBlank label area bytes → ¬ IsImage other_label other_area form records bytes }
{}
