//! Laws of the definitions, each the contract of a function that computes nothing.
ghost use Rattle.std.specs.Prelude.{◌≡◌, ◌⊎◌, ◌+◌, ℕ, List, [], None, Ok};
ghost use Rattle.ocm_texts.specs.Hex.{AreBytes};
ghost use Rattle.ocm_journal_image.specs.Blank.{blank_of, IsBlank};
ghost use Rattle.ocm_journal_image.specs.Layout.{IsImage, contents, live_start, placed};
ghost use Rattle.ocm_journal_image.specs.declared.readings.RawRecord.{RawRecord};
ghost use Rattle.ocm_journal.specs.Openings.{opening};

/// The bytes of an image open to its records, each at its place, whatever areas a new journal would have. They are
/// not blank.
pub fn an_image_is_opened()
    ensures opens { (label : List ℕ) (area form other_area : ℕ) (records : List (List ℕ)) (bytes : List ℕ) (image : IsImage label area form records bytes)
        → opening label other_area bytes ≡ Ok (placed (live_start area image.selector + 1) records) }
    ensures not_blank { (label other_label : List ℕ) (area form other_area : ℕ) (records : List (List ℕ)) (bytes : List ℕ)
        → IsImage label area form records bytes → blank_of other_label other_area bytes ≡ None }
{}

/// Bytes that open to records are an image of these, each at its place, or they are blank and there are none.
pub fn what_is_opened_is_blank_or_an_image()
    ensures { (label : List ℕ) (new_area : ℕ) (bytes : List ℕ) (read : List RawRecord) → AreBytes bytes → opening label new_area bytes ≡ Ok read
        → (IsBlank label new_area bytes × (read ≡ []))
        ⊎ ((area : ℕ) × (form : ℕ) × (image : IsImage label area form (contents read) bytes) × (read ≡ placed (live_start area image.selector + 1) (contents read))) }
{}
