//! Rows by their numbers.
ghost use Rattle.std.specs.Prelude.{◌≡◌, option_copied};
ghost use Rattle.ocm_rules.specs.Numbers.{at_number};

/// The row of this number, where the first has number 1.
pub fn row_at<T>(rows: &[T], number: u32) -> Option<&T>
    ensures { option_copied result ≡ at_number rows.now number }
{
    match number.checked_sub(1) {
        Some(index) => rows.get(index as usize),
        None => None,
    }
}
