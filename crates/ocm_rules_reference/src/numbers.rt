ghost use Rattle.std.specs.Prelude.{◌≡◌, ◌+◌, ◌≤◌, IfOk, length, option_copied};
ghost use Rattle.ocm_rules.specs.Numbers.{added, at_number};

use ocm_base::{List, NoMemory};

/// A list with what an option holds behind it.
pub fn added<T: Drop>(mut items: List<T>, item: Option<T>) -> Result<List<T>, NoMemory>
    ensures list { IfOk result (λ longer. longer ≡ added items item) }
    ensures by_one { IfOk result (λ longer. length longer ≤ length items + 1) }
{
    match item {
        None => Ok(items),
        Some(item) => {
            items.push(item)?;
            Ok(items)
        }
    }
}
