ghost use Rattle.std.specs.Prelude.{◌≡◌, option_copied};
ghost use Rattle.ocm_rules.specs.Files.{size_of};
ghost use Rattle.ocm_tree.specs.Tables.{size_at, growth, first_passed};

use ocm_entry::Standing;
use ocm_limits::{MOST_CHILDREN, MOST_NODES, MOST_STORED_BYTES};
use ocm_types::Which;

/// The bytes of what stands: those of a file, none for a collection.
pub fn size_of(standing: &Standing) -> u64
    ensures { result ≡ size_of standing.now }
{
    match standing {
        Standing::Collection => 0,
        Standing::File { body } => body.len() as u64,
    }
}

/// The bytes of what stands at a place.
pub fn size_at(standing: Option<&Standing>) -> u64
    ensures { result ≡ size_at (option_copied standing.entry) }
{
    match standing {
        Some(standing) => size_of(standing),
        None => 0,
    }
}

/// How many more nodes there are once something stands where this stood.
pub fn growth(standing: Option<&Standing>) -> u32
    ensures { result ≡ growth (option_copied standing.entry) }
{
    match standing {
        Some(_) => 0,
        None => 1,
    }
}

/// The first limit that is passed by files of this total size, so many nodes, and so many nodes in
/// one collection.
pub fn first_passed(total: u64, count: u64, children: u64) -> Option<Which>
    ensures { result ≡ first_passed total count children }
{
    if total > MOST_STORED_BYTES {
        Some(Which::AllFiles)
    } else if count > MOST_NODES {
        Some(Which::Nodes)
    } else if children > MOST_CHILDREN {
        Some(Which::Children)
    } else {
        None
    }
}
