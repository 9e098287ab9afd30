ghost use Rattle.std.specs.Prelude.{◌≡◌};
ghost use Rattle.ocm_path.specs.Paths.{parent};
ghost use Rattle.ocm_rules.specs.Files.{same_place, is_at_or_above, parent_of};

use ocm_base::Text;
use ocm_entry::Place;
use ocm_path::Path;

/// Whether the first place is the second or lies above it.
pub fn is_at_or_above(above: &Place, place: &Place) -> bool
    ensures { result ≡ is_at_or_above above.now place.now }
{
    above.user == place.user && place.path.starts_with(&above.path)
}

/// The segments of a path without the last; the root has none.
pub fn parent_segments(path: &Path) -> &[Text]
    ensures { result.now ≡ parent path.now }
{
    let segments = path.segments();
    &segments[..segments.len().saturating_sub(1)]
}

/// Whether a place is the one in which another lies.
pub fn is_parent(collection: &Place, place: &Place) -> bool
    ensures { result ≡ same_place (parent_of place.now) collection.now }
{
    place.user == collection.user && parent_segments(&place.path) == collection.path.segments()
}

/// Whether two places lie in one.
pub fn are_siblings(place: &Place, other: &Place) -> bool
    ensures { result ≡ same_place (parent_of place.now) (parent_of other.now) }
{
    place.user == other.user && parent_segments(&place.path) == parent_segments(&other.path)
}
