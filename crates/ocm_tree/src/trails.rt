ghost use Rattle.std.specs.Prelude.{◌≡◌, ◌≤◌, ◌<◌, ◌&&◌, nat_le};
ghost use Rattle.ocm_tree.specs.Trails.{IsSpan, digit_at, digit_of, trail_of};

use crate::tags::mixed_all;
use ocm_base::Text;

/// A number below 256 for a segment.
fn digit_of(segment: &Text) -> u64
    ensures digit { result ≡ digit_of segment.now }
    ensures within { result < 256 }
{
    mixed_all(0, segment.as_str().as_bytes()) % 256
}

/// The number of the segment of this index, and this one where the path ends before it.
fn digit_at(path: &[Text], index: usize, missing: u64) -> u64
    requires { missing < 256 }
    ensures digit { result ≡ digit_at missing path.now index }
    ensures within { result < 256 }
{
    match path.get(index) {
        Some(segment) => digit_of(segment),
        None => missing,
    }
}

/// The trail of a place: its user and the numbers of its first four segments, of which the first weighs
/// most, so that the trails of all places at and below one lie together. This number stands for each
/// segment that is missing.
pub fn trail_of(user: u32, path: &[Text], missing: u64) -> u64
    requires { missing < 256 }
    ensures { result ≡ trail_of missing user path.now }
{
    let first = u64::from(user) * 256 + digit_at(path, 0, missing);
    let second = first * 256 + digit_at(path, 1, missing);
    let third = second * 256 + digit_at(path, 2, missing);
    third * 256 + digit_at(path, 3, missing)
}

/// The least and the greatest number that the trails of places can be.
#[derive(Clone, Copy)]
pub struct Span {
    pub least: u64,
    pub most: u64,
}

impl Span {
    /// The span of the trails of all places at and below one.
    pub fn of(user: u32, path: &[Text]) -> Span
        ensures { IsSpan result (record { user = user; path = path.now }) }
    {
        Span {
            least: trail_of(user, path, 0),
            most: trail_of(user, path, 255),
        }
    }

    /// Whether a trail lies in the span.
    pub fn has(&self, trail: u64) -> bool
        ensures { result ≡ (nat_le self.now.least trail && nat_le trail self.now.most) }
    {
        self.least <= trail && trail <= self.most
    }
}
