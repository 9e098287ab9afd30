ghost use Rattle.std.specs.Prelude.{◌≡◌, ◌+◌, ◌<◌, ◌≤◌, ◌++◌, length, map, vec_len, vec_capacity};
ghost use Rattle.ocm_tree.specs.Tags.{mix, mix_all, parent_tag, tag_of};

use crate::plans::PlannedNode;
use ocm_entry::Place;

/// How many tags there are.
const TAGS: u64 = 4_294_967_296;

/// A tag with one byte more.
#[tactic(auto, unfolding(crate::specs::Tags::mix))]
fn mixed(tag: u64, byte: u64) -> u64
    requires tag { tag < 4294967296 }
    requires byte { byte < 4294967296 }
    ensures mix { result ≡ mix tag byte }
    ensures within { result < 4294967296 }
{
    (tag * 31 + byte) % TAGS
}

/// A tag with one segment more.
#[tactic(auto, using(std::proofs::lemmas::List::Sums::fold_more), unfolding(crate::specs::Tags::mix_all))]
pub fn mixed_all(tag: u64, segment: &[u8]) -> u64
    requires { tag < 4294967296 }
    ensures mix { result ≡ mix_all tag segment.now }
    ensures within { result < 4294967296 }
{
    let mut more = mixed(tag, u64::from(b'/'));
    for byte in segment {
        more = mixed(more, u64::from(*byte));
    }
    more
}

/// The tag of a place: a place with another tag is another place.
#[tactic(auto, using(std::proofs::lemmas::List::Sums::fold_more), unfolding(crate::specs::Tags::tag_of))]
pub fn tag_of(place: &Place) -> u64
    ensures { result ≡ tag_of place.now }
{
    let mut tag = u64::from(place.user);
    for segment in place.path.segments() {
        tag = mixed_all(tag, segment.as_str().as_bytes());
    }
    tag
}

/// Adds the tags of the places in which nodes lie. It takes no memory.
pub fn push_tags(tags: &mut Vec<u64>, nodes: &[PlannedNode])
    requires { length nodes.now + vec_len tags.old ≤ vec_capacity tags.old }
    ensures { tags.new.items ≡ tags.old.items ++ map parent_tag nodes.now }
{
    for planned in nodes {
        tags.push_reserved(tag_of(planned.parent()));
    }
}
