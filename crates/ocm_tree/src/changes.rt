ghost use Rattle.std.specs.Prelude.{◌≡◌};
ghost use Rattle.ocm_rules.specs.Files.{stays};
ghost use Rattle.ocm_tree.specs.Standings.{is_left, is_copied};
ghost use Rattle.ocm_tree.specs.Changes.{act_of, passes};

use crate::places::is_at_or_above;
use ocm_entry::{Node, Place, Standing};

/// A change of what stands that is about to be made.
#[derive(Clone, Copy)]
pub enum FileChange<'a> {
    /// Nothing changes.
    Nothing,
    /// This stands at a place, in the place of what stood there, or as one more.
    Put {
        place: &'a Place,
        standing: &'a Standing,
    },
    /// Nothing stands at this place and below it any more.
    Remove {
        place: &'a Place,
    },
    /// What stands at and below one place stands at another, and no longer at the first where it is
    /// moving.
    Carry {
        from: &'a Place,
        to: &'a Place,
        moving: bool,
    },
}

/// What becomes of a node by a change.
#[derive(Clone, Copy)]
pub enum Part {
    /// It stays where it stands.
    Left,
    /// It is copied.
    Copied,
}

/// Whether a node stays where it stands at a copy or move.
fn stays(from: &Place, to: &Place, moving: bool, node: &Node) -> bool
    ensures { result ≡ stays from.now to.now moving node.now }
{
    !is_at_or_above(to, &node.place) && !(moving && is_at_or_above(from, &node.place))
}

/// Whether a node stays where it stands once a change is made.
fn is_left(change: &FileChange<'_>, node: &Node) -> bool
    ensures { result ≡ is_left (act_of change.now) node.now }
{
    match change {
        FileChange::Nothing => true,
        FileChange::Put { place, standing: _ } => **place != node.place,
        FileChange::Remove { place } => !is_at_or_above(place, &node.place),
        FileChange::Carry { from, to, moving } => stays(from, to, *moving, node),
    }
}

/// Whether a node is copied by a change.
fn is_copied(change: &FileChange<'_>, node: &Node) -> bool
    ensures { result ≡ is_copied (act_of change.now) node.now }
{
    match change {
        FileChange::Carry {
            from,
            to: _,
            moving: _,
        } => is_at_or_above(from, &node.place),
        FileChange::Nothing
        | FileChange::Put {
            place: _,
            standing: _,
        }
        | FileChange::Remove { place: _ } => false,
    }
}

/// Whether this becomes of a node by a change.
pub fn passes(part: Part, change: &FileChange<'_>, node: &Node) -> bool
    ensures { result ≡ passes part (act_of change.now) node.now }
{
    match part {
        Part::Left => is_left(change, node),
        Part::Copied => is_copied(change, node),
    }
}
