//! What the holder of a secret may do, and at which places.
ghost use Rattle.std.specs.Prelude.{◌≡◌, is_some, IfOk, IsTrue};
ghost use Rattle.ocm_entry.specs.Proper.{is_short};
ghost use Rattle.ocm_rules.specs.Files.{below, overlap, parent_of};
ghost use Rattle.ocm_rules.specs.Holders.{permits, permits_carry};
ghost use Rattle.ocm_rules.specs.State.{view_in};

use ocm_base::NoMemory;
use ocm_entry::{Method, Place};
use ocm_path::Path;
use ocm_tables::Tables;
use ocm_tree::is_at_or_above;
use ocm_types::Rights;

/// Whether rights suffice for a method, which reads or writes.
pub fn permits(rights: Rights, method: Method) -> bool
    ensures { result ≡ permits rights method }
{
    match method {
        Method::Get | Method::Head | Method::List0 | Method::List1 => rights.read,
        Method::Put | Method::Delete | Method::Mkcol => rights.write,
    }
}

/// Whether rights suffice for a copy, which reads and writes, or for a move, which writes alone.
pub fn permits_carry(rights: Rights, moving: bool) -> bool
    ensures { result ≡ permits_carry rights moving }
{
    rights.write && (moving || rights.read)
}

/// The place at a path below a holder's root.
pub fn place_below(root: &Place, path: &Path) -> Result<Place, NoMemory>
    requires root { IsTrue (is_short root.now.path) }
    requires path { IsTrue (is_short path.now) }
    ensures { IfOk result (λ place. place ≡ below root.now path.now) }
{
    let path = root.path.join(path)?;
    Ok(Place {
        user: root.user,
        path,
    })
}

/// The place in which a place lies.
pub fn parent_of(place: &Place) -> Result<Place, NoMemory>
    ensures { IfOk result (λ parent. parent ≡ parent_of place.now) }
{
    let path = place.path.parent()?;
    Ok(Place {
        user: place.user,
        path,
    })
}

/// Whether one of two places is the other or lies above it.
pub fn overlap(a: &Place, b: &Place) -> bool
    ensures { result ≡ overlap a.now b.now }
{
    is_at_or_above(a, b) || is_at_or_above(b, a)
}

/// Whether something stands at a place.
pub fn stands(tables: &Tables, place: &Place) -> bool
    ensures { result ≡ is_some ((view_in tables.now.state).stands place.now) }
{
    tables.standing_at(place).is_some()
}
