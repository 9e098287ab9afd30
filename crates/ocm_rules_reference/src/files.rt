ghost use Rattle.std.specs.Prelude.{◌≡◌, ◌+◌, ◌-◌, ◌++◌, ◌<◌, ◌≤◌, ◌^◌, min, IfOk, OnOk, IsTrue, length, nat_lt, if◌then◌else◌, Some, None};
ghost use Rattle.ocm_limits.specs.Limits.{most_children, most_file_bytes, most_nodes, most_stored_bytes};
ghost use Rattle.ocm_entry.specs.Proper.{is_short};
ghost use Rattle.ocm_entry.specs.declared.asks.Ask.TheVariants as asks;
ghost use Rattle.ocm_rules.specs.Files.{act_after, act_by, at, below, child_count, left_at, limit_of, nodes, parent_of, passed_by, same_place, size_of, total_size, with_node};
ghost use Rattle.ocm_rules.specs.Holders.{root_among};
ghost use Rattle.ocm_rules_reference.specs.Histories.{ArePlain, AreShort, gets_or_puts, is_plain, put_of};

use crate::shares::{made_of, root_of};
use crate::users::users_of;
use ocm_base::{Bytes, List, NoMemory};
use ocm_entry::{Ask, Entry, Method, Node, Place, Share, Standing, User};
use ocm_limits::{MOST_CHILDREN, MOST_FILE_BYTES, MOST_NODES, MOST_STORED_BYTES};
use ocm_path::Path;
use ocm_types::{Host, Secret, Which};
use std::alloc::Global;

/// Whether two places are the same path of the same user.
fn same_place(first: &Place, second: &Place) -> bool
    ensures { result ≡ same_place first.now second.now }
{
    first.user == second.user && first.path == second.path
}

/// The place at a path below this one.
pub fn below(root: &Place, path: &Path) -> Result<Place, NoMemory>
    requires root { IsTrue (is_short root.now.path) }
    requires path { IsTrue (is_short path.now) }
    ensures { IfOk result (λ place. place ≡ below root.now path.now) }
{
    let path = root.path.join(path)?;
    Ok(Place {
        user: root.user,
        path,
    })
}

/// The place in which this one lies.
pub fn parent_of(place: &Place) -> Result<Place, NoMemory>
    ensures { IfOk result (λ parent. parent ≡ parent_of place.now) }
{
    let path = place.path.parent()?;
    Ok(Place {
        user: place.user,
        path,
    })
}

/// The file that a kept ask puts, where these are the users and the shares before it.
fn put_by(
    alloc: Global,
    users: &[User],
    shares: &[Share],
    ask: &Ask,
) -> Result<Option<Node>, NoMemory>
    requires plain { IsTrue (is_plain ask.now) }
    requires users { length users.now < 2 ^ 32 - 1 }
    requires shares { length shares.now < 2 ^ 32 - 1 }
    requires short { AreShort shares.now }
    ensures { IfOk result (λ node. put_of node ≡ act_by (root_among users.now shares.now) ask.now) }
{
    match ask {
        Ask::Dav {
            secret,
            method,
            path,
            body,
        } => put_with(alloc, users, shares, secret, *method, path, body),
        Ask::AddUser { .. } | Ask::Local { .. } => Ok(None),
        Ask::Offer { .. }
        | Ask::Notice { .. }
        | Ask::Due
        | Ask::Settle { .. }
        | Ask::Tick { .. }
        | Ask::Carry { .. } => unreachable!(),
    }
}

/// The file that a kept request of the holder of a secret puts.
fn put_with(
    alloc: Global,
    users: &[User],
    shares: &[Share],
    secret: &Secret,
    method: Method,
    path: &Path,
    body: &Bytes,
) -> Result<Option<Node>, NoMemory>
    requires method { IsTrue (gets_or_puts method) }
    requires path { IsTrue (is_short path.now) }
    requires users { length users.now < 2 ^ 32 - 1 }
    requires shares { length shares.now < 2 ^ 32 - 1 }
    requires short { AreShort shares.now }
    ensures { IfOk result (λ node. put_of node ≡ act_by (root_among users.now shares.now) (asks.Dav secret.now method path.now body.now)) }
{
    match method {
        Method::Get => Ok(None),
        Method::Put => {
            let Some(root) = root_of(alloc, users, shares, secret)? else {
                return Ok(None);
            };
            let place = below(&root, path)?;
            let standing = Standing::File { body: body.copy()? };
            Ok(Some(Node { place, standing }))
        }
        Method::Head | Method::Delete | Method::Mkcol | Method::List0 | Method::List1 => {
            unreachable!()
        }
    }
}

/// The file that the first of these kept entries puts, which is the newest.
fn put_first(
    alloc: Global,
    host: &Host,
    entry: &Entry,
    before: &[Entry],
) -> Result<Option<Node>, NoMemory>
    requires one { IsTrue (is_plain entry.now.ask) }
    requires plain { ArePlain before.now }
    requires few { length before.now < 2 ^ 32 - 1 }
    ensures { IfOk result (λ node. put_of node ≡ act_after host.now before.now entry.now.ask) }
{
    let users = users_of(alloc, before)?;
    let shares = made_of(alloc, host, before)?;
    let node = put_by(alloc, users.as_slice(), shares.as_slice(), &entry.ask)?;
    Ok(node)
}

/// What the last kept entry that put something at a place left there.
fn left_at(
    alloc: Global,
    host: &Host,
    entries: &[Entry],
    place: &Place,
) -> Result<Option<Standing>, NoMemory>
    requires plain { ArePlain entries.now }
    requires few { length entries.now < 2 ^ 32 }
    ensures { IfOk result (λ standing. standing ≡ left_at host.now entries.now place.now) }
{
    match entries {
        [] => Ok(None),
        [entry, before @ ..] => {
            match put_first(alloc, host, entry, before)? {
                Some(node) if same_place(&node.place, place) => Ok(Some(node.standing)),
                _ => {
                    let older = left_at(alloc, host, before, place)?;
                    Ok(older)
                }
            }
        }
    }
}

/// What stands at a place after kept entries; a user's root is a collection.
pub fn standing_at(
    alloc: Global,
    host: &Host,
    entries: &[Entry],
    place: &Place,
) -> Result<Option<Standing>, NoMemory>
    requires plain { ArePlain entries.now }
    requires few { length entries.now < 2 ^ 32 }
    ensures { IfOk result (λ standing. standing ≡ at host.now entries.now place.now) }
{
    if place.path.is_root() {
        return Ok(Some(Standing::Collection));
    }
    let standing = left_at(alloc, host, entries, place)?;
    Ok(standing)
}

/// The nodes once a node stands: in the place of what stood there, or as one more.
fn with_node(alloc: Global, nodes: &[Node], node: &Node) -> Result<List<Node>, NoMemory>
    ensures { IfOk result (λ after. after ≡ with_node nodes.now node.now) }
{
    let mut after = List::new(alloc);
    add_with_node(&mut after, nodes, node)?;
    Ok(after)
}

/// Adds these nodes once a node stands among them.
fn add_with_node(after: &mut List<Node>, others: &[Node], node: &Node) -> Result<(), NoMemory>
    ensures { OnOk result (after.new ≡ after.old ++ with_node others.now node.now) }
{
    match others {
        [] => {
            after.push(node.copy()?)?;
            Ok(())
        }
        [other, rest @ ..] => {
            if same_place(&other.place, &node.place) {
                after.push(node.copy()?)?;
                add_copies(after, rest)?;
                return Ok(());
            }
            after.push(other.copy()?)?;
            add_with_node(after, rest, node)?;
            Ok(())
        }
    }
}

/// Adds copies of nodes to a list.
fn add_copies(after: &mut List<Node>, nodes: &[Node]) -> Result<(), NoMemory>
    ensures { OnOk result (after.new ≡ after.old ++ nodes.now) }
{
    match nodes {
        [] => Ok(()),
        [node, rest @ ..] => {
            after.push(node.copy()?)?;
            add_copies(after, rest)?;
            Ok(())
        }
    }
}

/// All that stands after kept entries, each place once, without the users' roots.
fn nodes_of(alloc: Global, host: &Host, entries: &[Entry]) -> Result<List<Node>, NoMemory>
    requires plain { ArePlain entries.now }
    requires few { length entries.now < 2 ^ 32 }
    ensures { IfOk result (λ found. found ≡ nodes host.now entries.now) }
{
    match entries {
        [] => Ok(List::new(alloc)),
        [entry, before @ ..] => {
            let older = nodes_of(alloc, host, before)?;
            match put_first(alloc, host, entry, before)? {
                None => Ok(older),
                Some(node) => {
                    let after = with_node(alloc, older.as_slice(), &node)?;
                    Ok(after)
                }
            }
        }
    }
}

/// The bytes of what stands.
fn size_of(standing: &Standing) -> u64
    ensures { result ≡ size_of standing.now }
{
    match standing {
        Standing::Collection => 0,
        Standing::File { body } => body.len() as u64,
    }
}

/// The bytes of all files, or the largest number where that is more.
fn total_size(nodes: &[Node]) -> u64
    ensures { result ≡ min (total_size nodes.now) (2 ^ 64 - 1) }
{
    match nodes {
        [] => 0,
        [node, others @ ..] => size_of(&node.standing).saturating_add(total_size(others)),
    }
}

/// How many nodes lie in a collection.
fn child_count(nodes: &[Node], place: &Place) -> Result<usize, NoMemory>
    ensures count { IfOk result (λ count. count ≡ child_count nodes.now place.now) }
    ensures few { IfOk result (λ count. count ≤ length nodes.now) }
{
    match nodes {
        [] => Ok(0),
        [node, others @ ..] => {
            let count = child_count(others, place)?;
            let parent = parent_of(&node.place)?;
            if same_place(&parent, place) {
                return Ok(1 + count);
            }
            Ok(count)
        }
    }
}

/// Whether all files have more bytes than they may.
#[tactic(auto, using(crate::proofs::Lists::over_all_files))]
fn passes_all_files(nodes: &[Node]) -> bool
    ensures { result ≡ nat_lt most_stored_bytes (total_size nodes.now) }
{
    total_size(nodes) > MOST_STORED_BYTES
}

/// The first limit that the nodes pass, where this node is the one that was put last.
fn passed_by(nodes: &[Node], node: &Node) -> Result<Option<Which>, NoMemory>
    ensures { IfOk result (λ passed. passed ≡ passed_by nodes.now node.now) }
{
    let parent = parent_of(&node.place)?;
    let children = child_count(nodes, &parent)?;
    let size = size_of(&node.standing);
    Ok(first_passed(size, passes_all_files(nodes), nodes.len(), children))
}

/// The first limit that is passed: the bytes of a file, whether all files have more than they may,
/// how many nodes there are, and how many of them lie in the file's collection.
fn first_passed(size: u64, over: bool, count: usize, children: usize) -> Option<Which>
    ensures { result ≡ (if nat_lt most_file_bytes size then Some Which.FileSize
        else (if over then Some Which.AllFiles
        else (if nat_lt most_nodes count then Some Which.Nodes
        else (if nat_lt most_children children then Some Which.Children else None)))) }
{
    if size > MOST_FILE_BYTES {
        Some(Which::FileSize)
    } else if over {
        Some(Which::AllFiles)
    } else if count > MOST_NODES as usize {
        Some(Which::Nodes)
    } else if children > MOST_CHILDREN as usize {
        Some(Which::Children)
    } else {
        None
    }
}

/// The first limit that would be passed once this node stands after kept entries.
pub fn limit_of(
    alloc: Global,
    host: &Host,
    entries: &[Entry],
    node: &Node,
) -> Result<Option<Which>, NoMemory>
    requires plain { ArePlain entries.now }
    requires few { length entries.now < 2 ^ 32 }
    ensures { IfOk result (λ limit. limit ≡ limit_of (nodes host.now entries.now) node.now) }
{
    let nodes = nodes_of(alloc, host, entries)?;
    let after = with_node(alloc, nodes.as_slice(), node)?;
    let passed = passed_by(after.as_slice(), node)?;
    Ok(passed)
}
