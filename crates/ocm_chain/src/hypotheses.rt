//! What would be, were a share closed or limited.
ghost use Rattle.std.specs.Prelude.{◌≡◌, ◌<◌, ◌≤◌, ◌∷◌, [], ℕ, suc, length, List, Some, IfOk, filter, map, if◌then◌else◌};
ghost use Rattle.std.specs.List.{range_with_len};
ghost use Rattle.ocm_limits.specs.Limits.{most_shares};
ghost use Rattle.ocm_types.specs.Rights.{is_within};
ghost use Rattle.ocm_rules.specs.declared.rows.ShareRow.{ShareRow};
ghost use Rattle.ocm_chain.specs.Hypotheses.{AreReaches, change_alone, change_among, is_cut_among, is_cut_by, is_other_by, is_told_among, reaches_of, told_by, with_own};
ghost use Rattle.ocm_chain.specs.Reaches.{AreLower, AreRight, owns, reach_above, reach_at, reach_goes_on};

use crate::answers::Change;
use crate::reaches::{Reach, Row};
use crate::settling::reach_above;
use ocm_base::{List, NoMemory};
use ocm_types::{Perms, Rights};
use std::alloc::Global;

/// What is left above a share with this parent, by what is left at each of the first shares.
fn above_among(reaches: &[Reach], parent: Option<u32>) -> Reach
    requires { (p : ℕ) → parent ≡ Some p → (1 ≤ p) × (p ≤ length reaches.now) }
    ensures { (shares : List ShareRow) → AreReaches shares reaches.now (length reaches.now) → result ≡ reach_above shares parent }
{
    match parent {
        Some(parent) => reaches[parent as usize - 1],
        None => Reach::whole(),
    }
}

/// What would be left at the share of an index, were the permissions of one these and it closed or
/// not, by what would be left at each share before.
fn reach_with(
    rows: &[Row],
    reaches: &[Reach],
    index: usize,
    id: u32,
    rights: Rights,
    closed: bool,
) -> Reach
    requires within { index < length rows.now }
    requires lower { AreLower (owns rows.now) }
    requires before { AreReaches (with_own (owns rows.now) id rights closed) reaches.now index }
    ensures { result ≡ reach_at (with_own (owns rows.now) id rights closed) (suc index) }
{
    let own = &rows[index].own;
    let above = above_among(reaches, own.share.parent);
    if index + 1 == id as usize {
        return Reach::of(closed, rights, own.end, above);
    }
    Reach::of(own.closed, own.perms.rights(), own.end, above)
}

/// What would be left at each share, were the permissions of one these and it closed or not.
pub fn reaches_with(
    alloc: Global,
    rows: &[Row],
    id: u32,
    rights: Rights,
    closed: bool,
) -> Result<Vec<Reach>, NoMemory>
    requires few { length rows.now ≤ most_shares }
    requires lower { AreLower (owns rows.now) }
    ensures { IfOk result (λ reaches. AreReaches (with_own (owns rows.now) id rights closed) reaches.items (length rows.now)) }
{
    let mut reaches = Vec::new(alloc);
    for index in 0..rows.len() {
        let reach = reach_with(rows, &reaches, index, id, rights, closed);
        reaches.push(reach)?;
    }
    Ok(reaches)
}

/// What would be left at the share of a number, were its permissions these and it closed or not.
pub fn reach_alone(rows: &[Row], id: u32, rights: Rights, closed: bool) -> Reach
    requires low { 1 ≤ id }
    requires high { id ≤ length rows.now }
    requires lower { AreLower (owns rows.now) }
    requires right { AreRight rows.now (length rows.now) }
    ensures { result ≡ reach_at (with_own (owns rows.now) id rights closed) id }
{
    let own = &rows[id as usize - 1].own;
    let above = reach_above(rows, own.share.parent);
    Reach::of(closed, rights, own.end, above)
}

/// Whether what is left before goes on at this moment, and what is left after doesn't.
fn is_cut(before: Reach, after: Reach, moment: u64) -> bool
    ensures { result ≡ is_cut_by moment before after }
{
    before.goes_on(moment) && !after.goes_on(moment)
}

/// The numbers of the shares that go on at this moment, and would not by what is left after.
pub fn cut_among(
    alloc: Global,
    rows: &[Row],
    after: &[Reach],
    moment: u64,
) -> Result<List<u32>, NoMemory>
    requires few { length rows.now ≤ most_shares }
    requires as_many { length after.now ≡ length rows.now }
    ensures { IfOk result (λ list. list ≡ filter (is_cut_among moment (reaches_of rows.now) after.now) (range_with_len 1 (length rows.now))) }
{
    let mut numbers = Vec::new(alloc);
    for index in 0..rows.len() {
        if is_cut(rows[index].reach, after[index], moment) {
            numbers.push(index as u32 + 1)?;
        }
    }
    Ok(List::from_vec(numbers))
}

/// The number of a share with none below it, where it goes on at this moment.
pub fn cut_alone(alloc: Global, id: u32, reach: Reach, moment: u64) -> Result<List<u32>, NoMemory>
    ensures { IfOk result (λ list. list ≡ (if reach_goes_on moment reach then id ∷ [] else [])) }
{
    let mut numbers = Vec::new(alloc);
    if reach.goes_on(moment) {
        numbers.push(id)?;
    }
    Ok(List::from_vec(numbers))
}

/// Whether each right of the first is among the second.
fn is_within(a: Rights, b: Rights) -> bool
    ensures { result ≡ is_within a b }
{
    (!a.read || b.read) && (!a.write || b.write) && (!a.share || b.share)
}

/// Whether a share goes on at this moment, and its guest may do something else after than before.
fn is_other(before: Reach, after: Reach, moment: u64) -> bool
    ensures { result ≡ is_other_by moment before after }
{
    let same = is_within(after.effective, before.effective)
        && is_within(before.effective, after.effective);
    before.goes_on(moment) && !same
}

/// The permissions that the guest of a share is told, if any: the share goes on at this moment, and
/// its guest may do something after, and something else than before.
fn told(before: Reach, after: Reach, moment: u64) -> Option<Perms>
    ensures { result ≡ told_by moment before after }
{
    if is_other(before, after, moment) {
        Perms::of(after.effective)
    } else {
        None
    }
}

/// What the guest of a share with none below it is told, if anything.
pub fn changes_alone(
    alloc: Global,
    id: u32,
    before: Reach,
    after: Reach,
    moment: u64,
) -> Result<List<Change>, NoMemory>
    ensures { IfOk result (λ list. list ≡ change_alone id (told_by moment before after)) }
{
    let mut changes = Vec::new(alloc);
    if let Some(perms) = told(before, after, moment) {
        changes.push(Change { id, perms })?;
    }
    Ok(List::from_vec(changes))
}

/// What the guests of the shares that go on at this moment are told, by what is left after.
pub fn changes_among(
    alloc: Global,
    rows: &[Row],
    after: &[Reach],
    moment: u64,
) -> Result<List<Change>, NoMemory>
    requires few { length rows.now ≤ most_shares }
    requires as_many { length after.now ≡ length rows.now }
    ensures { IfOk result (λ list. list ≡ map (change_among after.now) (filter (is_told_among moment (reaches_of rows.now) after.now) (range_with_len 1 (length rows.now)))) }
{
    let mut changes = Vec::new(alloc);
    for index in 0..rows.len() {
        match told(rows[index].reach, after[index], moment) {
            Some(perms) => changes.push(Change {
                id: index as u32 + 1,
                perms,
            })?,
            None => {}
        }
    }
    Ok(List::from_vec(changes))
}
