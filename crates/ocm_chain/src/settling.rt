//! How the rows keep what is left at their shares.
ghost use Rattle.std.specs.Prelude.{◌≡◌, ◌<◌, ◌≤◌, ◌+◌, ℕ, suc, length, true, Some, slice_get};
ghost use Rattle.ocm_limits.specs.Limits.{most_shares};
ghost use Rattle.ocm_rules.specs.Numbers.{at_number};
ghost use Rattle.ocm_chain.specs.declared.reaches.Row.{Row};
ghost use Rattle.ocm_chain.specs.Hypotheses.{reaches_of};
ghost use Rattle.ocm_chain.specs.Lists.{made_of, IsAmongFirst};
ghost use Rattle.ocm_chain.specs.Reaches.{AreLower, AreMarked, AreRight, AreRightFrom, IsChildless, IsRightAt, marks_of, owns, reach_above, reach_at};

use crate::reaches::{Reach, Row};

/// What is left above a share with this parent.
pub fn reach_above(rows: &[Row], parent: Option<u32>) -> Reach
    requires { (p : ℕ) → parent ≡ Some p → IsRightAt rows.now p }
    ensures { result ≡ reach_above (owns rows.now) parent }
{
    match parent {
        Some(parent) => rows[parent as usize - 1].reach,
        None => Reach::whole(),
    }
}

/// What is left at the share of this index, where the rows before it tell theirs.
pub fn reach_in(rows: &[Row], index: usize) -> Reach
    requires within { index < length rows.now }
    requires lower { AreLower (owns rows.now) }
    requires right { AreRight rows.now index }
    ensures { result ≡ reach_at (owns rows.now) (suc index) }
{
    let own = &rows[index].own;
    let above = reach_above(rows, own.share.parent);
    Reach::of(own.closed, own.perms.rights(), own.end, above)
}

/// The index behind the last share at which a change of this one can leave something else: the next
/// where it has none below it, else that behind all.
pub fn touched_to(rows: &[Row], index: usize) -> usize
    requires few { length rows.now ≤ most_shares }
    requires within { index < length rows.now }
    requires marks { AreMarked (made_of (owns rows.now)) (marks_of rows.now) }
    ensures from { index < result }
    ensures to { result ≤ length rows.now }
    ensures apart { result < length rows.now → IsChildless (made_of (owns rows.now)) (suc index) }
{
    if rows[index].is_parent {
        return rows.len();
    }
    index + 1
}

/// Lets each row from an index on and before another tell what is left at its share, where all
/// others do.
pub fn settle(rows: &mut [Row], from: usize, to: usize)
    requires order { from ≤ to }
    requires within { to ≤ length rows.old }
    requires lower { AreLower (owns rows.old) }
    requires before { AreRight rows.old from }
    requires behind { AreRightFrom rows.old to }
    ensures owns { owns rows.new ≡ owns rows.old }
    ensures marks { marks_of rows.new ≡ marks_of rows.old }
    ensures right { AreRight rows.new (length rows.new) }
{
    for index in from..to {
        let reach = reach_in(rows, index);
        rows[index].reach = reach;
    }
}

/// Lets the row of a parent tell that a share is made below it.
pub fn mark_parent(rows: &mut [Row], parent: Option<u32>)
    requires { IsAmongFirst (length rows.old) parent }
    ensures owns { owns rows.new ≡ owns rows.old }
    ensures reaches { reaches_of rows.new ≡ reaches_of rows.old }
    ensures marked { (p : ℕ) → parent ≡ Some p → at_number (marks_of rows.new) p ≡ Some true }
    ensures others { (i : ℕ) → (parent ≡ Some i → ⊥) → at_number (marks_of rows.new) i ≡ at_number (marks_of rows.old) i }
{
    if let Some(parent) = parent {
        rows[parent as usize - 1].is_parent = true;
    }
}
