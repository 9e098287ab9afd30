//! Marks of the bytes that were written since the last sync, a bit for each.

ghost use Rattle.std.specs.Prelude.{◌≡◌, ℕ, ◌≤◌, ◌<◌, ◌+◌, ◌-◌, ◌*◌, ◌^◌, ◌==◌, length};
ghost use Rattle.ocm_disk.specs.Marks.{mark_at, ruined};

/// Marks the bytes from a place up to another.
pub(crate) fn mark(words: &mut [u8], from: usize, to: usize)
    requires order { from ≤ to }
    requires within { to ≤ 8 * length words.old }
    ensures marked { (place : ℕ) → from ≤ place → place < to → mark_at words.new place ≡ 1 }
    ensures before { (place : ℕ) → place < from → mark_at words.new place ≡ mark_at words.old place }
    ensures behind { (place : ℕ) → to ≤ place → mark_at words.new place ≡ mark_at words.old place }
{
    for at in from / 8..to.div_ceil(8) {
        let start = 8 * at;
        words[at] |= ones(from.saturating_sub(start), (to - start).min(8));
    }
}

/// A word with the bits from `low` up to `high`.
fn ones(low: usize, high: usize) -> u8
    requires order { low ≤ high }
    requires within { high ≤ 8 }
    ensures { result ≡ 2 ^ high - 2 ^ low }
{
    ((1u16 << high) - (1u16 << low)) as u8
}

/// Takes all marks away, which lie from a place up to another.
pub(crate) fn unmark(words: &mut [u8], from: usize, to: usize)
    requires within { to ≤ 8 * length words.old }
    requires before { (place : ℕ) → place < from → mark_at words.old place ≡ 0 }
    requires behind { (place : ℕ) → to ≤ place → mark_at words.old place ≡ 0 }
    ensures { (place : ℕ) → mark_at words.new place ≡ 0 }
{
    let end = to.div_ceil(8);
    words[end.min(from / 8)..end].fill(0);
}

/// Whether the byte at a place is marked.
fn is_marked(words: &[u8], place: usize) -> bool
    requires { place < 8 * length words.now }
    ensures { result ≡ (mark_at words.now place == 1) }
{
    (words[place / 8] >> (place % 8)) & 1 == 1
}

/// Puts `ee` in place of each byte that is marked.
pub(crate) fn ruin(bytes: &mut [u8], words: &[u8])
    requires { length bytes.old ≤ 8 * length words.now }
    ensures { bytes.new ≡ ruined words.now bytes.old }
{
    for (place, byte) in bytes.iter_mut().enumerate() {
        if is_marked(words, place) {
            *byte = 0xee;
        }
    }
}
