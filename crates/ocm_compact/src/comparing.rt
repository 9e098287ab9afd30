//! Whether two replays come to lists that are alike.
ghost use Rattle.std.specs.Prelude.{◌≡◌, List, true};
ghost use Rattle.ocm_entry.specs.declared.entries.Entry.{Entry};
ghost use Rattle.ocm_law_alike.specs.Alike.{AreAlike};
ghost use Rattle.ocm_compact.specs.Replays.{IsReplayOf, home_of};

use crate::replays::Replay;
use ocm_base::{Bytes, List};

/// Whether the lists are the same texts.
fn same_texts(texts: &List<Bytes>, others: &List<Bytes>) -> bool
    ensures { result ≡ true → texts.now ≡ others.now }
{
    *texts == *others
}

/// Whether the same stands on two servers of one host at the same moment, after the same asks that are no ticks nor for
/// files at the same moments: so all their lists are alike.
pub fn are_alike(one: &Replay, other: &Replay) -> bool
    requires { home_of one.now ≡ home_of other.now }
    ensures { result ≡ true → (k l : List Entry) → IsReplayOf one.now k → IsReplayOf other.now l → AreAlike one.now.core.state other.now.core.state }
{
    if !same_texts(&one.others, &other.others) {
        return false;
    }
    one.core.moment() == other.core.moment() && one.core.files().stands_as(other.core.files())
}
