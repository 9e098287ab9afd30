//! Laws of the definitions, each the contract of a function that computes nothing.

ghost use Rattle.std.specs.Prelude.{◌≡◌, ◌<◌, ◌≤◌, ◌++◌, [], List, ℕ, length, Some, Ok, IsTrue};
ghost use Rattle.ocm_path.specs.Paths.{path_text};
ghost use Rattle.ocm_path.specs.PathTexts.{path_with_text};
ghost use Rattle.ocm_entry.specs.declared.asks.Ask as asks;
ghost use Rattle.ocm_entry_bytes.specs.Reading.{ask_of};
ghost use Rattle.ocm_entry.specs.Proper.{is_short};
ghost use Rattle.ocm_entry_bytes.specs.Spells.{AreBytes, Spells, has_spelling};

use ocm_path::Path;

/// Reading takes the spellings of asks, and nothing else.
pub fn spellings_are_what_is_read()
    ensures spelled { (bytes : List ℕ) (ask : asks.Ask) → AreBytes bytes
        → ask_of bytes ≡ Ok ask → Spells ask bytes }
    ensures read { (bytes : List ℕ) (ask : asks.Ask) → Spells ask bytes → ask_of bytes ≡ Ok ask }
{}

/// Bytes spell one ask at most, an ask has one spelling at most, and no spelling is the front of
/// another.
pub fn asks_have_one_spelling()
    ensures one_ask { (a b : asks.Ask) (bytes : List ℕ) → Spells a bytes → Spells b bytes → a ≡ b }
    ensures one_spelling { (ask : asks.Ask) (x y : List ℕ) → Spells ask x → Spells ask y → x ≡ y }
    ensures no_front { (a b : asks.Ask) (front rest : List ℕ)
        → Spells a front → Spells b (front ++ rest) → rest ≡ [] }
{}

/// The asks that bytes spell are those that pass the test for it.
pub fn spelled_asks_have_spellings()
    ensures { (ask : asks.Ask) (bytes : List ℕ) → Spells ask bytes → IsTrue (has_spelling ask) }
{}

/// A spelling has some bytes, and at most 1,200,000.
pub fn spellings_have_lengths()
    ensures { (ask : asks.Ask) (bytes : List ℕ) → Spells ask bytes
        → (0 < length bytes) × (length bytes ≤ 1200000) }
{}

/// The text of a path is read as that path, where it has at most 1,024 bytes.
pub fn short_path_reads_its_text(path: &Path)
    requires { IsTrue (is_short path.now) }
    ensures { path_with_text (path_text path.now) ≡ Some path.now }
{
    let _segments = path.segments();
}
