ghost use Rattle.std.specs.Prelude.{◌≡◌, List, ◌∷◌, IsTrue};
ghost use Rattle.ocm_entry.specs.Fitting.{Fits};
ghost use Rattle.ocm_entry.specs.Proper.{is_proper};
ghost use Rattle.ocm_entry.specs.declared.asks.Ask as asks;
ghost use Rattle.ocm_entry.specs.declared.entries.Entry.{Entry};
ghost use Rattle.ocm_entry.specs.declared.replies.Reply as replies;

use crate::asks::Ask;
use crate::replies::Reply;

/// What is asked one thing at a time, and answers by a history.
///
/// A history is two lists of entries, each with the newest first: a base, which was there before the
/// value was made, and the calls since then. Which of them a value stands for, and which are legal,
/// is the implementation's to say. Whoever calls a value of this trait knows no more of it.
pub trait Object: Drop {
    /// Plain data on which it depends what is legal, as a server's name. It never changes.
    type Terms: Drop;

    // The terms of a value.
    ghost terms: { Self → Self.Terms };

    // Whether a value stands for a base and calls.
    ghost stands: { Self → List Entry → List Entry → Type 0 };

    // Whether a base and calls are legal under given terms.
    ghost legal: { Self.Terms → List Entry → List Entry → Type 0 };

    /// Takes one step and answers it.
    fn act(&mut self, ask: Ask) -> Reply
        requires proper { IsTrue (is_proper ask) }
        ensures terms { terms self.new ≡ terms self.old }
        ensures stands { (k h : List Entry) → stands self.old k h → legal (terms self.old) k h → stands self.new k (record { ask = ask; reply = result } ∷ h) }
        ensures legal { (k h : List Entry) → stands self.old k h → legal (terms self.old) k h → legal (terms self.old) k (record { ask = ask; reply = result } ∷ h) };

    // The newest reply of a legal history fits its ask.
    ghost fits: { (t : Self.Terms) (k h : List Entry) (ask : asks.Ask) (reply : replies.Reply) → legal t k (record { ask = ask; reply = reply } ∷ h) → Fits ask reply };
}
