//! What is written of a history in records, and what records open to.
ghost use Rattle.std.specs.Prelude.{◌≡◌, ◌+◌, ◌<◌, ◌≤◌, ◌^◌, ◌∷◌, ◌++◌, [], ℕ, List, length, if◌then◌else◌, IsTrue, Some, None};
ghost use Rattle.ocm_entry.specs.declared.asks.Ask.{Ask};
ghost use Rattle.ocm_entry.specs.declared.entries.Entry.{Entry};
ghost use Rattle.ocm_entry.specs.Proper.{is_proper};
ghost use Rattle.ocm_entry_bytes.specs.Spells.{AreBytes, has_spelling};
ghost use Rattle.ocm_journal_image.specs.declared.readings.RawRecord.{RawRecord};
ghost use Rattle.ocm_journal_image.specs.Layout.{AreRecords, blocks_size, contents};
ghost use Rattle.ocm_rules.specs.History.{IsAnswered, IsLegal, answer_kept, changes, kept};
ghost use Rattle.ocm_rules.specs.Lean.{emptied_among, lean};
ghost use Rattle.ocm_rules.specs.Shares.{moment};
ghost use Rattle.ocm_law_sessions.specs.Readings.{goes_on, opened, refused_at};
ghost use Rattle.ocm_law_sessions.specs.Sessions.{would_change};
ghost use Rattle.ocm_law_sessions.specs.Written.{AreAllBytes, IsSpelled, TicksApart, ask_records, asks_size, ends_with_tick, record_of, records_of};

/// The records that are written for a list open to it: for a list of entries with their answers, each
/// of which changes something, where no tick directly follows a tick and each ask has a spelling.
pub fn what_is_written_is_read()
    ensures { (host : List ℕ) (k : List Entry) → IsAnswered host k → TicksApart k → IsSpelled k → opened host 2 (records_of k) ≡ Some k }
{}

/// The records that are written for the lean list of a legal history open to it.
pub fn a_lean_list_is_written_and_read()
    ensures { (host : List ℕ) (g : List Entry) → IsLegal host g → IsSpelled (lean host g) → opened host 2 (records_of (lean host g)) ≡ Some (lean host g) }
{}

/// With one record more, what records open to goes on by it.
pub fn a_record_goes_on()
    ensures { (host : List ℕ) (form : ℕ) (records : List (List ℕ)) (r : List ℕ) (k : List Entry) → opened host form records ≡ Some k → opened host form (records ++ r ∷ []) ≡ goes_on host form k r }
{}

/// In an area of either form, a list goes on by the record of an entry to that entry: where the entry
/// has the answer after the list and changes something, and each ask has a spelling.
pub fn an_entry_goes_on_by_its_record()
    ensures { (host : List ℕ) (form : ℕ) (k : List Entry) (e : Entry) → e.reply ≡ answer_kept host k e.ask → IsTrue (changes host k e) → IsSpelled (e ∷ k) → goes_on host form k (record_of form k e) ≡ Some (e ∷ k) }
{}

/// Each entry of what records open to has the answer after those before it and changes something. So
/// all of it is kept, and it is a legal history.
pub fn what_is_opened_is_legal()
    ensures answered { (host : List ℕ) (form : ℕ) (records : List (List ℕ)) (k : List Entry) → opened host form records ≡ Some k → IsAnswered host k }
    ensures kept { (host : List ℕ) (form : ℕ) (records : List (List ℕ)) (k : List Entry) → opened host form records ≡ Some k → kept host k ≡ k }
    ensures legal { (host : List ℕ) (form : ℕ) (records : List (List ℕ)) (k : List Entry) → opened host form records ≡ Some k → IsLegal host k }
{}

/// Each ask of what records open to has a spelling, and so it stays with each record more.
pub fn what_is_opened_is_spelled()
    ensures opened { (host : List ℕ) (form : ℕ) (records : List (List ℕ)) (k : List Entry) → AreAllBytes records → opened host form records ≡ Some k → IsSpelled k }
    ensures goes_on { (host : List ℕ) (form : ℕ) (k : List Entry) (bytes : List ℕ) (now : List Entry) → IsSpelled k → AreBytes bytes → goes_on host form k bytes ≡ Some now → IsSpelled now }
{}

/// Records open to a list exactly where none of them is refused. The first that is refused is the one
/// by which the list of those before it does not go on.
pub fn records_open_where_none_is_refused()
    ensures opens { (host : List ℕ) (form : ℕ) (records : List RawRecord) → refused_at host form records ≡ None → (k : List Entry) × (opened host form (contents records) ≡ Some k) }
    ensures none { (host : List ℕ) (form : ℕ) (records : List RawRecord) (k : List Entry) → opened host form (contents records) ≡ Some k → refused_at host form records ≡ None }
    ensures refused { (host : List ℕ) (form : ℕ) (records : List RawRecord) (place : ℕ) → refused_at host form records ≡ Some place → opened host form (contents records) ≡ None }
    ensures first { (host : List ℕ) (form : ℕ) (front rest : List RawRecord) (r : RawRecord) (k : List Entry) → opened host form (contents front) ≡ Some k → goes_on host form k r.bytes ≡ None
        → refused_at host form (front ++ r ∷ rest) ≡ Some r.place }
{}

/// An ask that would change something has a spelling, where it is proper.
pub fn changes_have_spellings()
    ensures { (host : List ℕ) (g : List Entry) (ask : Ask) → IsTrue (is_proper ask) → IsTrue (would_change host g ask) → IsTrue (has_spelling ask) }
{}

/// Where each ask has a spelling, each record has the length of one, and the moment fits into eight
/// bytes. So it stays in the lean list.
pub fn spelled_lists_have_records()
    ensures one { (form : ℕ) (k : List Entry) (e : Entry) → IsSpelled (e ∷ k) → (1 ≤ length (record_of form k e)) × (length (record_of form k e) ≤ 2097152) }
    ensures all { (k : List Entry) → IsSpelled k → AreRecords (records_of k) }
    ensures moment { (k : List Entry) → IsSpelled k → moment k < 2 ^ 64 }
    ensures lean { (host : List ℕ) (g : List Entry) → IsSpelled (kept host g) → IsSpelled (lean host g) }
{}

/// The records of a list take 13 bytes and the spelling for each entry that is no tick, and 13 bytes
/// for a tick that is the newest.
pub fn sizes_of_records_add_up()
    ensures asks { (k : List Entry) → blocks_size (ask_records k) ≡ asks_size k }
    ensures all { (k : List Entry) → blocks_size (records_of k) ≡ asks_size k + (if ends_with_tick k then 13 else 0) }
{}

/// A tick that another follows at once has no record of its own: the records of a lean list are those
/// of all kept entries, each without its body where that no longer stands.
pub fn passed_ticks_have_no_records()
    ensures { (host : List ℕ) (g : List Entry) → records_of (lean host g) ≡ records_of (emptied_among host (kept host g) (kept host g)) }
{}
