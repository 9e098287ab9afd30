//! Where all that stands comes from: for each place the number of the kept entry that put what stands
//! there, carried along by copies and moves. Each law is the contract of a function that does nothing.
//!
//! Histories stand newest first, and their oldest entry has the number 1: `later ++ g` is a history
//! that went on after `g`. All laws hold of every list of entries, also of one that no server could
//! have had.
#![tactic(auto)]

ghost use Rattle.std.specs.Prelude.{◌≡◌, ◌≤◌, ◌+◌, ◌∷◌, ◌++◌, ℕ, List, All, Option, None, Some, length, map, filter, true, false, is_some, if◌then◌else◌};
ghost use Rattle.std.specs.List.{AllZip, list_any};
ghost use Rattle.ocm_path.specs.Paths.{Segments};
ghost use Rattle.ocm_entry.specs.declared.asks.Ask.TheVariants.{Dav};
ghost use Rattle.ocm_entry.specs.declared.asks.Method.TheVariants.{Put};
ghost use Rattle.ocm_entry.specs.declared.entries.Entry.{Entry};
ghost use Rattle.ocm_entry.specs.declared.rows.Node.{Node};
ghost use Rattle.ocm_entry.specs.declared.rows.Place.{Place};
ghost use Rattle.ocm_entry.specs.declared.rows.Standing.TheVariants.{File};
ghost use Rattle.ocm_entry.specs.declared.rows.Standing.{Standing};
ghost use Rattle.ocm_rules.specs.Files.{Act, Placed, act_after, nodes, nodes_after};
ghost use Rattle.ocm_rules.specs.Lean.{places_of, still_stands};
ghost use Rattle.ocm_rules.specs.State.{EachOnce, node_at};
ghost use Rattle.ocm_law_origins.specs.Origins.{HaveSamePlaces, IsOriginOf, Origin, body_beside, body_from, is_from, origins, origins_after, put_by, put_of};

/// The origins are those of the nodes: they have the same places in the same order, after any list of
/// entries.
pub fn origins_are_of_what_stands()
    ensures { (host : List ℕ) (g : List Entry) → HaveSamePlaces (origins host g) (nodes host g) }
{}

/// What an entry put stands where the origins have its number, and nowhere else, after any list of
/// entries.
pub fn origins_tell_the_places()
    ensures { (host : List ℕ) (g : List Entry) (k : ℕ)
        → places_of host g k ≡ map (λ (o : Origin). o.place) (filter (is_from k) (origins host g)) }
{}

/// What stands at a place is what the entry put that its origin names: node by node, and also where it
/// is looked for by its place. This holds after any list of entries.
pub fn origins_tell_what_was_put()
    ensures node_by_node { (host : List ℕ) (g : List Entry) → AllZip (IsOriginOf (put_by host g)) (origins host g) (nodes host g) }
    ensures at_its_place { (host : List ℕ) (g : List Entry) → All (λ (o : Origin). node_at (nodes host g) o.place ≡ put_by host g o.number) (origins host g) }
{}

/// What stands was put by an entry of the list, after any list of entries.
pub fn origins_are_earlier()
    ensures { (host : List ℕ) (g : List Entry) → All (λ (o : Origin). (1 ≤ o.number) × (o.number ≤ length g)) (origins host g) }
{}

/// One more entry does to the origins what it does to files, and nothing where it does nothing to
/// files, after any list of entries.
pub fn origins_go_on_by_an_entry()
    ensures next { (host : List ℕ) (before : List Entry) (e : Entry)
        → origins host (e ∷ before) ≡ origins_after (act_after host before e.ask) (length before + 1) (origins host before) }
    ensures same { (host : List ℕ) (before : List Entry) (e : Entry)
        → act_after host before e.ask ≡ None → origins host (e ∷ before) ≡ origins host before }
{}

/// Origins of nodes, of any nodes, are the origins of what these become: by places, and by what each
/// entry put.
pub fn origins_stay_with_their_nodes()
    ensures places { (act : Option Act) (number : ℕ) (os : List Origin) (ns : List Node)
        → HaveSamePlaces os ns → HaveSamePlaces (origins_after act number os) (nodes_after act ns) }
    ensures put { (put : ℕ → Option Standing) (act : Option Act) (number : ℕ) (os : List Origin) (ns : List Node)
        → ((there : Place) (standing : Standing) → act ≡ Some (Placed there standing) → put number ≡ Some standing)
        → AllZip (IsOriginOf put) os ns → AllZip (IsOriginOf put) (origins_after act number os) (nodes_after act ns) }
{}

/// What the last entry does gives no origin a later number than its own: of any origins whose numbers
/// are at most this one.
pub fn origins_stay_earlier()
    ensures { (act : Option Act) (number : ℕ) (os : List Origin)
        → All (λ (o : Origin). o.number ≤ number) os → All (λ (o : Origin). o.number ≤ number) (origins_after act number os) }
{}

/// What an entry put still stands exactly where an origin has its number, after any list of entries.
pub fn origins_tell_what_still_stands()
    ensures { (host : List ℕ) (g : List Entry) (k : ℕ) → still_stands host g k ≡ list_any (is_from k) (origins host g) }
{}

/// By the number of an entry is found what it put, exactly where that still stands, after any list of
/// entries.
pub fn what_still_stands_is_found_by_its_number()
    ensures stands { (host : List ℕ) (g : List Entry) (k : ℕ) → still_stands host g k ≡ true → body_from (nodes host g) (origins host g) k ≡ put_by host g k }
    ensures gone { (host : List ℕ) (g : List Entry) (k : ℕ) → still_stands host g k ≡ false → body_from (nodes host g) (origins host g) k ≡ None }
    ensures found { (host : List ℕ) (g : List Entry) (k : ℕ) → is_some (body_from (nodes host g) (origins host g) k) ≡ still_stands host g k }
{}

/// What is found by a number is the node beside the first origin with that number: of any nodes of which
/// each place stands once, and their origins.
pub fn what_is_found_lies_beside_its_origin()
    ensures { (os : List Origin) (ns : List Node) (k : ℕ) → HaveSamePlaces os ns → EachOnce ns → body_from ns os k ≡ body_beside ns os k }
{}

/// What is found by a number is what its entry put, where an origin has that number: of any nodes of
/// which each place stands once, where their origins name entries that put what stands.
pub fn what_is_found_was_put()
    ensures { (put : ℕ → Option Standing) (os : List Origin) (ns : List Node) (k : ℕ) → AllZip (IsOriginOf put) os ns → EachOnce ns
        → body_from ns os k ≡ (if list_any (is_from k) os then put k else None) }
{}

/// An entry of a list has the number of those before it and one more. By this number is told what it
/// put, and by it the body of a PUT is found that still stands. This holds of any list of entries.
pub fn entries_are_told_by_their_number()
    ensures put { (host : List ℕ) (later before : List Entry) (e : Entry)
        → put_by host (later ++ e ∷ before) (length before + 1) ≡ put_of (act_after host before e.ask) }
    ensures body { (host : List ℕ) (later before : List Entry) (e : Entry) (secret body : List ℕ) (path : Segments)
        → let g : List Entry = later ++ e ∷ before in
        e.ask ≡ Dav secret Put path body → still_stands host g (length before + 1) ≡ true
        → body_from (nodes host g) (origins host g) (length before + 1) ≡ Some (File body) }
{}
