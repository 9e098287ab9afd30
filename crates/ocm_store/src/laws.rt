//! What follows from what a store stands for, each law as the contract of a function that does nothing.
ghost use Rattle.std.specs.Prelude.{◌≡◌, [], ℕ, List, Ok, Err};
ghost use Rattle.ocm_texts.specs.Hex.{AreBytes};
ghost use Rattle.ocm_entry.specs.declared.entries.Entry.{Entry};
ghost use Rattle.ocm_journal_image.specs.Layout.{IsImage};
ghost use Rattle.ocm_journal.specs.Openings.{StaysAsItOpens};
ghost use Rattle.ocm_rules.specs.History.{IsLegal, kept};
ghost use Rattle.ocm_law_sessions.specs.Sessions.{IsSession};
ghost use Rattle.ocm_store.specs.declared.load_faults.LoadFault.{LoadFault};
ghost use Rattle.ocm_store.specs.Courses.{CoursesKeep, CoursesLeave, CoursesStand, CoursesTie, CoursesWithMoments, EndedStaysEnded, MomentsHavePlaces};
ghost use Rattle.ocm_store.specs.Opening.{IsImageIn, IsOfArea, OpensAlike, OpensTo, loading};

use ocm_disk::Disk;

/// A disk opens to one list at most.
pub fn a_disk_opens_to_one_list()
    ensures { (host : List ℕ) (area : ℕ) (k other : List Entry) (bytes : List ℕ) → OpensTo host area k bytes → OpensTo host area other bytes → k ≡ other }
{}

/// A disk is loaded exactly where its bytes open to a list.
pub fn what_opens_is_loaded()
    ensures loaded { (host : List ℕ) (area : ℕ) (k : List Entry) (bytes : List ℕ) → OpensTo host area k bytes → loading host area bytes ≡ Ok k }
    ensures opens { (host : List ℕ) (area : ℕ) (k : List Entry) (bytes : List ℕ) → AreBytes bytes → loading host area bytes ≡ Ok k → OpensTo host area k bytes }
{}

/// A disk that stays as it opens opens to all that it did, and one that is not loaded for its bytes has the same bytes.
pub fn what_stays_opens_alike()
    ensures alike { (host : List ℕ) (area : ℕ) (seen bytes : List ℕ) → StaysAsItOpens host area seen bytes → OpensAlike host area seen bytes }
    ensures refused { (host : List ℕ) (area : ℕ) (seen bytes : List ℕ) (fault : LoadFault) → StaysAsItOpens host area seen bytes → loading host area seen ≡ Err fault → bytes ≡ seen }
{}

/// What a disk opens to is legal, is kept whole, and begins a session.
pub fn what_opens_begins_a_session()
    ensures legal { (host : List ℕ) (area : ℕ) (k : List Entry) (bytes : List ℕ) → OpensTo host area k bytes → IsLegal host k }
    ensures kept { (host : List ℕ) (area : ℕ) (k : List Entry) (bytes : List ℕ) → OpensTo host area k bytes → kept host k ≡ k }
    ensures session { (host : List ℕ) (area size : ℕ) (k : List Entry) (bytes : List ℕ) → OpensTo host area k bytes → IsSession host size k [] }
{}

/// An image has areas of one size and opens to one list at most, and a journal that is loaded from it has areas of that size.
pub fn an_image_has_one_area()
    ensures area { (host : List ℕ) (area other form shape : ℕ) (records others : List (List ℕ)) (bytes : List ℕ) → IsImage host area form records bytes → IsImage host other shape others bytes → area ≡ other }
    ensures list { (host : List ℕ) (area other : ℕ) (k next : List Entry) (bytes : List ℕ) → IsImageIn host area k bytes → IsImageIn host other next bytes → (area ≡ other) × (k ≡ next) }
    ensures loaded { (host : List ℕ) (new area other : ℕ) (k : List Entry) (bytes : List ℕ) → IsOfArea host new area bytes → IsImageIn host other k bytes → area ≡ other }
{}

/// What calls make of a store, one after another, stands for all of them. They are legal, and the terms stay.
pub fn a_course_stands<D: Disk>()
    ensures { CoursesStand ⟦<D as Disk>⟧ }
{}

/// A crash at any moment of several calls, during one or between two, leaves what opens to a list that may follow all
/// calls before one of them, while that one is in flight, or that may follow what stood before the first.
pub fn a_crash_in_a_course_leaves_what_may_follow<D: Disk>()
    ensures { CoursesLeave ⟦<D as Disk>⟧ }
{}

/// Since a call was answered, a crash at any moment of the later calls leaves what may follow that call, or a later one:
/// nothing that was answered is lost.
pub fn a_crash_in_a_course_loses_nothing_answered<D: Disk>()
    ensures { CoursesKeep ⟦<D as Disk>⟧ }
{}

/// Several calls with the moment of the disk behind each of them are several calls, and there are as many moments.
pub fn a_course_with_moments_is_a_course<D: Disk>()
    ensures { CoursesWithMoments ⟦<D as Disk>⟧ }
{}

/// Since the moment of the disk behind a call a crash leaves of the disk that comes back what may follow that call, or a later
/// one: the change was on the disk at this moment, and stayed there. The moment has been by the time when the disk comes back.
pub fn a_crash_since_a_moment_loses_nothing_done_by_then<D: Disk>()
    ensures { CoursesTie ⟦<D as Disk>⟧ }
{}

/// What a crash leaves at some moment of several calls opens to a list that may follow the calls up to one place, while the
/// ask of the next one was in flight, where there is a next one.
pub fn a_crash_in_a_course_has_a_place()
    ensures { MomentsHavePlaces }
{}

/// A share that had ended before some calls has ended in what a disk opens to after a crash at any moment of them.
pub fn what_has_ended_stays_ended_at_every_moment()
    ensures { EndedStaysEnded }
{}
