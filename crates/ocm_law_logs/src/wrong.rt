//! Why a true line is defined as it is: by each of these wrong definitions a line that a server logged
//! would be false. Each counterexample is computed, as the contract of a function that does nothing.
ghost use Rattle.std.specs.Prelude.{◌≡◌, [], codes, false, true, Some};
ghost use Rattle.ocm_access_log.specs.Truth.{status_of};
ghost use Rattle.ocm_entry.specs.declared.replies.Reply.TheVariants.{File};
ghost use Rattle.ocm_law_logs.specs.Logged.{is_true_of, line_after};
ghost use Rattle.ocm_law_logs.specs.Wrong.{answer_at, bob_reads, expired, is_true_at_end, is_true_by_place, put_again, shared, unshared};
ghost use Rattle.ocm_rules.specs.Cases.{our_host};
ghost use Rattle.ocm_rules.specs.History.{answer, kept};
ghost use Rattle.ocm_rules.specs.Lean.{lean};

/// Were a line judged by the whole list, a read that was served before its share ended would be false.
pub fn a_line_is_judged_at_its_place()
    ensures served { status_of (answer our_host shared bob_reads) ≡ Some 200 }
    ensures true_at_place { is_true_of our_host unshared (line_after our_host shared bob_reads 200) ≡ true }
    ensures false_at_end { is_true_at_end our_host (kept our_host unshared) (line_after our_host shared bob_reads 200) ≡ false }
{}

/// Were the moment of a line left aside, a read that was refused once its share had run out would be
/// false.
pub fn a_line_is_judged_at_its_moment()
    ensures refused { status_of (answer our_host expired bob_reads) ≡ Some 401 }
    ensures true_at_moment { is_true_of our_host expired (line_after our_host expired bob_reads 401) ≡ true }
    ensures false_by_place { is_true_by_place our_host (kept our_host expired) (line_after our_host expired bob_reads 401) ≡ false }
{}

/// Were the bytes of a reply compared and not its status, a read whose file was replaced since would
/// be false: a journal has its bytes no longer.
pub fn a_line_tells_the_status_alone()
    ensures served { answer our_host shared bob_reads ≡ File (codes "hi") }
    ensures emptied { answer_at our_host (lean our_host put_again) 3 bob_reads ≡ Some (File []) }
{}
