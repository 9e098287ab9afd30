//! Why all links count: by its own link alone a share would be served that is refused. Each counterexample
//! is computed, as the contract of a function that does nothing.
ghost use Rattle.std.specs.Prelude.{◌≡◌, codes, true};
ghost use Rattle.ocm_entry.specs.declared.refusals.Why.TheVariants.{NotPermitted, Unauthorized};
ghost use Rattle.ocm_entry.specs.declared.replies.Reply.TheVariants.{File};
ghost use Rattle.ocm_rules.specs.Answers.{refused};
ghost use Rattle.ocm_rules.specs.Cases.{our_host};
ghost use Rattle.ocm_rules.specs.History.{answer, kept};
ghost use Rattle.ocm_rules.specs.Shares.{goes_on, perms};
ghost use Rattle.ocm_law_served.specs.Requests.{suffices};
ghost use Rattle.ocm_law_served.specs.Wrong.{dan_reads, ended_above, limited_above, reads, shared_on};

/// A share that nobody closed is refused once a share above it has ended.
pub fn each_link_has_to_be_open()
    ensures served { answer our_host shared_on dan_reads ≡ File (codes "hi") }
    ensures goes_on { goes_on (kept our_host ended_above) 3 ≡ true }
    ensures refused { answer our_host ended_above dan_reads ≡ refused Unauthorized }
{}

/// A share whose permissions suffice is refused where those of a share above it do not.
pub fn each_link_has_to_grant()
    ensures suffices { suffices reads (perms our_host (kept our_host limited_above) 3) ≡ true }
    ensures refused { answer our_host limited_above dan_reads ≡ refused NotPermitted }
{}
