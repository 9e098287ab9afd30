//! Worked cases in which as many messages are sent as are counted, each as the contract of a function
//! that does nothing.
ghost use Rattle.ocm_rules.specs.Cases.{host_of_bob, our_host};
ghost use Rattle.ocm_law_counts.specs.Cases.{AreCounted, offer_declined, request_undone, share_ended, share_limited};

/// Two messages are sent about a share that was made and ended, and about an offer that was accepted and
/// declined. Of a request that was granted and taken back two are sent, beside the one that its record
/// was accepted, and of a limit that changes what one guest may do one, beside the share's offer.
pub fn counts_are_reached()
    ensures share { AreCounted our_host share_ended 2 }
    ensures limit { AreCounted our_host share_limited 2 }
    ensures offer { AreCounted host_of_bob offer_declined 2 }
    ensures request { AreCounted host_of_bob request_undone 3 }
{}
