ghost use Rattle.std.specs.Prelude.{◌≡◌};
ghost use Rattle.ocm_rules.specs.Offers.{is_pending, is_given_up};

use ocm_types::Phase;

/// Whether the recipient of an offer has not decided.
pub fn is_pending(phase: Phase) -> bool
    ensures { result ≡ is_pending phase }
{
    matches!(phase, Phase::Pending)
}

/// Whether an offer is declined or removed.
pub fn is_given_up(phase: Phase) -> bool
    ensures { result ≡ is_given_up phase }
{
    matches!(phase, Phase::Declined | Phase::Removed)
}
