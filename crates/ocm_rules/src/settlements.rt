ghost use Rattle.std.specs.Prelude.{◌≡◌, option_copied};
ghost use Rattle.ocm_rules.specs.Messages.{is_change};
ghost use Rattle.ocm_rules.specs.Settlements.{is_acceptance, is_refusal, is_success, settles, wants_id};

use ocm_types::{Letter, Notice, ProviderId};

/// Whether a status says yes: 200 to 299 (RFC 9110 section 15.3).
pub fn is_success(status: u16) -> bool
    ensures { result ≡ is_success status }
{
    200 <= status && status <= 299
}

/// Whether a status says no: 400 to 499 (RFC 9110 section 15.5).
pub fn is_refusal(status: u16) -> bool
    ensures { result ≡ is_refusal status }
{
    400 <= status && status <= 499
}

/// Whether a letter asks to share further, so that its answer has to bring an id.
pub fn wants_id(letter: &Letter) -> bool
    ensures { result ≡ wants_id letter.now }
{
    matches!(letter, Letter::Notice(Notice::ReshareRequest { .. }))
}

/// Whether a letter says that a share was taken.
pub fn is_acceptance(letter: &Letter) -> bool
    ensures { result ≡ is_acceptance letter.now }
{
    matches!(letter, Letter::Notice(Notice::Accepted { .. }))
}

/// Whether a letter tells changed permissions.
pub fn is_change(letter: &Letter) -> bool
    ensures { result ≡ is_change letter.now }
{
    matches!(letter, Letter::Notice(Notice::Changed { .. }))
}

/// Whether an answer of this status, with or without an id, settles a letter: it says no, or it says
/// yes and brings the id that the letter wants.
pub fn settles(letter: &Letter, status: u16, id: Option<&ProviderId>) -> bool
    ensures { result ≡ settles letter.now status (option_copied id.entry) }
{
    is_refusal(status) || (is_success(status) && (!wants_id(letter) || id.is_some()))
}
