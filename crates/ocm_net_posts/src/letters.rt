//! Whether two messages are the same.
ghost use Rattle.std.specs.Prelude.{◌≡◌, true, IsTrue};

use ocm_types::{Letter, Notice, Numbered, Offer};

/// Whether two offers say the same.
fn is_same_offer(one: &Offer, other: &Offer) -> bool
    ensures { IsTrue result → one.now ≡ other.now }
{
    one.with == other.with
        && one.name == other.name
        && one.id == other.id
        && one.owner == other.owner
        && one.sender == other.sender
        && one.secret == other.secret
        && one.perms == other.perms
}

/// Whether two notifications say that a share was taken, in the same way.
fn is_same_acceptance(one: &Notice, other: &Notice) -> bool
    ensures { IsTrue result → one.now ≡ other.now }
{
    match (one, other) {
        (
            Notice::Accepted {
                id,
                secret,
                owner,
                with,
                perms,
            },
            Notice::Accepted {
                id: its_id,
                secret: its_secret,
                owner: its_owner,
                with: its_with,
                perms: its_perms,
            },
        ) => id == its_id
            && secret == its_secret
            && owner == its_owner
            && with == its_with
            && perms == its_perms,
        _ => false,
    }
}

/// Whether two notifications ask to share with the same other, in the same way.
fn is_same_wish(one: &Notice, other: &Notice) -> bool
    ensures { IsTrue result → one.now ≡ other.now }
{
    match (one, other) {
        (
            Notice::ReshareRequest {
                id,
                secret,
                with,
                sender_id,
                perms,
            },
            Notice::ReshareRequest {
                id: its_id,
                secret: its_secret,
                with: its_with,
                sender_id: its_sender_id,
                perms: its_perms,
            },
        ) => id == its_id
            && secret == its_secret
            && with == its_with
            && sender_id == its_sender_id
            && perms == its_perms,
        _ => false,
    }
}

/// Whether two notifications tell the same change.
fn is_same_change(one: &Notice, other: &Notice) -> bool
    ensures { IsTrue result → one.now ≡ other.now }
{
    match (one, other) {
        (
            Notice::Changed {
                id,
                secret,
                serial,
                perms,
            },
            Notice::Changed {
                id: its_id,
                secret: its_secret,
                serial: its_serial,
                perms: its_perms,
            },
        ) => id == its_id && secret == its_secret && serial == its_serial && perms == its_perms,
        _ => false,
    }
}

/// Whether two notifications tell that the same share ended, in the same way.
fn is_same_end(one: &Notice, other: &Notice) -> bool
    ensures { IsTrue result → one.now ≡ other.now }
{
    match (one, other) {
        (
            Notice::Declined { id, secret },
            Notice::Declined {
                id: its_id,
                secret: its_secret,
            },
        ) => id == its_id && secret == its_secret,
        (
            Notice::Unshared { id, secret },
            Notice::Unshared {
                id: its_id,
                secret: its_secret,
            },
        ) => id == its_id && secret == its_secret,
        (
            Notice::ReshareUndo { id, secret },
            Notice::ReshareUndo {
                id: its_id,
                secret: its_secret,
            },
        ) => id == its_id && secret == its_secret,
        _ => false,
    }
}

/// Whether two notifications say the same.
fn is_same_notice(one: &Notice, other: &Notice) -> bool
    ensures { IsTrue result → one.now ≡ other.now }
{
    is_same_acceptance(one, other)
        || is_same_wish(one, other)
        || is_same_change(one, other)
        || is_same_end(one, other)
}

/// Whether two letters say the same.
fn is_same_letter(one: &Letter, other: &Letter) -> bool
    ensures { IsTrue result → one.now ≡ other.now }
{
    match (one, other) {
        (Letter::Offer(one), Letter::Offer(other)) => is_same_offer(one, other),
        (Letter::Notice(one), Letter::Notice(other)) => is_same_notice(one, other),
        _ => false,
    }
}

/// Whether two messages are the same.
pub fn is_same(one: &Numbered, other: &Numbered) -> bool
    ensures { IsTrue result → one.now ≡ other.now }
{
    one.number == other.number
        && one.to.as_str() == other.to.as_str()
        && is_same_letter(&one.letter, &other.letter)
}
