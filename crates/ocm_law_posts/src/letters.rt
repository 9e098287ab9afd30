//! Each letter of the program is one that a server may send.

ghost use Rattle.std.specs.Prelude.{◌≡◌, nat_le, true, IsUtf8};
ghost use Rattle.std.specs.List.{AllByRecursion};
ghost use Rattle.ocm_types.specs.Rights.{is_any};
ghost use Rattle.ocm_types.specs.declared.letters.Letter.TheVariants as letters;
ghost use Rattle.ocm_types.specs.declared.letters.Notice.TheVariants as notices;
ghost use Rattle.ocm_records.specs.Sound.{AddressIf, HasMarks, IsNotice, IsOffer, PermsIf, ReadsAsItself};
ghost use Rattle.ocm_law_posts.specs.Letters.{IsCounted, IsLetter, notice_texts, texts, user_if};

use ocm_types::{Address, Letter, Notice, Offer, Perms, ProviderId, Secret};

/// A text in memory is UTF-8.
fn text_is_utf8(text: &str)
    ensures { IsUtf8 text.now }
{
    let _length = text.len();
}

/// An address reads as itself.
fn address_is_sound(address: &Address)
    ensures sound { ReadsAsItself address.now }
    ensures utf8 { IsUtf8 address.now.user }
{
    text_is_utf8(address.user.as_str());
    let _host = address.host.text();
}

/// So it is where there may be none.
fn address_if_is_sound(address: &Option<Address>)
    ensures sound { AddressIf address.now }
    ensures utf8 { AllByRecursion IsUtf8 (user_if address.now) }
{
    if let Some(address) = address {
        address_is_sound(address);
    }
}

fn perms_are_some(perms: Perms)
    ensures { is_any perms ≡ true }
{
    let _rights = perms.rights();
}

fn perms_if_are_some(perms: Option<Perms>)
    ensures { PermsIf perms }
{
    if let Some(perms) = perms {
        perms_are_some(perms);
    }
}

/// A number of a change is one of 32 bits.
fn serial_is_short(serial: u32)
    ensures { nat_le serial 4294967295 ≡ true }
{}

/// The marks that each notification has.
fn marks_are_sound(id: &ProviderId, secret: &Secret)
    ensures sound { HasMarks id.now secret.now }
    ensures id { IsUtf8 id.now }
    ensures secret { IsUtf8 secret.now }
{
    text_is_utf8(id.as_str());
    text_is_utf8(secret.as_str());
}

fn offer_is_sound(offer: &Offer)
    ensures sound { IsOffer offer.now }
    ensures utf8 { AllByRecursion IsUtf8 (texts (letters.Offer offer.now)) }
{
    text_is_utf8(offer.name.as_str());
    marks_are_sound(&offer.id, &offer.secret);
    address_is_sound(&offer.with);
    address_is_sound(&offer.owner);
    address_is_sound(&offer.sender);
    perms_are_some(offer.perms);
}

fn notice_is_sound(notice: &Notice)
    ensures sound { IsNotice notice.now }
    ensures utf8 { AllByRecursion IsUtf8 (notice_texts notice.now) }
{
    match notice {
        Notice::Accepted {
            id,
            secret,
            owner,
            with,
            perms,
        } => {
            marks_are_sound(id, secret);
            address_if_is_sound(owner);
            address_if_is_sound(with);
            perms_if_are_some(*perms);
        }
        Notice::ReshareRequest {
            id,
            secret,
            with,
            sender_id,
            perms,
        } => {
            marks_are_sound(id, secret);
            address_is_sound(with);
            text_is_utf8(sender_id.as_str());
            perms_if_are_some(*perms);
        }
        Notice::Changed {
            id,
            secret,
            serial,
            perms,
        } => {
            marks_are_sound(id, secret);
            serial_is_short(*serial);
            perms_are_some(*perms);
        }
        Notice::Declined { id, secret }
        | Notice::Unshared { id, secret }
        | Notice::ReshareUndo { id, secret } => marks_are_sound(id, secret),
    }
}

/// Each letter whose changes of permissions are counted from 1 is one that a server may send: its parts meet the
/// rules of their types.
pub fn letters_may_be_sent(letter: &Letter)
    requires { IsCounted letter.now }
    ensures { IsLetter letter.now }
{
    match letter {
        Letter::Offer(offer) => offer_is_sound(offer),
        Letter::Notice(notice) => notice_is_sound(notice),
    }
}
