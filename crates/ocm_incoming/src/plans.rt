ghost use Rattle.std.specs.Prelude.{◌≡◌, IfOk};
ghost use Rattle.ocm_incoming.specs.Keys.{key_of, mark_of};

use crate::rows::Mark;
use ocm_base::NoMemory;
use ocm_types::{Address, Name, Offer, ProviderId, Secret, ShareName};
use std::marker::Model;

/// All that an offer says, to find it by.
#[derive(PartialEq, Eq, Hash)]
pub struct OfferKey {
    pub with: Address,
    pub name: ShareName,
    pub id: ProviderId,
    pub owner: Address,
    pub sender: Address,
    pub secret: Secret,
    /// The permission to list and to get.
    pub read: bool,
    /// The permission to put, to make collections and to remove.
    pub write: bool,
    /// The permission to share with others.
    pub share: bool,
}

impl Drop for OfferKey {
    fn drop(self) {
        let OfferKey {
            with: _,
            name: _,
            id: _,
            owner: _,
            sender: _,
            secret: _,
            read: _,
            write: _,
            share: _,
        } = self;
    }
}

impl OfferKey {
    /// All that this offer says.
    fn of(offer: &Offer) -> Result<OfferKey, NoMemory>
        ensures { IfOk result (λ key. key ≡ key_of offer.now) }
    {
        let with = offer.with.copy()?;
        let name = offer.name.copy()?;
        let id = offer.id.copy()?;
        let owner = offer.owner.copy()?;
        let sender = offer.sender.copy()?;
        let secret = offer.secret.copy()?;
        let rights = offer.perms.rights();
        Ok(OfferKey {
            with,
            name,
            id,
            owner,
            sender,
            secret,
            read: rights.read,
            write: rights.write,
            share: rights.share,
        })
    }
}

/// An offer that can be received without memory, with what it is found by. Contracts see the offer.
pub struct PlannedOffer {
    offer: Offer,
    key: OfferKey,
    user: Name,
    mark: Mark,
}

impl Drop for PlannedOffer {
    fn drop(self) {
        let PlannedOffer {
            offer: _,
            key: _,
            user: _,
            mark: _,
        } = self;
    }
}

impl Model for PlannedOffer {
    ghost use Rattle.ocm_types.specs.declared.letters.Offer.{Offer};

    ghost Value = { Offer };

    ghost use Rattle.std.specs.Prelude.{◌≡◌};
    ghost use Rattle.ocm_incoming.specs.Keys.{key_of, mark_of};

    ghost view = { λ planned. planned.offer };

    ghost invariant = { λ planned. (planned.key ≡ key_of planned.offer) × (planned.user ≡ planned.offer.with.user) × (planned.mark ≡ mark_of planned.offer) };
}

impl PlannedOffer {
    /// The offer.
    pub fn offer(&self) -> &Offer
        ensures { result.now ≡ self.now }
    {
        &self.offer
    }

    /// All that the offer says.
    pub(crate) fn key(&self) -> &OfferKey
        ensures { result.now ≡ key_of self.now }
    {
        &self.key
    }

    /// The user that the offer is for.
    pub(crate) fn user(&self) -> &Name
        ensures { result.now ≡ self.now.with.user }
    {
        &self.user
    }

    /// The mark of the offer.
    pub(crate) fn mark(&self) -> &Mark
        ensures { result.now ≡ mark_of self.now }
    {
        &self.mark
    }

    /// The offer, with what it is found by.
    pub(crate) fn parts(self) -> (Offer, OfferKey, Name, Mark)
        ensures offer { result.0 ≡ self }
        ensures key { result.1 ≡ key_of self }
        ensures user { result.2 ≡ self.with.user }
        ensures mark { result.3 ≡ mark_of self }
    {
        let PlannedOffer {
            offer,
            key,
            user,
            mark,
        } = self;
        (offer, key, user, mark)
    }
}

/// An offer, to be received.
pub fn plan_offer(offer: &Offer) -> Result<PlannedOffer, NoMemory>
    ensures { IfOk result (λ planned. planned ≡ offer.now) }
{
    let key = OfferKey::of(offer)?;
    let user = offer.with.user.copy()?;
    let mark = Mark::of(&offer.id, &offer.secret)?;
    let offer = offer.copy()?;
    Ok(PlannedOffer {
        offer,
        key,
        user,
        mark,
    })
}
