//! Offers of shares by other servers (OCM API 1.1, `/shares`).
ghost use Rattle.std.specs.Prelude.{◌≡◌, IfOk, None, false, true};
ghost use Rattle.std.specs.Option.{option_map_or};
ghost use Rattle.ocm_entry.specs.declared.asks.Ask.TheVariants as asks;
ghost use Rattle.ocm_rules.specs.Answers.{new_offer_reply, offer_reply, refused};
ghost use Rattle.ocm_rules.specs.Offers.{is_known};
ghost use Rattle.ocm_rules.specs.State.{view_in};
ghost use Rattle.ocm_plan.specs.Plans.{Plans};
ghost use Rattle.ocm_plan_peers.specs.OfferLimits.{limit_of_offer};

use ocm_base::NoMemory;
use ocm_entry::{AddressField, Reply, Why};
use ocm_incoming::{PlannedOffer, plan_offer as planned_offer};
use ocm_limits::{MOST_PENDING, MOST_RECORDS};
use ocm_plan::{Planned, is_full};
use ocm_tables::{TableChange, Tables};
use ocm_types::{Name, Offer, Which};

/// An offer for a user of this server: it becomes one more received offer, unless an equal one was
/// received before.
pub fn plan_offer(tables: &Tables, offer: &Offer) -> Result<Planned, NoMemory>
    ensures { IfOk result (λ plan. Plans tables.now.state (asks.Offer offer.now) plan) }
{
    match fault_of(tables, offer) {
        Some(why) => Ok(Planned::refused(tables, why)),
        None => plan_new_offer(tables, offer),
    }
}

/// What is wrong with an offer, before it is compared with those that were received.
fn fault_of(tables: &Tables, offer: &Offer) -> Option<Why>
    ensures { offer_reply (view_in tables.now.state) offer.now ≡ option_map_or refused result (new_offer_reply (view_in tables.now.state) offer.now) }
{
    if offer.with.host != *tables.host() {
        return Some(Why::NotOurHost);
    }
    if !tables.is_taken(&offer.with.user) {
        return Some(Why::UnknownUser);
    }
    if offer.owner.host == *tables.host() {
        let field = AddressField::Owner;
        return Some(Why::OwnHost { field });
    }
    None
}

/// An offer that nothing is wrong with.
fn plan_new_offer(tables: &Tables, offer: &Offer) -> Result<Planned, NoMemory>
    requires reply { offer_reply (view_in tables.now.state) offer.now ≡ new_offer_reply (view_in tables.now.state) offer.now }
    ensures { IfOk result (λ plan. Plans tables.now.state (asks.Offer offer.now) plan) }
{
    let known = was_received(tables, offer)?;
    if known {
        plan_known(tables, offer)
    } else {
        plan_unknown(tables, offer)
    }
}

/// Whether an equal offer was received before.
fn was_received(tables: &Tables, offer: &Offer) -> Result<bool, NoMemory>
    ensures { IfOk result (λ known. known ≡ is_known (view_in tables.now.state).offers offer.now) }
{
    let planned = planned_offer(offer)?;
    Ok(is_known(tables, planned))
}

/// Whether an offer equal to this one, which is let go, was received.
fn is_known(tables: &Tables, planned: PlannedOffer) -> bool
    ensures { result ≡ is_known (view_in tables.now.state).offers planned }
{
    let known = tables.is_known(&planned);
    drop(planned);
    known
}

/// An offer that was received before.
fn plan_known(tables: &Tables, offer: &Offer) -> Result<Planned, NoMemory>
    requires known { is_known (view_in tables.now.state).offers offer.now ≡ true }
    requires reply { offer_reply (view_in tables.now.state) offer.now ≡ new_offer_reply (view_in tables.now.state) offer.now }
    ensures { IfOk result (λ plan. Plans tables.now.state (asks.Offer offer.now) plan) }
{
    let user = offer.with.user.copy()?;
    Ok(Planned::only(tables, Reply::Recipient { user }))
}

/// An offer that was not received before.
fn plan_unknown(tables: &Tables, offer: &Offer) -> Result<Planned, NoMemory>
    requires new { is_known (view_in tables.now.state).offers offer.now ≡ false }
    requires reply { offer_reply (view_in tables.now.state) offer.now ≡ new_offer_reply (view_in tables.now.state) offer.now }
    ensures { IfOk result (λ plan. Plans tables.now.state (asks.Offer offer.now) plan) }
{
    match limit_of_offer(tables, &offer.with.user) {
        Some(which) => Ok(Planned::refused(tables, Why::Limit { which })),
        None => plan_received(tables, offer),
    }
}

/// The first limit that one more received offer for a user of this name would pass.
fn limit_of_offer(tables: &Tables, user: &Name) -> Option<Which>
    ensures { result ≡ limit_of_offer (view_in tables.now.state) user.now }
{
    if is_full(tables.pending(user), MOST_PENDING) {
        return Some(Which::Pending);
    }
    if is_full(tables.record_count(), MOST_RECORDS) {
        return Some(Which::Records);
    }
    None
}

/// An offer that becomes one more received offer.
fn plan_received(tables: &Tables, offer: &Offer) -> Result<Planned, NoMemory>
    requires new { is_known (view_in tables.now.state).offers offer.now ≡ false }
    requires free { limit_of_offer (view_in tables.now.state) offer.now.with.user ≡ None }
    requires reply { offer_reply (view_in tables.now.state) offer.now ≡ new_offer_reply (view_in tables.now.state) offer.now }
    ensures { IfOk result (λ plan. Plans tables.now.state (asks.Offer offer.now) plan) }
{
    let user = offer.with.user.copy()?;
    let received = planned_offer(offer)?;
    Ok(Planned::silent(
        tables,
        Reply::Recipient { user },
        TableChange::Receive(received),
    ))
}
