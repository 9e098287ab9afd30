//! What the tables have of one user.
ghost use Rattle.std.specs.Prelude.{◌≡◌, None, Some, IfErr, IfOk, MatchOption, is_some};
ghost use Rattle.ocm_rules.specs.Answers.{end_reply, refused};
ghost use Rattle.ocm_rules.specs.State.{view_in};
ghost use Rattle.ocm_rules.specs.Users.{name_of, user_of_key};
ghost use Rattle.ocm_rules.specs.Views.{is_for, is_live_in, record_of_user, request_of_user, share_of_owner};
ghost use Rattle.ocm_plan_local.specs.OwnRows.{IsLiveShare, IsOwnRecord, IsOwnRequest};

use ocm_base::NoMemory;
use ocm_entry::{Place, Request, Share, Why};
use ocm_incoming::Record;
use ocm_path::Path;
use ocm_tables::{Steps, Tables};
use ocm_types::{Name, Offer, Secret};
use std::sync::ledger::Ledger;

/// The name of the user of this number, who has this key.
pub fn user_name<'a>(tables: &'a Tables, key: &Secret, user: u32) -> &'a Name
    requires { user_of_key tables.now.state.users key.now ≡ Some user }
    ensures { result.now ≡ name_of tables.now.state.users user }
{
    &tables.user(user).unwrap().name
}

/// Whether something stands at a path of a user.
pub fn stands(tables: &Tables, user: u32, path: &Path) -> Result<bool, NoMemory>
    ensures { IfOk result (λ stands. stands ≡ is_some ((view_in tables.now.state).stands (record { user = user; path = path.now }))) }
{
    let path = path.copy()?;
    let place = Place { user, path };
    Ok(tables.standing_at(&place).is_some())
}

/// The share of this number, where it is this user's and live, and else why it can neither end nor be
/// limited.
pub fn live_share<'a, L: Ledger>(
    tables: &'a Tables,
    user: u32,
    id: u32,
    steps: &mut Steps<L>,
) -> Result<&'a Share, Why>
    ensures ok { IfOk result (λ share. IsLiveShare tables.now.state user id share.now) }
    ensures err { IfErr result (λ why. end_reply (share_of_owner (view_in tables.now.state) user id) (is_live_in (view_in tables.now.state) id) ≡ refused why) }
{
    match tables.owned_share(user, id, steps) {
        Some(share) => {
            if tables.is_live(id, steps) {
                Ok(share)
            } else {
                Err(Why::WrongPhase)
            }
        }
        None => Err(Why::NotFound),
    }
}

/// Whether an offer is for the user of this number, who has this key.
fn is_for(tables: &Tables, key: &Secret, user: u32, offer: &Offer) -> bool
    requires { user_of_key tables.now.state.users key.now ≡ Some user }
    ensures { result ≡ is_for (view_in tables.now.state) user offer.now }
{
    offer.with.user == *user_name(tables, key, user)
}

/// The received offer of this number, where it is for the user of this number, who has this key.
pub fn owned_record<'a>(
    tables: &'a Tables,
    key: &Secret,
    user: u32,
    number: u32,
) -> Option<&'a Record>
    requires { user_of_key tables.now.state.users key.now ≡ Some user }
    ensures { MatchOption result (record_of_user (view_in tables.now.state) user number ≡ None) (λ received. IsOwnRecord tables.now.state user number received.now) }
{
    match tables.record(number) {
        Some(received) => {
            if is_for(tables, key, user, &received.offer) {
                Some(received)
            } else {
                None
            }
        }
        None => None,
    }
}

/// The request of this number and the received offer that it is about, where that is for the user of
/// this number, who has this key.
pub fn owned_request<'a>(
    tables: &'a Tables,
    key: &Secret,
    user: u32,
    r: u32,
) -> Option<(&'a Request, &'a Record)>
    requires { user_of_key tables.now.state.users key.now ≡ Some user }
    ensures { MatchOption result (request_of_user (view_in tables.now.state) user r ≡ None) (λ found. IsOwnRequest tables.now.state user r found.0.now found.1.now) }
{
    match tables.request(r) {
        Some(request) => match owned_record(tables, key, user, request.received) {
            Some(received) => Some((request, received)),
            None => None,
        },
        None => None,
    }
}
