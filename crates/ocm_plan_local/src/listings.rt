//! What a user has, line by line.
ghost use Rattle.std.specs.Prelude.{◌≡◌, ◌++◌, IfOk, OnOk, Some, filter_map, option_to_list};
ghost use Rattle.ocm_entry.specs.declared.asks.Ask.TheVariants as asks;
ghost use Rattle.ocm_entry.specs.declared.asks.Cmd.TheVariants as commands;
ghost use Rattle.ocm_rules.specs.Answers.{listing};
ghost use Rattle.ocm_rules.specs.State.{view_in};
ghost use Rattle.ocm_rules.specs.Users.{name_of, user_of_key};
ghost use Rattle.ocm_plan.specs.Plans.{Plans};
ghost use Rattle.ocm_plan_local.specs.Told.{record_told, request_told, share_told, told_offer};

use crate::reads::user_name;
use ocm_base::{List, NoMemory};
use ocm_entry::{Line, Reply, Request, Share};
use ocm_incoming::Record;
use ocm_plan::Planned;
use ocm_tables::{Steps, Tables};
use ocm_types::{Name, Perms, Secret};
use std::sync::ledger::Ledger;

/// All that the user of this number has, who has this key. Nothing of other users is gone over.
pub fn plan_list<L: Ledger>(
    tables: &Tables,
    key: &Secret,
    user: u32,
    steps: &mut Steps<L>,
) -> Result<Planned, NoMemory>
    requires { user_of_key tables.now.state.users key.now ≡ Some user }
    ensures { IfOk result (λ plan. Plans tables.now.state (asks.Local key.now commands.List) plan) }
{
    let lines = listing(tables, user, user_name(tables, key, user), steps)?;
    Ok(Planned::only(tables, Reply::Listing { lines }))
}

/// All that the user of this number and this name has: the shares, the received shares, and the
/// requests, each in the order of their numbers.
fn listing<L: Ledger>(
    tables: &Tables,
    user: u32,
    name: &Name,
    steps: &mut Steps<L>,
) -> Result<List<Line>, NoMemory>
    requires { name.now ≡ name_of tables.now.state.users user }
    ensures { IfOk result (λ lines. lines ≡ listing (view_in tables.now.state) user) }
{
    let shares = tables.shares_of(user, steps)?;
    let received = tables.records_of(name)?;
    let requests = tables.requests_of(name)?;
    let mut lines = List::new(tables.allocator());
    add_shares(tables, shares.as_slice(), &mut lines, steps)?;
    add_received(tables, received.as_slice(), &mut lines)?;
    add_requests(tables, requests.as_slice(), &mut lines)?;
    Ok(lines)
}

/// Adds the lines of the shares of these numbers.
fn add_shares<L: Ledger>(
    tables: &Tables,
    ids: &[u32],
    lines: &mut List<Line>,
    steps: &mut Steps<L>,
) -> Result<(), NoMemory>
    ensures { OnOk result (lines.new ≡ lines.old ++ filter_map (share_told tables.now.state) ids.now) }
{
    for id in ids {
        add_share(tables, *id, lines, steps)?;
    }
    Ok(())
}

/// Adds the line of the share of this number.
fn add_share<L: Ledger>(
    tables: &Tables,
    id: u32,
    lines: &mut List<Line>,
    steps: &mut Steps<L>,
) -> Result<(), NoMemory>
    ensures { OnOk result (lines.new ≡ lines.old ++ option_to_list (share_told tables.now.state id)) }
{
    if let Some(share) = tables.share(id, steps) {
        let perms = tables.perms(id, steps);
        let live = tables.is_live(id, steps);
        let line = share_line(id, share, perms, live)?;
        lines.push(line)?;
    }
    Ok(())
}

/// The line of the share of this number, with its permissions, and whether it is live.
fn share_line(id: u32, share: &Share, perms: Perms, live: bool) -> Result<Line, NoMemory>
    ensures { IfOk result (λ line. line ≡ Line.Share id share.now.root share.now.with perms live) }
{
    let path = share.root.copy()?;
    let with = share.with.copy()?;
    Ok(Line::Share {
        id,
        path,
        with,
        perms,
        live,
    })
}

/// Adds the lines of the received offers of these numbers.
fn add_received(tables: &Tables, numbers: &[u32], lines: &mut List<Line>) -> Result<(), NoMemory>
    ensures { OnOk result (lines.new ≡ lines.old ++ filter_map (record_told tables.now.state) numbers.now) }
{
    for number in numbers {
        add_record(tables, *number, lines)?;
    }
    Ok(())
}

/// Adds the line of the received offer of this number.
fn add_record(tables: &Tables, number: u32, lines: &mut List<Line>) -> Result<(), NoMemory>
    ensures { OnOk result (lines.new ≡ lines.old ++ option_to_list (record_told tables.now.state number)) }
{
    if let Some(received) = tables.record(number) {
        let line = record_line(number, received, tables.told(number).perms)?;
        lines.push(line)?;
    }
    Ok(())
}

/// The line of the received offer of this number, with the permissions that its guest was told last.
fn record_line(number: u32, received: &Record, perms: Perms) -> Result<Line, NoMemory>
    ensures { IfOk result (λ line. line ≡ Line.Received number (told_offer received.now.offer perms) received.now.phase) }
{
    let mut offer = received.offer.copy()?;
    offer.perms = perms;
    Ok(Line::Received {
        number,
        offer,
        phase: received.phase,
    })
}

/// Adds the lines of the requests of these numbers.
fn add_requests(tables: &Tables, numbers: &[u32], lines: &mut List<Line>) -> Result<(), NoMemory>
    ensures { OnOk result (lines.new ≡ lines.old ++ filter_map (request_told tables.now.state) numbers.now) }
{
    for number in numbers {
        add_request(tables, *number, lines)?;
    }
    Ok(())
}

/// Adds the line of the request of this number.
fn add_request(tables: &Tables, number: u32, lines: &mut List<Line>) -> Result<(), NoMemory>
    ensures { OnOk result (lines.new ≡ lines.old ++ option_to_list (request_told tables.now.state number)) }
{
    if let Some(request) = tables.request(number) {
        lines.push(request_line(number, request)?)?;
    }
    Ok(())
}

/// The line of the request of this number.
fn request_line(number: u32, request: &Request) -> Result<Line, NoMemory>
    ensures { IfOk result (λ line. line ≡ Line.Request number request.now.received request.now.with request.now.perms request.now.state) }
{
    let with = request.with.copy()?;
    let state = request.state.copy()?;
    Ok(Line::Request {
        number,
        received: request.received,
        with,
        perms: request.perms,
        state,
    })
}
