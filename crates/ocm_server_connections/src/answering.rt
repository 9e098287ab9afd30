//! One message answered.

ghost use Rattle.std.specs.Prelude.{◌≡◌, ◌<◌, ◌≤◌, false, ◌||◌, [], ◌∷◌, List, IfOk, IfErr, IfSome, OnOk, OnErr, IsTrue};
ghost use Rattle.ocm_entry.specs.declared.entries.Entry.{Entry};
ghost use Rattle.ocm_entry.specs.Proper.{is_proper};
ghost use Rattle.ocm_dav.specs.Sound.{is_requested};
ghost use Rattle.ocm_dav.specs.Routes.{wanted_of};
ghost use Rattle.ocm_http.specs.Messages.{IsRequest};
ghost use Rattle.ocm_davmore.specs.Ranges.{is_span};
ghost use Rattle.ocm_dav_pages.specs.Pages as pages;
ghost use Rattle.ocm_dav_pages.specs.Pages.{HasPage};
ghost use Rattle.ocm_turn.specs.Passes.{BelongsTo};
ghost use Rattle.ocm_turn.specs.Moves.{Moved, Unspent};
ghost use Rattle.ocm_turn.specs.Calls.{entry};
ghost use Rattle.ocm_entry.specs.Ticks.{is_tick};
ghost use Rattle.ocm_server_connections.specs.Talk as talk;
ghost use Rattle.ocm_server_connections.specs.Talk.{Answers, is_no_memory, is_spent};
ghost use Rattle.ocm_server_connections.specs.Parts.{RepliedOr};
ghost use Rattle.ocm_dav.specs.declared.wants.Wanted.TheVariants as wants;

use crate::endings::Missed;
use crate::nodes::Node;
use ocm_dav::{Config, Page, Shape, Wanted, ask_of};
use ocm_dav_pages::page_of;
use ocm_entry::{Ask, Reply};
use ocm_http::Message;
use ocm_turn::{Dated, Pass, Spent};
use ocm_types::Fresh;
use std::alloc::Global;
use std::sync::Wait;

/// Whether a reply says that the ask was done.
pub fn is_done(reply: &Reply) -> bool
    ensures { result ≡ talk.is_done reply.now }
{
    matches!(reply, Reply::Done)
}

/// One call of the object, of an ask that requests spell or a tick.
fn ask_node<T: Dated, R: Wait>(
    rt: &R,
    node: &Node<T>,
    pass: &mut Pass<T>,
    ask: Ask,
) -> Result<Reply, Spent>
    requires own { BelongsTo node.now pass.old }
    requires proper { IsTrue (is_proper ask) }
    requires requested { IsTrue (is_requested ask || is_tick ask) }
    ensures ok { IfOk result (λ reply. Moved pass.old pass.new (entry ask reply ∷ [])) }
    ensures err { OnErr result (Moved pass.old pass.new []) }
    ensures page { IfOk result HasPage }
    ensures below { OnOk result (pass.new.drawn < node.now.limit) }
    ensures spent { OnErr result (node.now.limit ≤ pass.new.drawn) }
    ensures own { BelongsTo node.now pass.new }
{
    node.call(rt, pass, ask)
}

/// Lets an ask go.
fn let_go(_ask: Ask) {}

/// Lets a reply go.
fn let_reply_go(_reply: Reply) {}

/// Ticks, and asks where that is done.
fn reply_to<T: Dated, R: Wait>(
    rt: &R,
    node: &Node<T>,
    pass: &mut Pass<T>,
    ask: Ask,
    clock: u64,
) -> Result<Reply, Spent>
    requires own { BelongsTo node.now pass.old }
    requires proper { IsTrue (is_proper ask) }
    requires requested { IsTrue (is_requested ask) }
    ensures replied { (calls : List Entry) × Moved pass.old pass.new calls × RepliedOr ask clock calls result }
    ensures page { IfOk result HasPage }
    ensures below { OnOk result (pass.new.drawn < node.now.limit) }
    ensures spent { OnErr result (node.now.limit ≤ pass.new.drawn) }
    ensures own { BelongsTo node.now pass.new }
{
    match ask_node(rt, node, pass, Ask::Tick { clock }) {
        Ok(told) => {
            if is_done(&told) {
                let_reply_go(told);
                ask_node(rt, node, pass, ask)
            } else {
                let_go(ask);
                Ok(told)
            }
        }
        Err(spent) => {
            let_go(ask);
            Err(spent)
        }
    }
}

/// The page of a reply, where there was memory for both.
pub fn page_for(alloc: Global, reply: &Reply, shape: &Shape) -> Result<Page, Missed>
    requires reply { HasPage reply.now }
    requires range { IfSome shape.now.range (λ span. IsTrue (is_span span)) }
    ensures ok { IfOk result (λ page. (is_no_memory reply.now ≡ false) × (page ≡ pages.page_of reply.now shape.now)) }
    ensures err { IfErr result (λ missed. missed ≡ Missed.NoMemory) }
{
    if matches!(reply, Reply::NoMemory) {
        return Err(Missed::NoMemory);
    }
    match page_of(alloc, reply, shape) {
        Ok(page) => Ok(page),
        Err(_) => Err(Missed::NoMemory),
    }
}

/// The page of what is asked.
fn asked_page<T: Dated, R: Wait>(
    rt: &R,
    alloc: Global,
    node: &Node<T>,
    pass: &mut Pass<T>,
    ask: Ask,
    shape: &Shape,
    clock: u64,
) -> Result<Page, Missed>
    requires own { BelongsTo node.now pass.old }
    requires proper { IsTrue (is_proper ask) }
    requires requested { IsTrue (is_requested ask) }
    requires range { IfSome shape.now.range (λ span. IsTrue (is_span span)) }
    ensures answers { (calls : List Entry) × Moved pass.old pass.new calls × Answers (wants.Ask ask shape.now) clock calls result }
    ensures below { is_spent result ≡ false → pass.new.drawn < node.now.limit }
    ensures spent { IsTrue (is_spent result) → node.now.limit ≤ pass.new.drawn }
    ensures own { BelongsTo node.now pass.new }
{
    match reply_to(rt, node, pass, ask, clock) {
        Err(_) => Err(Missed::Spent),
        Ok(reply) => page_for(alloc, &reply, shape),
    }
}

/// What a message comes to: its page, with the calls that it takes.
pub(crate) fn answer<T: Dated, R: Wait>(
    rt: &R,
    alloc: Global,
    config: &Config,
    node: &Node<T>,
    pass: &mut Pass<T>,
    message: &Message,
    fresh: Fresh,
    clock: u64,
) -> Result<Page, Missed>
    requires own { BelongsTo node.now pass.old }
    requires request { IsRequest message.now.head }
    ensures answers { (calls : List Entry) × Moved pass.old pass.new calls × Answers (wanted_of config.now message.now fresh) clock calls result }
    ensures unspent { (calls : List Entry) → Moved pass.old pass.new calls → is_spent result ≡ false → Unspent node.now.limit pass.old pass.new calls }
    ensures spent { IsTrue (is_spent result) → node.now.limit ≤ pass.new.drawn }
    ensures own { BelongsTo node.now pass.new }
{
    match ask_of(alloc, config, message, fresh) {
        Ok(Wanted::Page(page)) => Ok(page),
        Ok(Wanted::Ask(ask, shape)) => asked_page(rt, alloc, node, pass, ask, &shape, clock),
        Err(_) => Err(Missed::NoMemory),
    }
}
