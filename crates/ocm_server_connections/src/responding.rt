//! One message answered by an object, without a turnstile.

ghost use Rattle.std.specs.Prelude.{List, IfSome, IsTrue};
ghost use Rattle.ocm_entry.specs.Proper.{is_proper};
ghost use Rattle.ocm_entry.specs.declared.entries.Entry.{Entry};
ghost use Rattle.ocm_dav.specs.Sound.{is_requested};
ghost use Rattle.ocm_dav.specs.Routes.{wanted_of};
ghost use Rattle.ocm_http.specs.Messages.{IsRequest};
ghost use Rattle.ocm_dav.specs.declared.wants.Wanted.TheVariants as wants;
ghost use Rattle.ocm_davmore.specs.Ranges.{is_span};
ghost use Rattle.ocm_server_connections.specs.Responding.{Responds};

use ocm_base::NoMemory;
use ocm_dav::{Config, Page, Shape, Wanted, ask_of};
use ocm_dav_pages::page_of;
use ocm_entry::{Ask, Object};
use ocm_http::Message;
use ocm_types::Fresh;
use std::alloc::Global;

/// The page of what is asked.
fn respond_to<T: Object>(
    alloc: Global,
    object: &mut T,
    ask: Ask,
    shape: &Shape,
) -> Result<Page, NoMemory>
    requires stands { (k h : List Entry) × T.stands object.old k h × T.legal (T.terms object.old) k h }
    requires proper { IsTrue (is_proper ask) }
    requires requested { IsTrue (is_requested ask) }
    requires range { IfSome shape.now.range (λ span. IsTrue (is_span span)) }
    ensures { Responds T.terms T.stands T.legal (wants.Ask ask shape.now) object.old object.new result }
{
    let reply = object.act(ask);
    page_of(alloc, &reply, shape)
}

/// Answers a message by an object: the page of the discovery document, of a refusal, or of the object's reply. Where
/// there is no memory the object is as before, or it has moved by what the message asks.
pub fn respond<T: Object>(
    alloc: Global,
    object: &mut T,
    config: &Config,
    message: &Message,
    fresh: Fresh,
) -> Result<Page, NoMemory>
    requires stands { (k h : List Entry) × T.stands object.old k h × T.legal (T.terms object.old) k h }
    requires request { IsRequest message.now.head }
    ensures { Responds T.terms T.stands T.legal (wanted_of config.now message.now fresh) object.old object.new result }
{
    match ask_of(alloc, config, message, fresh) {
        Ok(Wanted::Page(page)) => Ok(page),
        Ok(Wanted::Ask(ask, shape)) => respond_to(alloc, object, ask, &shape),
        Err(failure) => Err(failure),
    }
}
