//! The routes of a server.

ghost use Rattle.std.specs.Prelude.{◌≡◌, None, IfOk};
ghost use Rattle.ocm_http.specs.Messages.{IsRequest};
ghost use Rattle.ocm_dav.specs.Routes as routes;
ghost use Rattle.ocm_dav.specs.Routes.{wanted_of};
ghost use Rattle.ocm_dav.specs.Sound.{AsksProperly, AsksOutside, HasSpan};

use crate::configs::Config;
use crate::files::files_wanted;
use crate::locals::local_wanted;
use crate::posts::{notifications_wanted, shares_wanted};
use crate::refusals::{bad_request, refused};
use crate::shapes::shape_of;
use crate::wants::Wanted;
use ocm_base::{Bytes, List, NoMemory};
use ocm_dav_pages::{Allow, Shape, discovery_page};
use ocm_davmore::{before_query, begins_with_slash, below_dav};
use ocm_entry::Why;
use ocm_http::{Field, Head, Message};
use ocm_types::{Fresh, Host};
use std::alloc::Global;

/// What a request wants of the server that knows this of itself. A key or a secret that the ask
/// makes is made of these drawn bytes.
///
/// A page comes at once for the discovery document, and where the request is refused before
/// anything is asked. Of several reasons the first decides: the target, the method, the length of
/// what is posted, the site that posts a command, the path, the credentials, then the fields or the record. Else the ask is what
/// the request spells, and the shape says how its reply is written.
pub fn ask_of(
    alloc: Global,
    config: &Config,
    message: &Message,
    fresh: Fresh,
) -> Result<Wanted, NoMemory>
    requires { IsRequest message.now.head }
    ensures wanted { IfOk result (λ wanted. wanted ≡ wanted_of config.now message.now fresh) }
    ensures proper { IfOk result AsksProperly }
    ensures range { IfOk result HasSpan }
    ensures outside { IfOk result AsksOutside }
{
    match &message.head {
        Head::Request {
            method,
            target,
            closing,
            fields,
        } => target_wanted(
            alloc,
            config,
            method.as_str(),
            target.as_str(),
            *closing,
            fields,
            &message.body,
            fresh,
        ),
        Head::Reply {
            status: _,
            fields: _,
        } => unreachable!(),
    }
}

/// What a request wants, by its target.
fn target_wanted(
    alloc: Global,
    config: &Config,
    method: &str,
    target: &str,
    closing: bool,
    fields: &List<Field>,
    body: &Bytes,
    fresh: Fresh,
) -> Result<Wanted, NoMemory>
    ensures { IfOk result (λ wanted. wanted ≡ routes.target_wanted config.now method.now target.now
        closing fields.now body.now fresh) }
{
    if begins_with_slash(target) {
        let path = before_query(target);
        path_wanted(alloc, config, method, path, closing, fields, body, fresh)
    } else {
        bad_request(alloc, "bad target", &shape_of(method, closing, Allow::Dav))
    }
}

fn is_discovery(path: &str) -> bool
    ensures { result ≡ routes.is_discovery path.now }
{
    path == "/.well-known/ocm" || path == "/ocm-provider" || path == "/ocm-provider/"
}

fn is_shares(path: &str) -> bool
    ensures { result ≡ routes.is_shares path.now }
{
    path == "/ocm/shares" || path == "/ocm/shares/"
}

fn is_notifications(path: &str) -> bool
    ensures { result ≡ routes.is_notifications path.now }
{
    path == "/ocm/notifications" || path == "/ocm/notifications/"
}

/// What a request wants, by the path of its target.
fn path_wanted(
    alloc: Global,
    config: &Config,
    method: &str,
    path: &str,
    closing: bool,
    fields: &List<Field>,
    body: &Bytes,
    fresh: Fresh,
) -> Result<Wanted, NoMemory>
    ensures { IfOk result (λ wanted. wanted ≡ routes.path_wanted config.now method.now path.now
        closing fields.now body.now fresh) }
{
    if is_discovery(path) {
        discovery_wanted(
            alloc,
            &config.host,
            method,
            &shape_of(method, closing, Allow::Discovery),
        )
    } else if is_shares(path) {
        shares_wanted(alloc, method, body, shape_of(method, closing, Allow::Post))
    } else if is_notifications(path) {
        let shape = shape_of(method, closing, Allow::Post);
        notifications_wanted(alloc, method, body, fresh, shape)
    } else if path == "/local" {
        let shape = shape_of(method, closing, Allow::Post);
        local_wanted(alloc, config, method, fields, body, fresh, shape)
    } else {
        below_wanted(alloc, config, method, path, closing, fields, body)
    }
}

fn reads(method: &str) -> bool
    ensures { result ≡ routes.reads method.now }
{
    method == "GET" || method == "HEAD"
}

fn discovery_wanted(
    alloc: Global,
    host: &Host,
    method: &str,
    shape: &Shape,
) -> Result<Wanted, NoMemory>
    requires { shape.now.range ≡ None }
    ensures { IfOk result (λ wanted. wanted
        ≡ routes.discovery_wanted host.now method.now shape.now) }
{
    if !reads(method) {
        return refused(alloc, Why::NotAllowed, shape);
    }
    let page = discovery_page(alloc, host, shape)?;
    Ok(Wanted::Page(page))
}

/// What a request wants at `/dav` and below, where nothing else is found.
fn below_wanted(
    alloc: Global,
    config: &Config,
    method: &str,
    path: &str,
    closing: bool,
    fields: &List<Field>,
    body: &Bytes,
) -> Result<Wanted, NoMemory>
    ensures { IfOk result (λ wanted. wanted ≡ routes.at_path config.now method.now path.now closing
        fields.now body.now) }
{
    let shape = shape_of(method, closing, Allow::Dav);
    match below_dav(path) {
        Some(rest) => files_wanted(alloc, &config.host, method, rest, fields, body, shape),
        None => refused(alloc, Why::NotFound, &shape),
    }
}
