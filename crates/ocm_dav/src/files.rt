//! Requests for files (RFC 4918).

ghost use Rattle.std.specs.Prelude.{◌≡◌, [], None, IfOk, codes};
ghost use Rattle.ocm_dav.specs.Fields.{first_value};
ghost use Rattle.ocm_dav.specs.Files as files;

use crate::carries::carried;
use crate::depths::{Depth, depth_of};
use crate::fields::first_value;
use crate::refusals::{bad_path, bad_request, not_finite, refused};
use crate::secrets::credentials;
use crate::shapes::with_range;
use crate::verbs::{Verb, verb_of};
use crate::wants::Wanted;
use ocm_base::{Bytes, List, NoMemory};
use ocm_dav_pages::Shape;
use ocm_entry::{Ask, Method, Why};
use ocm_http::Field;
use ocm_path::{Path, PathFault};
use ocm_types::{Host, Secret};
use std::alloc::Global;

/// What a request wants at what follows `/dav`.
pub(crate) fn files_wanted(
    alloc: Global,
    host: &Host,
    method: &str,
    rest: &str,
    fields: &List<Field>,
    body: &Bytes,
    shape: Shape,
) -> Result<Wanted, NoMemory>
    requires { shape.range ≡ None }
    ensures { IfOk result (λ wanted. wanted
        ≡ files.files_wanted host.now method.now rest.now fields.now body.now shape) }
{
    match verb_of(method) {
        Some(verb) => located(alloc, host, verb, rest, fields, body, shape),
        None => refused(alloc, Why::NotAllowed, &shape),
    }
}

/// What is wanted once the method is known.
fn located(
    alloc: Global,
    host: &Host,
    verb: Verb,
    rest: &str,
    fields: &List<Field>,
    body: &Bytes,
    shape: Shape,
) -> Result<Wanted, NoMemory>
    requires { shape.range ≡ None }
    ensures { IfOk result (λ wanted. wanted
        ≡ files.at_rest host.now fields.now body.now shape verb rest.now) }
{
    match Path::read(alloc, rest) {
        Ok(path) => granted(alloc, host, verb, path, fields, body, shape),
        Err(PathFault::NoMemory) => Err(NoMemory),
        Err(fault) => bad_path(alloc, fault, &shape),
    }
}

/// What is wanted once the path is known.
fn granted(
    alloc: Global,
    host: &Host,
    verb: Verb,
    path: Path,
    fields: &List<Field>,
    body: &Bytes,
    shape: Shape,
) -> Result<Wanted, NoMemory>
    requires { shape.range ≡ None }
    ensures { IfOk result (λ wanted. wanted
        ≡ files.by_credentials host.now fields.now body.now shape verb path) }
{
    match credentials(alloc, fields) {
        Ok(Some(secret)) => held(alloc, host, verb, path, secret, fields, body, shape),
        Ok(None) => refused(alloc, Why::Unauthorized, &shape),
        Err(NoMemory) => Err(NoMemory),
    }
}

/// What the holder of the secret wants at the path.
fn held(
    alloc: Global,
    host: &Host,
    verb: Verb,
    path: Path,
    secret: Secret,
    fields: &List<Field>,
    body: &Bytes,
    shape: Shape,
) -> Result<Wanted, NoMemory>
    ensures { IfOk result (λ wanted. wanted
        ≡ files.held host.now fields.now body.now shape path secret verb) }
{
    let list = fields.as_slice();
    match verb {
        Verb::Get => bare(alloc, Method::Get, path, secret, with_range(list, shape)),
        Verb::Head => bare(alloc, Method::Head, path, secret, shape),
        Verb::Put => stored(alloc, path, secret, list, body, shape),
        Verb::Delete => bare(alloc, Method::Delete, path, secret, shape),
        Verb::Mkcol => with_body(Method::Mkcol, path, secret, body, shape),
        Verb::Propfind => listed(alloc, path, secret, list, shape),
        Verb::Copy => carried(alloc, host, list, shape, false, path, secret),
        Verb::Move => carried(alloc, host, list, shape, true, path, secret),
    }
}

/// An ask without a body.
fn bare(
    alloc: Global,
    method: Method,
    path: Path,
    secret: Secret,
    shape: Shape,
) -> Result<Wanted, NoMemory>
    ensures { IfOk result (λ wanted. wanted ≡ files.at_path method path secret [] shape) }
{
    Ok(Wanted::Ask(
        Ask::Dav {
            secret,
            method,
            path,
            body: Bytes::new(alloc),
        },
        shape,
    ))
}

/// An ask with a copy of this body.
fn with_body(
    method: Method,
    path: Path,
    secret: Secret,
    body: &Bytes,
    shape: Shape,
) -> Result<Wanted, NoMemory>
    ensures { IfOk result (λ wanted. wanted ≡ files.at_path method path secret body.now shape) }
{
    let body = body.copy()?;
    Ok(Wanted::Ask(
        Ask::Dav {
            secret,
            method,
            path,
            body,
        },
        shape,
    ))
}

/// What a PUT wants: to write the whole file. One that sends a part of it is refused (RFC 9110 section
/// 14.5).
fn stored(
    alloc: Global,
    path: Path,
    secret: Secret,
    fields: &[Field],
    body: &Bytes,
    shape: Shape,
) -> Result<Wanted, NoMemory>
    ensures { IfOk result (λ wanted. wanted ≡ files.stored body.now shape path secret
        (first_value (codes "content-range") fields.now)) }
{
    match first_value(fields, "content-range") {
        Some(_) => bad_request(alloc, "no partial put", &shape),
        None => with_body(Method::Put, path, secret, body, shape),
    }
}

/// What a PROPFIND wants.
fn listed(
    alloc: Global,
    path: Path,
    secret: Secret,
    fields: &[Field],
    shape: Shape,
) -> Result<Wanted, NoMemory>
    ensures { IfOk result (λ wanted. wanted ≡ files.listed path secret shape (files.depth fields.now)) }
{
    match depth_of(first_value(fields, "depth")) {
        Some(Depth::Zero) => bare(alloc, Method::List0, path, secret, shape),
        Some(Depth::One) => bare(alloc, Method::List1, path, secret, shape),
        Some(Depth::Infinity) => not_finite(alloc, &shape),
        None => bad_request(alloc, "bad depth", &shape),
    }
}
