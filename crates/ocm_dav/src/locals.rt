//! What local users and the administrator post.

ghost use Rattle.std.specs.Prelude.{◌≡◌, None, IfOk, bytes_eq};
ghost use Rattle.ocm_records.specs.Commands.{local};
ghost use Rattle.ocm_records.specs.Rows.{record_of};
ghost use Rattle.ocm_dav.specs.Posts as posts;

use crate::configs::Config;
use crate::posts::post_refusal;
use crate::refusals::{bad_record, cross_site, refused};
use crate::secrets::credentials;
use crate::sites::is_cross_site;
use crate::wants::Wanted;
use ocm_base::{Bytes, List, NoMemory};
use ocm_dav_pages::Shape;
use ocm_entry::{Ask, Why};
use ocm_http::Field;
use ocm_records::{LocalAsk, read_local};
use ocm_types::{Fresh, Name, Secret};
use std::alloc::Global;

/// What a request at the route of local commands wants, with these drawn bytes. The site that it comes
/// from is looked at before the credentials, and they come before the record, and the
/// administrator's key after it.
pub(crate) fn local_wanted(
    alloc: Global,
    config: &Config,
    method: &str,
    fields: &List<Field>,
    body: &Bytes,
    fresh: Fresh,
    shape: Shape,
) -> Result<Wanted, NoMemory>
    requires { shape.range ≡ None }
    ensures { IfOk result (λ wanted. wanted
        ≡ posts.local_wanted config.now.host config.now.admin method.now fields.now body.now fresh shape) }
{
    match post_refusal(alloc, method, body, &shape) {
        Ok(Some(page)) => Ok(Wanted::Page(page)),
        Ok(None) => from_own_site(alloc, config, fields, body.as_slice(), fresh, shape),
        Err(NoMemory) => Err(NoMemory),
    }
}

/// What a command wants, unless a page of another site posts it.
fn from_own_site(
    alloc: Global,
    config: &Config,
    fields: &List<Field>,
    body: &[u8],
    fresh: Fresh,
    shape: Shape,
) -> Result<Wanted, NoMemory>
    requires { shape.range ≡ None }
    ensures { IfOk result (λ wanted. wanted
        ≡ posts.from_own_site config.now.host config.now.admin fields.now body.now fresh shape) }
{
    match is_cross_site(alloc, &config.host, fields.as_slice()) {
        Ok(true) => cross_site(alloc, &shape),
        Ok(false) => keyed(alloc, &config.admin, fields, body, fresh, shape),
        Err(NoMemory) => Err(NoMemory),
    }
}

fn keyed(
    alloc: Global,
    admin: &Secret,
    fields: &List<Field>,
    body: &[u8],
    fresh: Fresh,
    shape: Shape,
) -> Result<Wanted, NoMemory>
    requires { shape.range ≡ None }
    ensures { IfOk result (λ wanted. wanted
        ≡ posts.by_key admin.now fields.now body.now fresh shape) }
{
    match credentials(alloc, fields) {
        Ok(Some(secret)) => command_wanted(alloc, admin, secret, body, fresh, shape),
        Ok(None) => refused(alloc, Why::Unauthorized, &shape),
        Err(NoMemory) => Err(NoMemory),
    }
}

/// What a command wants of the holder of the secret.
fn command_wanted(
    alloc: Global,
    admin: &Secret,
    secret: Secret,
    body: &[u8],
    fresh: Fresh,
    shape: Shape,
) -> Result<Wanted, NoMemory>
    requires { shape.range ≡ None }
    ensures { IfOk result (λ wanted. wanted
        ≡ posts.command_wanted admin.now secret fresh shape (record_of (local fresh) body.now)) }
{
    match read_local(alloc, body, fresh) {
        Ok(LocalAsk::User(name)) => user_wanted(alloc, admin, secret, name, fresh, shape),
        Ok(LocalAsk::Command(cmd)) => Ok(Wanted::Ask(Ask::Local { key: secret, cmd }, shape)),
        Err(fault) => bad_record(alloc, fault, &shape),
    }
}

/// A new user, where the secret is the administrator's key.
fn user_wanted(
    alloc: Global,
    admin: &Secret,
    secret: Secret,
    name: Name,
    fresh: Fresh,
    shape: Shape,
) -> Result<Wanted, NoMemory>
    requires { shape.range ≡ None }
    ensures { IfOk result (λ wanted. wanted
        ≡ posts.user_wanted admin.now secret name fresh shape) }
{
    if is_same(&secret, admin) {
        Ok(Wanted::Ask(Ask::AddUser { name, fresh }, shape))
    } else {
        refused(alloc, Why::Unauthorized, &shape)
    }
}

fn is_same(secret: &Secret, other: &Secret) -> bool
    ensures { result ≡ bytes_eq secret.now other.now }
{
    secret == other
}
