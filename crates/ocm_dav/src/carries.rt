//! COPY and MOVE (RFC 4918 sections 9.8 and 9.9).

ghost use Rattle.std.specs.Prelude.{◌≡◌, IfOk};
ghost use Rattle.ocm_dav.specs.Carries as carries;

use crate::depths::{Depth, depth_of, overwrite_of};
use crate::fields::first_value;
use crate::refusals::{bad_path, bad_request, other_server};
use crate::wants::Wanted;
use ocm_base::NoMemory;
use ocm_dav_pages::Shape;
use ocm_davmore::{DestinationFault, read_destination};
use ocm_entry::Ask;
use ocm_http::Field;
use ocm_path::Path;
use ocm_types::{Host, Secret};
use std::alloc::Global;

/// What the holder of a secret wants by COPY, or by MOVE where it is moving: all that lies below the
/// path at another path of this server.
pub(crate) fn carried(
    alloc: Global,
    host: &Host,
    fields: &[Field],
    shape: Shape,
    moving: bool,
    from: Path,
    secret: Secret,
) -> Result<Wanted, NoMemory>
    ensures { IfOk result (λ wanted. wanted
        ≡ carries.carried host.now fields.now shape moving from secret) }
{
    match depth_of(first_value(fields, "depth")) {
        Some(Depth::Infinity) => sent(alloc, host, fields, shape, moving, from, secret),
        Some(Depth::Zero | Depth::One) | None => bad_request(alloc, "bad depth", &shape),
    }
}

/// What is wanted once the depth is known.
fn sent(
    alloc: Global,
    host: &Host,
    fields: &[Field],
    shape: Shape,
    moving: bool,
    from: Path,
    secret: Secret,
) -> Result<Wanted, NoMemory>
    ensures { IfOk result (λ wanted. wanted ≡ carries.sent host.now fields.now shape moving from secret
        (carries.destination fields.now)) }
{
    let Some(destination) = first_value(fields, "destination") else {
        return bad_request(alloc, "no destination", &shape);
    };
    match read_destination(alloc, destination, host) {
        Ok(to) => placed(alloc, fields, shape, moving, from, secret, to),
        Err(DestinationFault::OtherServer) => other_server(alloc, &shape),
        Err(DestinationFault::BadPath(fault)) => bad_path(alloc, fault, &shape),
        Err(DestinationFault::NoMemory) => Err(NoMemory),
    }
}

/// What is wanted once both paths are known.
fn placed(
    alloc: Global,
    fields: &[Field],
    shape: Shape,
    moving: bool,
    from: Path,
    secret: Secret,
    to: Path,
) -> Result<Wanted, NoMemory>
    ensures { IfOk result (λ wanted. wanted ≡ carries.overwriting shape moving from secret to
        (carries.overwrite fields.now)) }
{
    match overwrite_of(first_value(fields, "overwrite")) {
        Some(overwrite) => Ok(Wanted::Ask(
            Ask::Carry {
                secret,
                from,
                to,
                moving,
                overwrite,
            },
            shape,
        )),
        None => bad_request(alloc, "bad overwrite", &shape),
    }
}
