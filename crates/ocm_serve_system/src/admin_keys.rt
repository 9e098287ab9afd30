//! The administrator's key, where a file holds it.
ghost use Rattle.ocm_serve_system.specs.Keys.{IsKeyOf};

use crate::openings::{Cause, OpenFault};
use ocm_base::{NoMemory, StdSource};
use ocm_serve_options::{AdminKey, KeyFault, read_key};
use ocm_types::Secret;
use std::alloc::Global;
use std::fs::File;
use std::io::{self, ErrorKind};
use std::rt::Files;

/// The administrator's key of orders: the one that they have, or what the file that they name holds.
pub fn read_admin<R: Files<File = File>>(
    rt: &R,
    alloc: Global,
    admin: &AdminKey,
) -> Result<Secret, OpenFault>
    ensures { IsKeyOf admin.now result }
{
    match admin {
        AdminKey::Key(key) => match key.copy() {
            Ok(key) => Ok(key),
            Err(NoMemory) => Err(OpenFault::NoMemory),
        },
        AdminKey::File(path) => read_file(rt, alloc, path.as_str()),
    }
}

/// The key that a file holds. Of a file without an end, as a device, no more is read than a key's file may have.
fn read_file<R: Files<File = File>>(
    rt: &R,
    alloc: Global,
    path: &str,
) -> Result<Secret, OpenFault> {
    match File::open(rt, path) {
        Ok(file) => read_key(alloc, &mut StdSource::new(file)).map_err(fault_of),
        Err(error) => Err(open_fault(&error)),
    }
}

/// Why a file that was opened gives no key.
fn fault_of(fault: KeyFault) -> OpenFault {
    match fault {
        KeyFault::ReadFault => OpenFault::AdminFile(Cause::Other),
        KeyFault::NoKey => OpenFault::NoAdminKey,
        KeyFault::NoMemory => OpenFault::NoMemory,
    }
}

/// Why a file cannot be opened.
fn open_fault(error: &io::Error) -> OpenFault {
    match error.kind() {
        ErrorKind::OutOfMemory => OpenFault::NoMemory,
        _ => OpenFault::AdminFile(Cause::of(error)),
    }
}
