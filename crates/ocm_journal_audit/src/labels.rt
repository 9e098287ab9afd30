//! Whose journal an image is, by its label.
ghost use Rattle.std.specs.Prelude.{◌≡◌, IfOk, if◌then◌else◌, Some, None};
ghost use Rattle.ocm_journal_audit.specs.Audits.{is_own_host};

use ocm_base::NoMemory;
use ocm_types::Host;
use std::alloc::Global;

/// The host whose own text a label is. None where it is no host's.
pub fn own_host(alloc: Global, label: &[u8]) -> Result<Option<Host>, NoMemory>
    ensures { IfOk result (λ host. host ≡ (if is_own_host label.now then Some label.now else None)) }
{
    match str::from_utf8(label) {
        Ok(text) => Host::read_canonical(alloc, text),
        Err(_) => Ok(None),
    }
}

/// Whether a label is the canonical text of a host.
pub fn is_own_host(alloc: Global, label: &[u8]) -> Result<bool, NoMemory>
    ensures { IfOk result (λ own. own ≡ is_own_host label.now) }
{
    let host = own_host(alloc, label)?;
    Ok(host.is_some())
}
