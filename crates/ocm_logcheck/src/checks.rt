//! The check of a log against an image.
ghost use Rattle.std.specs.Prelude.{◌≡◌, ◌≢◌, ◌≤◌, ◌^◌, [], length, Ok, Err};
ghost use Rattle.ocm_access_log.specs.Lines.{log_of};
ghost use Rattle.ocm_logcheck.specs.Checks.{Checks, fault_of, opened_in, opening_of, told_of, unless_refused};
ghost use Rattle.ocm_logcheck.specs.Replays.{number_told};
ghost use Rattle.ocm_law_sessions.specs.Readings.{refused_at};

use crate::blanks::count_true_of_none;
use crate::faults::LogFault;
use crate::refusing::first_refused;
use crate::replays::count_true;
use ocm_access_log::{LogReadFault, read_log};
use ocm_base::and;
use ocm_journal_audit::own_host;
use ocm_journal_image::{Image, ImageFault, read_blank_for_any, read_image};
use ocm_types::Host;
use std::alloc::Global;

/// The place of a label in a journal's file.
const LABEL: u64 = 9;

/// The number of lines of a log, where each is true of the journal that the bytes of an image are. The refusals come in
/// this order: the image, then the first bad line, then the first false line.
pub fn check_log(alloc: Global, image: &[u8], log: &[u8]) -> Result<u64, LogFault>
    requires { length image.now ≤ 2 ^ 62 }
    ensures { result ≢ Err LogFault.NoMemory → Checks image.now log.now result }
{
    if read_blank_for_any(alloc, image)? {
        return check_blank(alloc, log);
    }
    match read_image(alloc, image) {
        Ok(image) => {
            let told = check_image(alloc, &image, log);
            drop(image);
            told
        }
        Err(fault) => Err(fault_of(fault)),
    }
}

/// What is told of a fault of an image.
fn fault_of(fault: ImageFault) -> LogFault
    ensures { result ≡ fault_of fault }
{
    match fault {
        ImageFault::NotJournal(place) => LogFault::NotJournal(place),
        ImageFault::NoMemory => LogFault::NoMemory,
    }
}

/// What is told of so many true lines before the first that is false.
fn told(found: usize, lines: usize) -> Result<u64, LogFault>
    ensures { result ≡ number_told found lines }
{
    if found < lines {
        Err(LogFault::False(found as u64 + 1))
    } else {
        Ok(lines as u64)
    }
}

/// Checks a log of a server whose journal is blank.
fn check_blank(alloc: Global, log: &[u8]) -> Result<u64, LogFault>
    ensures { result ≢ Err LogFault.NoMemory → result ≡ told_of (Ok ([], [])) (log_of log.now) }
{
    match read_log(alloc, log) {
        Ok(lines) => {
            let found = count_true_of_none(lines.as_slice());
            told(found, lines.len())
        }
        Err(LogReadFault::BadLine(number)) => Err(LogFault::BadLine(number)),
        Err(LogReadFault::NoMemory) => Err(LogFault::NoMemory),
    }
}

/// Checks a log against an image.
fn check_image(alloc: Global, image: &Image, log: &[u8]) -> Result<u64, LogFault>
    ensures { result ≢ Err LogFault.NoMemory → result ≡ told_of (opening_of (Ok image.now)) (log_of log.now) }
{
    let host = own_host(alloc, image.header.label.as_slice())?;
    let Some(host) = host else {
        return Err(LogFault::NotJournal(LABEL));
    };
    let refused = first_refused(alloc, image.live.form, image.live.records.as_slice());
    let (host, refused) = and(host, refused)?;
    match refused {
        Some(place) => {
            drop(host);
            Err(LogFault::NotJournal(place))
        }
        None => check_records(alloc, host, image, log),
    }
}

/// Checks a log against the records of an image. A bad line is told once no record was refused.
fn check_records(alloc: Global, host: Host, image: &Image, log: &[u8]) -> Result<u64, LogFault>
    requires { host ≡ image.now.header.label }
    ensures { let records = image.now.live.records in result ≢ Err LogFault.NoMemory
        → result ≡ told_of (unless_refused (refused_at host image.now.live.form records) (opened_in image.now)) (log_of log.now) }
{
    let records = image.live.records.as_slice();
    let form = image.live.form;
    match read_log(alloc, log) {
        Ok(lines) => {
            let found = count_true(alloc, host, form, records, lines.as_slice())?;
            told(found, lines.len())
        }
        Err(LogReadFault::BadLine(number)) => {
            count_true(alloc, host, form, records, &[])?;
            Err(LogFault::BadLine(number))
        }
        Err(LogReadFault::NoMemory) => Err(LogFault::NoMemory),
    }
}
