//! The pages that tell an error: error bodies of Open Cloud Mesh API 1.1.

ghost use Rattle.std.specs.Prelude.{◌≡◌, ◌≢◌, ◌<◌, ◌≤◌, ◌++◌, length, IfOk, IsSome, IsTrue, option_copied};
ghost use Rattle.std.specs.Fmt.{decimal};
ghost use Rattle.http.specs.StatusCode.{reason_phrase};
ghost use Rattle.ocm_types.specs.Texts.{has_length};
ghost use Rattle.ocm_records.specs.Documents.{is_error};
ghost use Rattle.ocm_dav_pages.specs.Errors as told;
ghost use Rattle.ocm_dav_pages.specs.Pages as pages;

use crate::shapes::{Page, Shape};
use crate::writing::json_page;
use ocm_base::{List, NoMemory, Text};
use ocm_entry::{AddressField, Why};
use ocm_records::{ErrorBody, FieldNote, RecordFault, write_error};
use std::alloc::Global;

fn plain_error(alloc: Global, message: &str) -> Result<ErrorBody, NoMemory>
    ensures { IfOk result (λ error. error ≡ told.plain message.now) }
{
    let message = Text::of(alloc, message)?;
    Ok(ErrorBody {
        message,
        errors: List::new(alloc),
    })
}

/// A bad request, with what was wrong with a field.
fn noted_error(alloc: Global, reason: &str, name: &str) -> Result<ErrorBody, NoMemory>
    ensures { IfOk result (λ error. error ≡ told.noted reason.now name.now) }
{
    let message = Text::of(alloc, "bad request")?;
    let reason = Text::of(alloc, reason)?;
    let name = Text::of(alloc, name)?;
    let mut errors = List::new(alloc);
    errors.push(FieldNote {
        message: reason,
        name,
    })?;
    Ok(ErrorBody { message, errors })
}

fn error_page(
    alloc: Global,
    status: u16,
    error: &ErrorBody,
    shape: &Shape,
) -> Result<Page, NoMemory>
    requires code { (100 ≤ status) × (status < 1000) }
    requires phrase { IsSome (reason_phrase status) }
    requires error { IsTrue (is_error error.now) }
    ensures { IfOk result (λ page. page ≡ pages.error_page status error.now shape.now) }
{
    let text = write_error(alloc, error)?;
    json_page(alloc, status, &text, shape)
}

/// The page with `{"message":"<message>"}`. The message has at most 1,024 bytes, and the status has a phrase.
#[tactic(auto, using(crate::proofs::ErrorLaws::plain_is_error), unfolding(crate::specs::Pages::message_page))]
pub fn message_page(
    alloc: Global,
    status: u16,
    message: &str,
    shape: &Shape,
) -> Result<Page, NoMemory>
    requires code { (100 ≤ status) × (status < 1000) }
    requires phrase { IsSome (reason_phrase status) }
    requires short { length message.now ≤ 1024 }
    ensures { IfOk result (λ page. page ≡ pages.message_page status message.now shape.now) }
{
    let error = plain_error(alloc, message)?;
    error_page(alloc, status, &error, shape)
}

/// The page of a bad request, with what was wrong with a field: 400.
#[tactic(auto, using(crate::proofs::ErrorLaws::noted_is_error))]
fn note_page(alloc: Global, reason: &str, name: &str, shape: &Shape) -> Result<Page, NoMemory>
    requires reason { IsTrue (has_length 0 1024 reason.now) }
    requires name { IsTrue (has_length 0 1024 name.now) }
    ensures { IfOk result (λ page. page ≡ pages.note_page reason.now name.now shape.now) }
{
    let error = noted_error(alloc, reason, name)?;
    error_page(alloc, 400, &error, shape)
}

/// The page of a fault that the server counts: 503.
#[tactic(auto, using(crate::proofs::ErrorLaws::count_short))]
pub fn count_page(alloc: Global, words: &str, count: u64, shape: &Shape) -> Result<Page, NoMemory>
    requires { length words.now ≤ 64 }
    ensures { IfOk result (λ page. page
        ≡ pages.message_page 503 (words.now ++ decimal count) shape.now) }
{
    let digits = count.to_string(alloc)?;
    let mut message = String::from_str(alloc, words)?;
    message.push_str(digits.as_str())?;
    message_page(alloc, 503, message.as_str(), shape)
}

fn address_name(field: AddressField) -> &'static str
    ensures { result.now ≡ told.address_name field }
{
    match field {
        AddressField::ShareWith => "shareWith",
        AddressField::Owner => "owner",
    }
}

/// The field whose value is refused, where it is one.
fn refused_field(why: Why) -> Option<&'static str>
    ensures { option_copied result ≡ told.refused_field why }
{
    match why {
        Why::NotOurHost | Why::UnknownUser => Some("shareWith"),
        Why::OwnHost { field } => Some(address_name(field)),
        _ => None,
    }
}

fn refusal_error(alloc: Global, why: Why) -> Result<ErrorBody, NoMemory>
    ensures { IfOk result (λ error. error ≡ told.refusal why) }
{
    match refused_field(why) {
        Some(name) => noted_error(alloc, why.message(), name),
        None => plain_error(alloc, why.message()),
    }
}

/// The page of a refusal.
#[tactic(auto, using(crate::proofs::ErrorLaws::refusals))]
pub fn refusal_page(alloc: Global, why: Why, shape: &Shape) -> Result<Page, NoMemory>
    ensures { IfOk result (λ page. page ≡ pages.refusal_page why shape.now) }
{
    let error = refusal_error(alloc, why)?;
    error_page(alloc, why.status(), &error, shape)
}

/// The page of a record's fault: 400, and 501 where the record is not supported.
#[tactic(auto, using(crate::proofs::ErrorLaws::name_fits), unfolding(crate::specs::Pages::fault_page))]
pub fn fault_page(alloc: Global, fault: RecordFault, shape: &Shape) -> Result<Page, NoMemory>
    requires { fault ≢ RecordFault.NoMemory }
    ensures { IfOk result (λ page. page ≡ pages.fault_page fault shape.now) }
{
    match fault {
        RecordFault::NotJson => message_page(alloc, 400, "not json", shape),
        RecordFault::NotObject => message_page(alloc, 400, "not an object", shape),
        RecordFault::Missing(field) => note_page(alloc, "missing", field.name(), shape),
        RecordFault::Kind(field) => note_page(alloc, "wrong kind", field.name(), shape),
        RecordFault::Value(field) => note_page(alloc, "bad value", field.name(), shape),
        RecordFault::Unsupported(_) => message_page(alloc, 501, "not supported", shape),
        RecordFault::NoMemory => unreachable!(),
    }
}
