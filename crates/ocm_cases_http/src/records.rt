//! The records of Open Cloud Mesh, read and written again. What is written is the record's own text.
ghost use Rattle.std.specs.Prelude.{IsTrue};
ghost use Rattle.ocm_records.specs.Documents.{is_discovery, is_error};

use ocm_base::{Bytes, NoMemory, Text};
use ocm_cases_rows::escaped;
use ocm_records::{
    Discovery, ErrorBody, LocalAsk, RecordFault, read_discovery, read_error, read_local,
    read_notice, read_offer, write_discovery, write_error, write_notice, write_offer,
};
use ocm_types::{Fresh, Notice, Offer};
use std::alloc::Global;

fn again(alloc: Global, written: Result<Bytes, NoMemory>) -> Option<String> {
    escaped(alloc, written.ok()?.as_slice())
}

fn fault_told(alloc: Global, fault: RecordFault) -> Option<String> {
    format!(in alloc; "{fault:?}").ok()
}

/// The offer that these bytes are, or their fault.
pub fn offer_told(alloc: Global, row: &str) -> Option<String> {
    match read_offer(alloc, row.as_bytes()) {
        Ok(offer) => offer_again(alloc, offer),
        Err(fault) => fault_told(alloc, fault),
    }
}

fn offer_again(alloc: Global, offer: Offer) -> Option<String> {
    let written = write_offer(alloc, &offer);
    drop(offer);
    again(alloc, written)
}

/// What was read of an offer: the user and the host of the recipient, the name, the id, the users and hosts of the owner
/// and of the sender, the secret and the permissions.
pub fn offer_fields_told(alloc: Global, row: &str) -> Option<String> {
    match read_offer(alloc, row.as_bytes()) {
        Ok(offer) => fields_told(alloc, offer),
        Err(fault) => fault_told(alloc, fault),
    }
}

fn fields_told(alloc: Global, offer: Offer) -> Option<String> {
    let told = match offer.perms.text(alloc) {
        Ok(perms) => fields_with(alloc, &offer, perms.as_str()),
        Err(_) => None,
    };
    drop(offer);
    told
}

fn fields_with(alloc: Global, offer: &Offer, perms: &str) -> Option<String> {
    let fields = [
        offer.with.user.as_str(),
        offer.with.host.as_str(),
        offer.name.as_str(),
        offer.id.as_str(),
        offer.owner.user.as_str(),
        offer.owner.host.as_str(),
        offer.sender.user.as_str(),
        offer.sender.host.as_str(),
        offer.secret.as_str(),
        perms,
    ];
    fields.join(alloc, " ").ok()
}

/// The notification that these bytes are, or their fault.
pub fn notice_told(alloc: Global, row: &str) -> Option<String> {
    match read_notice(alloc, row.as_bytes()) {
        Ok(notice) => notice_again(alloc, notice),
        Err(fault) => fault_told(alloc, fault),
    }
}

fn notice_again(alloc: Global, notice: Notice) -> Option<String> {
    let written = write_notice(alloc, &notice);
    drop(notice);
    again(alloc, written)
}

/// The error body that these bytes are, or their fault.
pub fn error_told(alloc: Global, row: &str) -> Option<String> {
    match read_error(alloc, row.as_bytes()) {
        Ok(body) => error_again(alloc, body),
        Err(fault) => fault_told(alloc, fault),
    }
}

fn error_again(alloc: Global, body: ErrorBody) -> Option<String>
    requires { IsTrue (is_error body) }
{
    let written = write_error(alloc, &body);
    drop(body);
    again(alloc, written)
}

/// The local command that these bytes are, or their fault.
pub fn local_told(alloc: Global, row: &str) -> Option<String> {
    match read_local(alloc, row.as_bytes(), Fresh::new([0; 16])) {
        Ok(ask) => local_ask_told(alloc, ask),
        Err(fault) => fault_told(alloc, fault),
    }
}

fn local_ask_told(alloc: Global, ask: LocalAsk) -> Option<String> {
    let told = format!(in alloc; "{ask:?}");
    drop(ask);
    told.ok()
}

/// The discovery document that these bytes are: what was read of it, and the document written again.
pub fn discovery_told(alloc: Global, row: &str) -> Option<String> {
    match read_discovery(alloc, row.as_bytes()) {
        Ok(document) => document_told(alloc, document),
        Err(fault) => fault_told(alloc, fault),
    }
}

fn document_told(alloc: Global, document: Discovery) -> Option<String>
    requires { IsTrue (is_discovery document) }
{
    let written = write_discovery(alloc, &document);
    let fields = document_fields(alloc, &document);
    drop(document);
    both_told(alloc, fields, again(alloc, written))
}

fn both_told(alloc: Global, fields: Option<String>, written: Option<String>) -> Option<String> {
    match fields {
        Some(fields) => with_written(alloc, fields, written),
        None => None,
    }
}

fn with_written(alloc: Global, fields: String, written: Option<String>) -> Option<String> {
    match written {
        Some(written) => format!(in alloc; "{} {}", fields.as_str(), written.as_str()).ok(),
        None => None,
    }
}

fn document_fields(alloc: Global, document: &Discovery) -> Option<String> {
    let fields = [
        if document.enabled {
            "enabled"
        } else {
            "not enabled"
        },
        document.version.as_str(),
        document.end_point.as_str(),
        text_or_none(&document.webdav),
    ];
    fields.join(alloc, " ").ok()
}

fn text_or_none(text: &Option<Text>) -> &str {
    match text {
        Some(text) => text.as_str(),
        None => "none",
    }
}
