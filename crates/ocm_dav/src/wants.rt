use ocm_dav_pages::{Page, Shape};
use ocm_entry::Ask;

/// What a request wants.
#[derive(Drop)]
pub enum Wanted {
    /// That this is asked, and that the page of its reply has this shape.
    Ask(Ask, Shape),
    /// This page, with nothing asked: the discovery document, or a refusal of the request.
    Page(Page),
}
