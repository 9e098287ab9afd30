//! Cases of what a server makes of requests, and of the pages that its replies become. Each line of standard input is one,
//! `KIND ROW`, and for each a line is written: the ask, or the page.
#![tactic(auto)]

mod asks;
mod pages;
mod replies;
mod requests;

use crate::pages::{fault_told, file_told, one_page_told, reply_told, shape_told};
use crate::requests::wanted_told;
use ocm_cases_rows::{line_of, tell_lines};
use std::alloc::Global;
use std::io;

fn main(rt: HostRuntime) -> io::Result<()> {
    let alloc = rt.alloc();
    tell_lines(&rt, alloc, |line| line_of(line_told(alloc, line)))
}

/// What a case comes to. None where the line is no case, or where memory was wanting.
fn line_told(alloc: Global, line: &str) -> Option<String> {
    let (kind, row) = line.split_once(' ')?;
    match kind {
        "request" => wanted_told(alloc, row),
        "reply" => reply_told(alloc, row),
        "file" => file_told(alloc, row),
        "shape" => shape_told(alloc, row),
        "fault" => fault_told(alloc, row),
        "page" => one_page_told(alloc, row),
        _ => None,
    }
}
