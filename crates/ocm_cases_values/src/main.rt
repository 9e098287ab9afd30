//! Cases of readers: of texts, paths, numbers and JSON, and of what a running server takes from the system at its start.
//! Each line of standard input is one, and for each a line is written: the value that is read, or the fault.
//!
//! | line | tells |
//! |---|---|
//! | `hex`, `decimal`, `path`, `join`, `parent`, `above`, `copy` and a text | a number, bytes, or a path |
//! | `address`, `own`, `host`, `ownhost`, `name`, `perms` and a text | a text of the protocol |
//! | `open`, `openhex`, `text`, `inner`, `copied`, `flag`, `number`, `texts`, `objects` and JSON | an object, or a field of it |
//! | `plan WORD WORD ..` | what these words order of a server, or `usage` |
//! | `complaint WORD WORD ..` | what is wrong with these words of `serve`, or `none` |
//! | `key HEX` | the administrator's key that a file of these bytes holds, or `none` |
//! | `clock` | whether the system's clock is past the year 2020, and does not go back |
#![tactic(auto)]

mod clocks;
mod json;
mod keys;
mod paths;
mod plain;
mod plans;
mod texts;

use crate::clocks::clock_told;
use crate::json::json_told;
use crate::keys::key_told;
use crate::paths::{above_told, copy_told, join_told, parent_told, path_told};
use crate::plain::{decimal_told, hex_told};
use crate::plans::{complaint_told, plan_told};
use crate::texts::{
    address_told, host_told, name_told, own_address_told, own_host_told, perms_told,
};
use ocm_cases_rows::{cut, line_of, tell_lines};
use std::alloc::Global;
use std::{io, time};

fn main(rt: HostRuntime) -> io::Result<()> {
    let alloc = rt.alloc();
    tell_lines(&rt, alloc, |line| line_of(line_told(&rt, alloc, line)))
}

/// What a case comes to; nothing where the line is no case, or there was no memory.
fn line_told<R: time::Clock>(rt: &R, alloc: Global, line: &str) -> Option<String> {
    let (kind, text) = cut(line, " ");
    match kind {
        "clock" => clock_told(rt, alloc),
        "plan" => plan_told(alloc, text),
        "complaint" => complaint_told(alloc, text),
        "key" => key_told(alloc, text),
        "hex" => hex_told(alloc, text),
        "decimal" => decimal_told(alloc, text),
        _ => any_path_told(alloc, kind, text),
    }
}

fn any_path_told(alloc: Global, kind: &str, text: &str) -> Option<String> {
    match kind {
        "path" => path_told(alloc, text),
        "join" => join_told(alloc, text),
        "parent" => parent_told(alloc, text),
        "above" => above_told(alloc, text),
        "copy" => copy_told(alloc, text),
        _ => any_text_told(alloc, kind, text),
    }
}

fn any_text_told(alloc: Global, kind: &str, text: &str) -> Option<String> {
    match kind {
        "address" => address_told(alloc, text),
        "own" => own_address_told(alloc, text),
        "host" => host_told(alloc, text),
        "ownhost" => own_host_told(alloc, text),
        "name" => name_told(alloc, text),
        "perms" => perms_told(alloc, text),
        _ => json_told(alloc, kind, text),
    }
}
