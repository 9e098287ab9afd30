//! Replies that come back over a dial in memory.
use crate::streams::bytes_of;
use ocm_base::{Bytes, List};
use std::alloc::Global;

/// Adds the reply of a row, where `-` is a dial that fails.
pub fn add_reply(alloc: Global, replies: &mut List<Option<Bytes>>, row: &str) -> Option<()> {
    if row == "-" {
        return replies.push(None).ok();
    }
    match bytes_of(alloc, row) {
        Some(bytes) => replies.push(Some(bytes)).ok(),
        None => None,
    }
}
