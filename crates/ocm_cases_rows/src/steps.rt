//! Rows of steps.
use crate::texts::{add, cut};
use std::alloc::Global;

/// What the steps of a row are done to.
pub trait Steps {
    /// What one step tells, which is its kind, and behind a space what it names.
    fn step_told(&mut self, alloc: Global, kind: &str, row: &str) -> Option<String>;
}

/// What each step of a row tells, one after another. In the row and in what is told `; ` stands between two.
pub fn steps_told<S: Steps>(alloc: Global, to: &mut S, row: &str) -> Option<String> {
    let mut text = String::new(alloc);
    match add_each(alloc, to, &mut text, row) {
        Some(()) => Some(text),
        None => {
            drop(text);
            None
        }
    }
}

fn add_each<S: Steps>(alloc: Global, to: &mut S, text: &mut String, row: &str) -> Option<()> {
    for step in row.split("; ") {
        add_step(alloc, to, text, step)?;
    }
    Some(())
}

fn add_step<S: Steps>(alloc: Global, to: &mut S, text: &mut String, step: &str) -> Option<()> {
    if !text.is_empty() {
        text.push_str("; ").ok()?;
    }
    let (kind, row) = cut(step, " ");
    add(text, to.step_told(alloc, kind, row))
}
