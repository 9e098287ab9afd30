//! When the delivering worker makes its rounds.

use crate::posts::Posts;
use std::alloc::Global;
use std::io::Eprint;
use std::net::Net;
use std::sync::{Arc, Wait};
use std::thread::Threads;
use std::time;

/// The rounds of the delivering worker: at the start, when the bell is rung, when an answer came, and once in a minute.
pub struct Delivering<'a, R: Wait + time::Clock> {
    posts: Arc<Posts<'a, R>, Global>,
    is_last: bool,
}

impl<R: Wait + time::Clock> Drop for Delivering<'_, R> {
    fn drop(self) {
        let Delivering {
            posts: _,
            is_last: _,
        } = self;
    }
}

impl<'a, R: Wait + time::Clock> Delivering<'a, R> {
    /// The rounds over this post, of which none was made.
    pub fn new(posts: Arc<Posts<'a, R>, Global>) -> Delivering<'a, R> {
        Delivering {
            posts,
            is_last: false,
        }
    }

    /// Waits for the next round, and meanwhile goes on with the deliveries that are under way. False at the end: behind the
    /// round that follows the end of the bell.
    pub fn next(&mut self) -> bool
    where
        R: Threads + Net + Eprint,
    {
        if self.is_last {
            return false;
        }
        self.posts.end_round();
        let rt = self.posts.rt();
        for _ in rt.forever() {
            let is_over = self.posts.is_over();
            if self.posts.begin_round() {
                self.is_last = is_over;
                return true;
            }
        }
        unreachable!()
    }
}
