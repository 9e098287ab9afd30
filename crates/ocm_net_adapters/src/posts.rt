ghost use Rattle.std.specs.Prelude.{◌≡◌, [], Some, None, is_some, true, false};
ghost use Rattle.ocm_net_posts.specs.Exchanges.{joined};

use ocm_base::Trace;
use ocm_net_posts::{Exchanges, Given, Posts};
use ocm_pump::{Answered, Post, PumpFault};
use ocm_types::Numbered;
use std::alloc::Global;
use std::io::Eprint;
use std::net::Net;
use std::sync::{Arc, Wait};
use std::thread::Threads;
use std::time;

/// How a server's messages are delivered over TCP. A worker that delivers has one over deliveries that go on beside it; one
/// that serves has one that makes none. It tells the exchanges of each delivery whose answer it gave, once it gave that.
pub struct TcpPost<'a, R: Wait + time::Clock> {
    posts: Option<Arc<Posts<'a, R>, Global>>,
    told: Trace<Exchanges>,
}

impl<R: Wait + time::Clock> Drop for TcpPost<'_, R> {
    fn drop(self) {
        let TcpPost { posts: _, told: _ } = self;
    }
}

impl<'a, R: Wait + time::Clock> TcpPost<'a, R> {
    /// A post over these deliveries.
    pub fn new(posts: Arc<Posts<'a, R>, Global>) -> TcpPost<'a, R>
        ensures delivers { is_some result.posts ≡ true }
        ensures fresh { result.told ≡ [] }
    {
        TcpPost {
            posts: Some(posts),
            told: Trace::new(),
        }
    }

    /// A post that delivers nothing.
    pub fn idle() -> TcpPost<'a, R>
        ensures delivers { is_some result.posts ≡ false }
        ensures fresh { result.told ≡ [] }
    {
        TcpPost {
            posts: None,
            told: Trace::new(),
        }
    }
}

impl<'a, R: Wait + time::Clock + Threads + Net + Eprint> Post for TcpPost<'a, R> {
    ghost exchanges = { λ p. Some (joined p.told) };

    ghost faults = { λ _. 0 };

    ghost delivers = { λ p. is_some p.posts };

    ghost asked = { λ _. None };

    fn delivers(&self) -> bool {
        self.posts.is_some()
    }

    fn deliver(
        &mut self,
        _alloc: Global,
        message: &Numbered,
    ) -> Option<Result<Answered, PumpFault>> {
        match &self.posts {
            Some(posts) => match posts.deliver(message) {
                Some(Given { answer, exchanges }) => {
                    self.told.push(&exchanges);
                    Some(answer)
                }
                None => None,
            },
            None => unreachable!(),
        }
    }

    fn settled(&mut self, message: &Numbered, is_settled: bool) {
        if let Some(posts) = &self.posts {
            posts.settled(message, is_settled);
        }
    }
}
