//! What is known of a host.

ghost use Rattle.std.specs.Prelude.{◌≡◌, ℕ, false, true, [], not, Some, OnOk, OnErr};
ghost use Rattle.ocm_schedule.specs.Schedules as schedule;
ghost use Rattle.ocm_schedule.specs.Schedules.{Peer};

use std::alloc::{AllocError, Global};
use std::collections::VecDeque;
use std::marker::Model;

/// What is known of a host: whose it is, the lane that it belongs to, whether an exchange with it is under way, and its jobs.
pub struct Host {
    owner: usize,
    lane: usize,
    busy: bool,
    jobs: VecDeque<u64>,
}

impl Model for Host {
    ghost use Rattle.ocm_schedule.specs.Schedules.{Peer};

    ghost Value = { Peer };

    ghost view = { λ a. record { owner = a.owner; lane = a.lane; busy = a.busy; jobs = a.jobs.items } };
}

impl Drop for Host {
    fn drop(self) {
        let Host {
            owner: _,
            lane: _,
            busy: _,
            jobs: _,
        } = self;
    }
}

impl Host {
    /// A host without a job.
    pub fn new(alloc: Global, owner: usize, lane: usize) -> Host
        ensures { result ≡ record { owner = owner; lane = lane; busy = false; jobs = [] } }
    {
        Host {
            owner,
            lane,
            busy: false,
            jobs: VecDeque::new(alloc),
        }
    }

    pub fn owner(&self) -> usize
        ensures { result ≡ self.now.owner }
    {
        self.owner
    }

    pub fn lane(&self) -> usize
        ensures { result ≡ self.now.lane }
    {
        self.lane
    }

    pub fn is_busy(&self) -> bool
        ensures { result ≡ self.now.busy }
    {
        self.busy
    }

    /// Whether it has no job, and no exchange with it is under way.
    pub fn is_idle(&self) -> bool
        ensures { result ≡ schedule.is_idle self.now }
    {
        !self.busy && self.jobs.is_empty()
    }

    /// Whether jobs are left after an exchange.
    pub fn has_more(&self, stays: bool) -> bool
        ensures { result ≡ not (schedule.is_none (schedule.left_jobs stays self.now.jobs)) }
    {
        if stays {
            !self.jobs.is_empty()
        } else {
            1 < self.jobs.len()
        }
    }

    /// Adds a job at the end.
    pub fn push(&mut self, job: u64) -> Result<(), AllocError>
        ensures ok { OnOk result (self.new ≡ schedule.with_job self.old job) }
        ensures err { OnErr result (self.new ≡ self.old) }
    {
        self.jobs.push_back(job)?;
        Ok(())
    }

    /// Drops the last job again.
    pub fn pop(&mut self)
        ensures { (before : Peer) (job : ℕ) → self.old ≡ schedule.with_job before job → self.new ≡ before }
    {
        let _ = self.jobs.pop_back();
    }

    /// Belongs to that owner and lane.
    pub fn give_to(&mut self, owner: usize, lane: usize)
        ensures { self.new ≡ schedule.given self.old owner lane }
    {
        self.owner = owner;
        self.lane = lane;
    }

    /// Takes a seat for the first job.
    pub fn begin(&mut self) -> u64
        requires { schedule.is_none self.old.jobs ≡ false }
        ensures job { schedule.first_job self.old.jobs ≡ Some result }
        ensures begun { self.new ≡ schedule.with_seat self.old }
    {
        self.busy = true;
        match self.jobs.front() {
            Some(job) => *job,
            None => unreachable!(),
        }
    }

    /// Gives its seat back, and belongs to that lane. The first job stays at the end, or is done.
    pub fn end(&mut self, lane: usize, stays: bool)
        ensures { self.new ≡ schedule.without_seat self.old lane stays }
    {
        self.lane = lane;
        self.busy = false;
        if stays {
            if !self.jobs.is_empty() {
                self.jobs.rotate_left(1);
            }
        } else {
            let _ = self.jobs.pop_front();
        }
    }
}
