ghost use Rattle.std.specs.Prelude.{◌≡◌, ◌≤◌, ◌^◌, length, true, is_some};
ghost use Rattle.ocm_turn.specs.Calls.{StandIn, InOrder};

use crate::board::TurnSeat;
use crate::dated::Dated;
use std::marker::Model;

/// A caller's token for one turnstile. It counts its own calls, and a contract sees what it knows:
/// the base and the terms of the value behind the turnstile, the history up to its last call with the
/// moment behind each entry, its own calls, the greatest number of calls that were over when it made or
/// was refused one, and its parts. The first pass of a turnstile has all parts and gives one to each pass
/// that is split off it; a join adds up the parts of both. A pass that has all parts again is the only
/// one left, and has made every call of the turnstile.
#[derive(Drop)]
pub struct Pass<T: Dated> {
    pub(crate) seat: TurnSeat<T>,
    pub(crate) calls: u64,
    ghost named: { is_some seat.me.0.terms ≡ true },
}

impl<T: Dated> Model for Pass<T> {
    ghost use Rattle.std.specs.Prelude.{◌≡◌, ◌≤◌, ◌^◌, length, [], true, is_some};
    ghost use Rattle.ocm_turn.specs.Calls.{StandIn, InOrder};
    ghost use Rattle.ocm_turn.specs.Passes.{Known, the_some};
    ghost use Rattle.ocm_turn.specs.Rule.{IsIdle};

    ghost Value = { Known T.Terms };

    ghost view = { λ p. record {
      turnstile = p.seat.table_id;
      base = p.seat.me.0.base;
      terms = the_some p.seat.me.0.terms p.named;
      seen = p.seat.me.0.seen;
      moments = p.seat.me.0.moments;
      mine = p.seat.me.0.mine;
      drawn = p.seat.me.0.drawn;
      parts = p.seat.me.0.parts;
    } };

    ghost invariant = { λ p. IsIdle p.seat.me.0 × (p.seat.me.1 ≡ []) × (length p.seat.me.0.mine ≡ p.calls) × (p.seat.me.0.limit ≤ 2 ^ 63)
        × StandIn p.seat.me.0.seen p.seat.me.0.mine × InOrder p.seat.me.0.mine × T.legal (the_some p.seat.me.0.terms p.named) p.seat.me.0.base p.seat.me.0.seen
        × (length p.seat.me.0.moments ≡ length p.seat.me.0.seen) };
}

impl<T: Dated> Pass<T> {
    /// How many calls were made with this pass, and with those that were joined to it.
    pub fn calls(&self) -> u64
        ensures number { result ≡ length self.now.mine }
        ensures stand { StandIn self.now.seen self.now.mine × InOrder self.now.mine }
        ensures legal { T.legal self.now.terms self.now.base self.now.seen }
        ensures paired { length self.now.moments ≡ length self.now.seen }
    {
        self.calls
    }
}
