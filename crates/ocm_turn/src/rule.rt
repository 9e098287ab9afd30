ghost use Rattle.std.specs.Prelude.{List, ℕ, ⊤};
ghost use Rattle.ocm_entry.specs.declared.asks.Ask.TheVariants as asks;
ghost use Rattle.ocm_entry.specs.declared.replies.Reply.TheVariants as replies;
ghost use Rattle.ocm_entry.specs.declared.entries.Entry.{Entry};
ghost use Rattle.ocm_turn.specs.Calls.{entry};
ghost use Rattle.ocm_turn.specs.Rule.{Holds, newcomer, spent_view};
ghost use Rattle.ocm_turn.specs.Steps.{StandsAt, names, draws, rings, looks, checks, passes, sets_apart, refuses, finishes, parted, beside, joined};

use crate::behind::Behind;
use crate::dated::Dated;
use crate::view::View;
use atomic_table::{Join, Play, Split, TableRule};
use std::marker::{Brand, PhantomData};
use std::snapshot::Snapshot;

/// The rule of the table behind a turnstile.
pub struct Law<T> {
    of: PhantomData<T>,
}

/// What the table is told when it is made: the limit, and the value for contracts alone.
#[derive(Drop)]
pub struct Start<T> {
    pub limit: u64,
    pub value: Snapshot<T>,
}

impl<T: Dated> TableRule<Option<Behind<T>>, View<T::Terms, T::Mark>, Start<T>> for Law<T> {
    ghost holds = { λ key. Holds T.terms (StandsAt T.stands T.came) T.legal T.awaited key.limit key.value.value };

    ghost first = { λ key. newcomer key.limit (T.terms key.value.value) };
}

/// What is known of the base for which the value stands at the start. Nobody has the base when the
/// program runs: whoever makes a turnstile picks this.
pub trait Founded {
    ghost known: { List Entry → Type 0 };
}

impl Founded for Brand {
    ghost known = { λ _. ⊤ };
}

/// The step that names the base.
pub struct Name<J> {
    of: PhantomData<J>,
}

impl<B, G, M, J: Founded> Play<Option<B>, View<G, M>> for Name<J> {
    ghost then = { names J.known };
}

/// A try to draw a ticket.
pub struct Draw;

impl<B, G, M> Play<Option<B>, View<G, M>> for Draw {
    ghost then = { draws };
}

/// A ring of a bell, for the caller that sleeps on it, or a step in the queue of the calls that may have to wait.
pub struct Ring;

impl<B, G, M> Play<Option<B>, View<G, M>> for Ring {
    ghost then = { rings };
}

/// The limit of the turnstile at which a look is made. Each look picks it.
pub trait Limited {
    ghost limit: { ℕ };
}

impl Limited for Brand {
    ghost limit = { 0 };
}

/// A look at the number of turns that are over.
pub struct LookAtDone<L> {
    of: PhantomData<L>,
}

impl<T: Dated, L: Limited> Play<Option<Behind<T>>, View<T::Terms, T::Mark>> for LookAtDone<L> {
    ghost then = { looks T.terms (StandsAt T.stands T.came) T.legal T.awaited L.limit };
}

/// A look at what the rule says of the seat.
pub struct Check;

impl<B, G, M> Play<Option<B>, View<G, M>> for Check {
    ghost then = { checks };
}

/// The end of a turn that ends and begins no call.
pub struct PassOn;

impl<B, G, M> Play<Option<B>, View<G, M>> for PassOn {
    ghost then = { passes };
}

/// The end of a turn that begins a call whose work is done apart.
pub struct SetApart;

impl<T: Dated> Play<Option<Behind<T>>, View<T::Terms, T::Mark>> for SetApart {
    ghost then = { sets_apart T.awaited };
}

/// The end of a turn that finds the limit reached.
pub struct Refuse;

impl<B, G, M> Play<Option<B>, View<G, M>> for Refuse {
    ghost then = { refuses };
}

/// The entry that a finish adds to the history, and the moment behind it. Each finish picks them.
pub trait Told {
    ghost told: { Entry };

    ghost moment: { ℕ };
}

impl Told for Brand {
    ghost told = { entry asks.Due replies.Done };

    ghost moment = { 0 };
}

/// The end of a call.
pub struct Finish<E> {
    of: PhantomData<E>,
}

impl<B, G, M, E: Told> Play<Option<B>, View<G, M>> for Finish<E> {
    ghost then = { finishes E.told E.moment };
}

/// A seat cut in two.
pub struct Cut;

impl<G, M> Split<View<G, M>> for Cut {
    ghost left = { parted };

    ghost right = { beside };
}

/// Two seats in one.
pub struct Glue;

impl<G, M> Join<View<G, M>> for Glue {
    ghost both = { joined };

    ghost spent = { spent_view };
}
