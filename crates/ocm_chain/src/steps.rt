ghost use Rattle.std.specs.Prelude.{◌≡◌, ◌+◌, ◌<◌};

use std::marker::Model;
use std::sync::ledger::{Blank, Book, Ledger, Share};

/// How many steps were taken. It takes no bytes and does nothing at run time: only contracts see
/// the number.
#[derive(Drop)]
pub struct Steps<L: Ledger> {
    book: Book<L>,
    share: Share<L>,
}

impl<L: Ledger> Model for Steps<L> {
    ghost use Rattle.std.specs.Prelude.{ℕ, ◌<◌};

    ghost Value = { ℕ };

    ghost view = { λ s. s.book.total };

    ghost invariant = { λ s. 0 < s.share.parts };
}

impl<L: Ledger> Steps<L> {
    /// No steps, of the ledger of this blank.
    pub fn open(blank: Blank) -> Steps<L>
        requires name { blank.name ≡ L.name }
        requires parts { blank.parts ≡ L.parts }
        requires some { 0 < L.parts }
        ensures { result ≡ 0 }
    {
        let (book, share) = blank.open::<L>();
        Steps { book, share }
    }

    /// One step more.
    pub fn tick(&mut self)
        ensures { self.new ≡ self.old + 1 }
    {
        self.book.add(&mut self.share, 1);
    }

    /// So many steps more.
    pub(crate) fn add(&mut self, count: u32)
        ensures { self.new ≡ self.old + count }
    {
        self.book.add(&mut self.share, u64::from(count));
    }
}

/// How many steps were taken at the index of secrets, and how many at the rows. It takes no bytes and
/// does nothing at run time: only contracts see the numbers.
pub struct Probes<I: Ledger, R: Ledger> {
    /// At the index of secrets.
    pub index: Steps<I>,
    /// At the rows.
    pub rows: Steps<R>,
}

impl<I: Ledger, R: Ledger> Drop for Probes<I, R> {
    fn drop(self) {
        let Probes { index: _, rows: _ } = self;
    }
}

impl<I: Ledger, R: Ledger> Model for Probes<I, R> {
    ghost use Rattle.ocm_chain.specs.Lists.{ProbeCounts};

    ghost Value = { ProbeCounts };

    ghost view = { λ p. record { index = p.index; rows = p.rows } };
}

impl<I: Ledger, R: Ledger> Probes<I, R> {
    /// No steps, of the ledgers of these blanks.
    pub fn open(index: Blank, rows: Blank) -> Probes<I, R>
        requires index_name { index.name ≡ I.name }
        requires index_parts { index.parts ≡ I.parts }
        requires some_index { 0 < I.parts }
        requires rows_name { rows.name ≡ R.name }
        requires rows_parts { rows.parts ≡ R.parts }
        requires some_rows { 0 < R.parts }
        ensures index { result.index ≡ 0 }
        ensures rows { result.rows ≡ 0 }
    {
        Probes {
            index: Steps::open(index),
            rows: Steps::open(rows),
        }
    }
}
