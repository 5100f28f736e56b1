//! A count of steps, which whoever gives it to a call can read afterwards.
#![tactic(auto)]

ghost use Rattle.std.specs.Prelude.{◌≡◌, ◌+◌, ◌<◌, min};

use std::fmt;
use std::marker::Model;
use std::sync::ledger::{Blank, Book, Ledger, Share};

/// How many steps were taken; only [`Steps::tick`] changes it. It takes no memory beyond its own.
#[derive(Drop)]
pub struct Steps<L: Ledger> {
    book: Book<L>,
    share: Share<L>,
    count: u64,
}

impl<L: Ledger> Model for Steps<L> {
    ghost use Rattle.std.specs.Prelude.{ℕ, ◌≡◌, ◌<◌, min};
    ghost use Rattle.std.below.core.specs.declared.int.u64.TheConstants.{MAX};

    ghost Value = { ℕ };

    ghost view = { λ s. s.book.total };

    ghost invariant = { λ s. (0 < s.share.parts) × (s.count ≡ min s.book.total MAX) };
}

impl<L: Ledger> Steps<L> {
    /// No step yet, on a ledger that nothing else counts on.
    pub fn new(blank: Blank) -> Steps<L>
        requires name { blank.name ≡ L.name }
        requires parts { blank.parts ≡ L.parts }
        requires some { 0 < blank.parts }
        ensures { result ≡ 0 }
    {
        let (book, share) = blank.open::<L>();
        Steps {
            book,
            share,
            count: 0,
        }
    }

    /// How many steps were taken, or the greatest number where there are more.
    pub fn count(&self) -> u64
        ensures { result ≡ min self.now u64.MAX }
    {
        self.count
    }

    /// One step more.
    pub fn tick(&mut self)
        ensures { self.new ≡ self.old + 1 }
    {
        self.book.add(&mut self.share, 1);
        self.count = self.count.saturating_add(1);
    }
}

impl<L: Ledger> fmt::Debug for Steps<L> {
    fn fmt<W: fmt::Write>(&self, f: &mut fmt::Formatter<W>) -> fmt::Result {
        let count = self.count;
        write!(f, "Steps {{ count: {count} }}")
    }
}
