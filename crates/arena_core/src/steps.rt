//! A counter of steps that takes no bytes and no time.
ghost use Rattle.std.specs.Prelude.{◌≡◌, ◌+◌};

use std::marker::Model;
use std::sync::ledger::{Blank, Book, Ledger, Share};

/// How many steps were taken. Only `tick` changes it.
///
/// A caller that counts nothing calls a function that is given `Blank::new(1)`, at the ledger `Brand`.
#[derive(Drop)]
pub struct Steps<S: Ledger> {
    book: Book<S>,
    share: Share<S>,
}

impl<S: Ledger> Model for Steps<S> {
    ghost use Rattle.std.specs.Prelude.{ℕ, ◌<◌};

    ghost Value = { ℕ };

    ghost view = { λ s. s.book.total };

    ghost invariant = { λ s. 0 < s.share.parts };
}

impl<S: Ledger> Steps<S> {
    /// A counter at 0.
    pub fn new(blank: Blank) -> Steps<S>
        requires name { blank.name ≡ S.name }
        requires parts { blank.parts ≡ S.parts }
        requires whole { blank.parts ≡ 1 }
        ensures { result ≡ 0 }
    {
        let (book, share) = blank.open::<S>();
        Steps { book, share }
    }

    /// One more step.
    #[inline]
    pub fn tick(&mut self)
        ensures { self.new ≡ self.old + 1 }
    {
        self.book.add(&mut self.share, 1);
    }
}
