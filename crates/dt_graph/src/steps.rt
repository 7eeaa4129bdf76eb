ghost use Rattle.std.specs.Prelude.{◌≡◌, ℕ, ◌+◌, ◌<◌};

use std::marker::Model;
use std::sync::ledger::{Blank, Book, Ledger, Share};

/// A count of steps, for any ledger. It takes no bytes, and only [`Steps::tick`] changes it.
///
/// A function that is generic in its ledger has no blank of that ledger, so it can't start a second count beside
/// the one that its caller handed it.
#[derive(Drop)]
pub struct Steps<L: Ledger> {
    book: Book<L>,
    share: Share<L>,
}

impl<L: Ledger> Model for Steps<L> {
    ghost use Rattle.std.specs.Prelude.{ℕ, ◌<◌};

    ghost Value = { ℕ };

    ghost view = { λ s. s.book.total };

    ghost invariant = { λ s. 0 < s.share.parts };
}

impl<L: Ledger> Steps<L> {
    /// A count of 0, in the ledger that the blank becomes. The blank has that ledger's name and all its parts, one at
    /// least.
    ///
    /// A caller that isn't generic in a ledger gets a count in two steps: it makes a blank of one part and hands it to a
    /// function of its own that is generic in `L: Ledger` and has these three conditions of its blank, by
    /// `function::<Brand>(Blank::new(1))` with [`Brand`](std::marker::Brand); there `Steps::<L>::start(blank)` is the
    /// count, which it passes on by `&mut`.
    pub fn start(blank: Blank) -> Steps<L>
        requires name { blank.name ≡ L.name }
        requires parts { blank.parts ≡ L.parts }
        requires some_part { 0 < blank.parts }
        ensures { result ≡ 0 }
    {
        let (book, share) = blank.open::<L>();
        Steps { book, share }
    }

    /// One step more.
    pub fn tick(&mut self)
        ensures { self.new ≡ self.old + 1 }
    {
        self.book.add(&mut self.share, 1);
    }
}
