ghost use Rattle.std.specs.Prelude.{◌≡◌};

use crate::filler::Filler;
use crate::readers::{Readers, new_four};
use crate::turner::Turner;

/// An author and its four readers, over a store whose tree is current.
#[derive(Drop)]
pub struct Stage<'s> {
    /// The author.
    pub turner: Turner<'s>,
    /// The readers.
    pub readers: Readers<'s>,
}

impl<'s> Stage<'s> {
    /// Publishes what is filled, and gives out the four seats.
    pub fn new(filler: Filler<'s>) -> Option<Stage<'s>>
        requires { filler.author.store.now.limits.readers ≡ 4 }
    {
        let mut turner = filler.into_turner();
        turner.turn_many(1);
        let readers = new_four(&mut turner)?;
        Some(Stage { turner, readers })
    }
}
