ghost use Rattle.std.specs.Prelude.{◌≡◌, ◌+◌, ◌*◌, ◌<◌};
ghost use Rattle.dt_pages.specs.Reading.{page_words};
ghost use Rattle.dt_version.specs.Limits.{word_count};

use crate::author::AuthorSeat;
use crate::limits::Limits;
use crate::rule::Rule;
use crate::view::{Size, View};
use crate::zeros::zeros;
use atomic_table::Table;
use dt_gate::{Meaning, laws_of_runs};
use dt_graph::NoMemory;
use std::alloc::Global;

/// The words that readers and the author share. It is seen as its limits and its table.
#[derive(Drop)]
pub struct Store<M: Meaning> {
    limits: Limits,
    // How many words lie before those of page 0.
    first_page: usize,
    pub(crate) table: Table<u8, View<M>, Size, Rule<M>, Global>,
    ghost readers: { table.shared.key.readers ≡ limits.readers },
    ghost pages: { table.shared.key.pages ≡ limits.pages },
    ghost entries: { table.shared.key.entries ≡ limits.entries },
    ghost first: { first_page ≡ 1 + 3 * (limits.readers + 2) },
    ghost words: { table.shared.table_id.words ≡ word_count limits.readers limits.pages },
}

impl<M: Meaning> Store<M> {
    ghost use Rattle.std.specs.Prelude.{[], IfOk};
    ghost use Rattle.dt_pages.specs.Reading.{blank};
    ghost use Rattle.dt_version.specs.Views.{IsFirstSeat};

    /// A store in which all words are 0: version 0 is current at root 0, with no entry and the empty image. Beside it the
    /// seat of its author. For a moment it takes the memory of the store twice.
    pub fn new(alloc: Global, limits: Limits) -> Result<(Store<M>, AuthorSeat<M>), NoMemory>
        requires { M.shows blank [] }
        ensures limits { IfOk result (λ made. made.0.limits ≡ limits) }
        ensures seat { IfOk result (λ made. IsFirstSeat made.0.table.shared.table_id made.0.table.shared.key made.1.place) }
    {
        laws_of_runs::<M>();
        let size = Size {
            readers: limits.readers as u64,
            pages: limits.pages as u64,
            entries: limits.entries as u64,
        };
        let first_page = 1 + 3 * (limits.readers as usize + 2);
        let words = zeros(alloc, first_page + 512 * limits.pages as usize)?;
        let (table, place) = Table::of_words(alloc, &words, &size)?;
        let store = Store {
            limits,
            first_page,
            table,
        };
        Ok((store, AuthorSeat { place }))
    }

    /// The numbers that it was made with.
    pub fn limits(&self) -> Limits
        ensures { result ≡ self.now.limits }
    {
        self.limits
    }

    // Where a word of a page lies.
    pub(crate) fn page_word(&self, page: u32, at: u16) -> usize
        requires page { page < self.now.limits.pages }
        requires at { at < page_words }
        ensures { result ≡ 1 + 3 * (self.now.limits.readers + 2) + (page_words * page + at) }
    {
        self.first_page + (512 * page as usize + at as usize)
    }
}
