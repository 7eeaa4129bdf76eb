ghost use Rattle.std.specs.Prelude.{◌≡◌, ℕ, OnOk, IfOk};
ghost use Rattle.std.specs.FinMap.{get, insert};

use crate::draft::Draft;
use dt_graph::NoMemory;
use std::collections::BTreeMap;
use std::marker::Model;

// Words of addresses and page numbers of nodes that change, by position. It is seen as the finite map of these.
#[derive(Drop)]
pub(crate) struct Changes {
    pub(crate) values: BTreeMap<u32, u64>,
}

impl Model for Changes {
    ghost use Rattle.std.specs.Prelude.{ℕ};
    ghost use Rattle.std.specs.Ordering.{nat_cmp};
    ghost use Rattle.std.specs.FinMap.{FinMap, code, from_entries};
    ghost use Rattle.std.specs.Coded.{coded_ℕ};

    ghost Value = { FinMap nat_cmp ℕ };

    ghost coded = { code coded_ℕ coded_ℕ };

    ghost view = { λ c. from_entries c.values.entries };
}

impl Changes {
    // The words of a draft.
    pub(crate) fn of(draft: &Draft) -> Result<Changes, NoMemory>
        ensures { IfOk result (λ changes. changes ≡ draft.now) }
    {
        Ok(Changes {
            values: draft.words.clone()?,
        })
    }

    // The position has this word or number from now on.
    pub(crate) fn set(&mut self, at: u32, value: u64) -> Result<(), NoMemory>
        ensures { OnOk result (self.new ≡ insert self.old at value) }
    {
        self.values.insert(at, value)?;
        Ok(())
    }

    // The word or number of the position, where it changes.
    pub(crate) fn get(&self, at: u32) -> Option<u64>
        ensures { result ≡ get self.now at }
    {
        match self.values.get(&at) {
            Some(value) => Some(*value),
            None => None,
        }
    }
}
