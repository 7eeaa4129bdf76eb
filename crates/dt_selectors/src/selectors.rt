ghost use Rattle.std.specs.Prelude.{◌≡◌, ◌==◌, ℕ, ◌<◌, ◌≤◌, [], map, count_by, Some, IfSome, IfOk, OnOk, OnErr};
ghost use Rattle.dt_graph.specs.Refusal.{ok_unless};
ghost use Rattle.dt_selectors.specs.Selectors.{arity_in, has_selector, insert_selector, without_selector, add_cause, drop_cause};
ghost use Rattle.dt_selectors.specs.Lawful.{LawfulSelectors};

use crate::limits::SELECTORS;
use crate::numbers::{Arity, SelNo};
use arrayvec::ArrayVec;
use dt_graph::NoMemory;
use std::alloc::Global;
use std::marker::Model;
use thiserror::Error;

const PLACES: usize = SELECTORS as usize;

/// Why a change of the selectors is refused. They are as they were.
#[derive(Clone, Copy, Debug, PartialEq, Eq, Error)]
pub enum SelectorFault {
    /// The selector is live already.
    #[error("the selector is live already")]
    SelectorExists,
    /// The selector isn't live.
    #[error("the selector isn't live")]
    SelectorUnknown,
}

/// The live selectors, each with how many arguments it takes.
///
/// An arity is kept for each of the 4,096 selector numbers, two bytes each, so a look-up and a change take one step
/// however many selectors are live, and no change takes memory.
#[derive(Debug, Drop)]
pub struct Selectors {
    rows: Vec<Option<Arity>>,
}

impl Model for Selectors {
    ghost use Rattle.std.specs.Prelude.{◌≡◌, List, length};
    ghost use Rattle.dt_selectors.specs.Selectors.{Selector};
    ghost use Rattle.dt_selectors.specs.Rows.{selectors_from, AritiesInRange};
    ghost use Rattle.dt_selectors.specs.declared.limits.TheConstants.{SELECTORS};

    ghost Value = { List Selector };

    ghost view = { λ s. selectors_from 0 s.rows.items };

    ghost invariant = { λ s. (length s.rows.items ≡ SELECTORS) × AritiesInRange s.rows.items };
}

impl Selectors {
    /// No selector. All the memory that the selectors will ever need, 8 KB, is taken here; [`NoMemory`] where none was
    /// found.
    pub fn new(alloc: Global) -> Result<Selectors, NoMemory>
        ensures { IfOk result (λ selectors. selectors ≡ []) }
    {
        let rows = vec![in alloc; None; usize::from(SELECTORS)]?;
        Ok(Selectors { rows })
    }

    /// Equal selectors, with memory of their own; [`NoMemory`] where none was found. It copies 8 KB.
    pub fn copy(&self) -> Result<Selectors, NoMemory>
        ensures { IfOk result (λ copy. copy ≡ self.now) }
    {
        let rows = Vec::from_slice(*self.rows.allocator(), &self.rows)?;
        Ok(Selectors { rows })
    }

    /// What holds of all selectors. It does nothing: a caller whose reasoning needs this calls it.
    pub fn law(&self)
        ensures lawful { LawfulSelectors self.now }
        ensures live_in_range { (selector arity : ℕ) → arity_in self.now selector ≡ Some arity
            → (selector < SELECTORS) × (0 < arity) × (arity ≤ 4) }
        ensures listed_once { (selector : ℕ) → count_by (λ s. s.number == selector) self.now ≤ 1 }
    {
        let _ = &self.rows;
    }

    /// The live selectors, in ascending order, in a list that takes 8 KB where it stands and no other memory. It asks each
    /// of the 4,096 selector numbers.
    pub fn numbers(&self) -> ArrayVec<SelNo, PLACES>
        ensures { result.items ≡ map (λ s. s.number) self.now }
    {
        self.law();
        let mut numbers = ArrayVec::new();
        for number in 0..PLACES {
            let selector = SelNo::from_index(number);
            if self.is_live(selector) {
                numbers.push(selector);
            }
        }
        numbers
    }

    /// Whether the selector is live.
    pub fn is_live(&self, selector: SelNo) -> bool
        ensures { result ≡ has_selector self.now selector }
    {
        self.arity(selector).is_some()
    }

    /// How many arguments the selector takes; `None` exactly where it isn't live.
    pub fn arity(&self, selector: SelNo) -> Option<Arity>
        ensures value { result ≡ arity_in self.now selector }
        ensures in_range { IfSome result (λ arity. (0 < arity) × (arity ≤ 4)) }
    {
        let row = usize::from(selector.number());
        self.rows[row]
    }

    /// The selector is live and takes this many arguments.
    ///
    /// [`SelectorExists`](SelectorFault::SelectorExists) exactly where it is live already; it keeps its arity then.
    pub fn add(&mut self, selector: SelNo, arity: Arity) -> Result<(), SelectorFault>
        ensures answer { result ≡ ok_unless (add_cause self.old selector) tt }
        ensures ok { OnOk result (self.new ≡ insert_selector (record { number = selector; arity = arity }) self.old) }
        ensures err { OnErr result (self.new ≡ self.old) }
    {
        if self.arity(selector).is_some() {
            return Err(SelectorFault::SelectorExists);
        }
        // An arity's range is known to the proof where its number is read.
        prove!(arity.number() <= 4);
        self.rows[usize::from(selector.number())] = Some(arity);
        Ok(())
    }

    /// The selector isn't live any more.
    ///
    /// [`SelectorUnknown`](SelectorFault::SelectorUnknown) exactly where it isn't live; nothing changes then.
    pub fn drop_sel(&mut self, selector: SelNo) -> Result<(), SelectorFault>
        ensures answer { result ≡ ok_unless (drop_cause self.old selector) tt }
        ensures ok { OnOk result (self.new ≡ without_selector self.old selector) }
        ensures err { OnErr result (self.new ≡ self.old) }
    {
        if self.arity(selector).is_none() {
            return Err(SelectorFault::SelectorUnknown);
        }
        self.rows[usize::from(selector.number())] = None;
        Ok(())
    }
}
