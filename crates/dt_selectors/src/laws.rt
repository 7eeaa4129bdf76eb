ghost use Rattle.std.specs.Prelude.{ℕ, ◌<◌, ◌≤◌, List, []};
ghost use Rattle.dt_selectors.specs.Selectors.{Selector, insert_selector, without_selector};
ghost use Rattle.dt_selectors.specs.Lawful.{LawfulSelector, LawfulSelectors};
ghost use Rattle.dt_selectors.specs.Laws.{AddingSetsOneArity, DroppingUnsetsOneArity, AddingIsUndone, DroppingIsUndone, KnownNamesStay, NewNamesAreLast, NumbersStay};
ghost use Rattle.dt_selectors.specs.NameLists.{NumbersStayAlong};

use crate::names::Names;
use crate::selectors::Selectors;

/// The empty list of selectors is lawful, and a lawful list stays so when a lawful selector is placed in it or one is
/// taken away. It does nothing: a caller whose reasoning needs this calls it.
pub fn changes_keep_law()
    ensures empty { LawfulSelectors [] }
    ensures add { (selectors : List Selector) (selector : Selector) → LawfulSelectors selectors
        → LawfulSelector selector → LawfulSelectors (insert_selector selector selectors) }
    ensures drop { (selectors : List Selector) (selector : ℕ) → LawfulSelectors selectors
        → LawfulSelectors (without_selector selectors selector) }
{}

/// A selector's arity is changed by its own coming and going alone. It does nothing: a caller whose reasoning needs
/// this calls it.
pub fn changes_touch_one_selector()
    ensures add { AddingSetsOneArity }
    ensures drop { DroppingUnsetsOneArity }
{}

/// A selector that comes is undone by dropping it, and one that goes by adding it with its arity. It does nothing: a
/// caller whose reasoning needs this calls it.
pub fn changes_are_undone()
    ensures add { AddingIsUndone }
    ensures drop { DroppingIsUndone }
{}

/// A name keeps its number when others come, a new one gets the next number, and a known one changes nothing. It does
/// nothing: a caller whose reasoning needs this calls it.
pub fn names_keep_their_numbers()
    ensures stay { NumbersStay }
    ensures new { NewNamesAreLast }
    ensures known { KnownNamesStay }
{}

// Types whose values threads may hand on and share.
fn is_shared<T: Send + Sync>() {}

/// Names and selectors may be handed to another thread, and read by several.
pub fn names_and_selectors_are_shared() {
    is_shared::<Names>();
    is_shared::<Selectors>();
}

/// A name keeps its number whatever list of names is added. It does nothing: a caller whose reasoning needs this calls
/// it.
pub fn lists_of_names_keep_numbers()
    ensures { NumbersStayAlong }
{}
