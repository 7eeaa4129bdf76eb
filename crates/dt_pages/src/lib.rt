//! What a tree of pages shows, and what it takes to keep it.
#![tactic(auto)]

ghost use Rattle.dt_pages.specs.Reach.{EachReachIsListed};
ghost use Rattle.dt_pages.specs.Laws.{NodesAreFew, NodesInRegionsAreFew, ReachedPagesDecide, PageZeroIsEmpty, NodesAreCounted, DifferencesAreSeen, LevelsHoldAddresses, ImagesSetWords, NothingIsPastTheLast, FirstNeedsAll, SameNeedsNone, NeedIsAtMostNodes};
ghost use Rattle.dt_pages.specs.NumberingLaws.{StandingIsRead, NodesAreReached, BothStand, ReachOfFollowing, FreeAreNotReached, WrittenPlansAreRead, WrittenPlansReach};
ghost use Rattle.dt_pages.specs.FourSelectors.{NeedsOfFourSelectors};
ghost use Rattle.dt_pages.specs.ThreeWords.{SixPages, PlacesOfThreeWords};

mod changes;
mod draft;
mod drawing;
mod leaf;
mod middle;
mod overlay;
mod paged;
mod plan;
mod tree;
mod words;

pub use draft::Draft;
pub use paged::PagedTree;
pub use plan::Plan;
pub use tree::Tree;
pub use words::Words;

/// A reading depends on the words of the pages that its top page reaches, and on no other.
pub fn reached_pages_decide()
    ensures { ReachedPagesDecide }
{}

/// Page 0 holds zeros: as a top page it shows the image in which nothing is set, and reaches no other page.
pub fn page_zero_is_empty()
    ensures { PageZeroIsEmpty }
{}

/// The pages that a top page reaches, as a list: those, each once. Want of pages counts them.
pub fn reached_pages_are_listed()
    ensures { EachReachIsListed }
{}

/// A node is counted exactly where a word is set below it, and once; and it is seen to differ exactly where some word does.
pub fn nodes_are_counted_once()
    ensures places { NodesAreCounted }
    ensures differences { DifferencesAreSeen }
{}

/// An image of so many words has at most one leaf for each, one top, and the nodes between: with the regions of an image at
/// most 322 and its words. That sizes a store.
pub fn nodes_are_few()
    ensures words { NodesAreFew }
    ensures regions { NodesInRegionsAreFew }
{}

/// Beside the empty image each node of an image needs a page, beside the image itself none does, and never more do than
/// there are.
pub fn need_is_of_nodes()
    ensures first { FirstNeedsAll }
    ensures same { SameNeedsNone }
    ensures most { NeedIsAtMostNodes }
{}

/// The levels of a tree hold at least as many words as there are addresses, an image sets words other than 0 at these alone, and
/// past the last of them both read as 0.
pub fn addresses_are_held()
    ensures levels { LevelsHoldAddresses }
    ensures images { ImagesSetWords }
    ensures past { NothingIsPastTheLast }
{}

/// An example: an image of three words takes six pages, and they show it.
pub fn six_pages_show_three_words()
    ensures { SixPages }
{}

/// The same image: where its nodes stand, and what a word that changes, goes or comes needs.
pub fn nodes_of_three_words()
    ensures { PlacesOfThreeWords }
{}

/// A tree stands in the words of all pages where the page of each node has what stands below it: then its top page gives its
/// image, and beside page 0 reaches the pages of its nodes and no other, so no free one.
pub fn standing_trees_are_read()
    ensures read { StandingIsRead }
    ensures reached { NodesAreReached }
    ensures free { FreeAreNotReached }
{}

/// Once the pages of a following tree are written, the old tree still stands, and so does the new one: beside page 0 it
/// reaches the pages of the old one without those that are gone, and those that were written.
pub fn old_and_new_trees_stand()
    ensures stand { BothStand }
    ensures reached { ReachOfFollowing }
{}

/// Another example: what three versions of a class with four selectors need, with cells in leaves of their own and in one leaf.
pub fn needs_of_four_selectors()
    ensures { NeedsOfFourSelectors }
{}

/// Once the words of a plan stand in its pages, and neither page 0 nor a page of the old tree was written, the old tree still
/// stands and so does the new one: its top gives the words of the draft over those of the old tree, and beside page 0 reaches the
/// pages of the old tree without those that are gone, and those of the list.
pub fn written_plans_are_read()
    ensures read { WrittenPlansAreRead }
    ensures reached { WrittenPlansReach }
{}
