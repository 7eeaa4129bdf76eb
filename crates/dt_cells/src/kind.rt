ghost use Rattle.std.specs.Prelude.{◌≡◌, ◌≤◌, ◌+◌, ◌*◌, ℕ, Bool, false, List, OnOk, IfOk};
ghost use Rattle.dt_pages.specs.Reading.{Reading, blank};
ghost use Rattle.dt_pages.specs.Image.{look_up};
ghost use Rattle.dt_pages.specs.Draft.{laid_over};
ghost use Rattle.dt_scratch.specs.Query.{arity_of_query};
ghost use Rattle.dt_scratch.specs.declared.reply.Change.{Change};
ghost use Rattle.dt_cells.specs.Held.{Held, IsInRange, none_held, held_after};
ghost use Rattle.dt_cells.specs.Kind.{Kind, IsLawful, sets, Stay};
ghost use Rattle.dt_cells.specs.Standing.{IsStanding, CanStage};
ghost use Rattle.dt_cells.specs.Find.{found};

use crate::head::read_head;
use dt_graph::NoMemory;
use dt_pages::{Draft, Tree, Words};
use dt_scratch::{Answer, Change, Query, Reply};
use std::alloc::Global;

/// A kind of table: how the answers of a program lie in the cells of an image, how they are read, and how the cells
/// follow the changes of a batch.
///
/// All that doesn't speak of a value is one definition, `kind`. A value of the kind keeps what it needs to find places; it
/// *stands* for a reading together with what is held there, the understood queries with their answers.
pub trait TableKind: Send + Sync + Drop {
    /// The greatest arity that it covers.
    const ARITIES: u8;

    /// What a stage leaves for [`settle`](TableKind::settle).
    type Staged: Drop;

    ghost ARITIES: { ℕ };

    ghost kind: { Kind };

    ghost low: { Self → ℕ };

    ghost is_placed: { Self → ℕ → Bool };

    ghost stands: { Self → Reading → Held → Type 0 };

    ghost follows: { Self → Self.Staged → Reading → Held → List Change → Type 0 };

    /// A value that stands for the empty image, with nothing held, and serves queries from this arity on.
    fn empty(alloc: Global, least: u8) -> Result<Self, NoMemory>
        requires { (1 ≤ least) × (least ≤ kind.most_low) }
        ensures { IfOk result (λ value. (stands value blank none_held) × (low value ≡ least)) };

    /// Whether the selector has a place.
    fn has_place(&self, selector: u16) -> bool
        ensures { result ≡ is_placed self.now selector };

    /// The kind's part of a look-up, whatever the class words and selector words are. It reads a word more than the
    /// query has classes at most.
    fn part<W: Words>(words: &mut W, query: &Query) -> Answer
        requires { IsInRange query.now × (arity_of_query query.now ≤ kind.arities) }
        ensures value { result ≡ kind.part (look_up (W.image words.old)) query.now }
        ensures image { W.image words.new ≡ W.image words.old }
        ensures cost { W.cost words.new ≤ W.cost words.old + (arity_of_query query.now + 1) * W.COST }
        ensures kept { W.kept words.old words.new };

    /// The look-up: the reply to the query, read from the words. It reads two words more than twice as many as the query
    /// has classes at most.
    fn find<W: Words>(words: &mut W, query: &Query) -> Reply
        requires { arity_of_query query.now ≤ kind.arities }
        ensures value { result ≡ found kind (look_up (W.image words.old)) query.now }
        ensures image { W.image words.new ≡ W.image words.old }
        ensures cost { W.cost words.new ≤ W.cost words.old + (2 * arity_of_query query.now + 2) * W.COST }
        ensures kept { W.kept words.old words.new }
    {
        match read_head(words, query) {
            Some(reply) => reply,
            None => Reply::Answered {
                answer: Self::part(words, query),
            },
        }
    }

    /// Sets in the draft what the changes of a batch make of the kind's cells and of the place words of selectors with a
    /// change; every other word of the draft stays. The value stands for what it stood for. After want of memory the draft
    /// is to be thrown away.
    fn stage(
        &mut self,
        tree: &Tree,
        draft: &mut Draft,
        changes: &[Change],
    ) -> Result<Self::Staged, NoMemory>
        requires { (held : Held) × CanStage kind (stands self.old) (low self.old) (look_up tree.now) (laid_over draft.old (look_up tree.now)) held changes.now }
        ensures low { low self.new ≡ low self.old }
        ensures stands { (x : Reading) (held : Held) → stands self.old x held → stands self.new x held }
        ensures placed { IfOk result (λ staged. (held : Held) → CanStage kind (stands self.old) (low self.old) (look_up tree.now) (laid_over draft.old (look_up tree.now)) held changes.now
            → kind.places (look_up tree.now) held changes.now (laid_over draft.new (look_up tree.now)) × follows self.new staged (look_up tree.now) held changes.now) }
        ensures rest { OnOk result ((address : ℕ) → sets kind changes.now address ≡ false
            → laid_over draft.new (look_up tree.now) address ≡ laid_over draft.old (look_up tree.now) address) };

    /// Puts the staged changes into what is held: the value stands for every reading that has the words of that stage,
    /// and the place words of other selectors as they were.
    fn settle(&mut self, staged: Self::Staged)
        requires { (x : Reading) × (held : Held) × (changes : List Change) × stands self.old x held × follows self.old staged x held changes }
        ensures low { low self.new ≡ low self.old }
        ensures stands { (x : Reading) (held : Held) (changes : List Change) (y : Reading) → stands self.old x held → follows self.old staged x held changes
            → kind.places x held changes y → Stay kind held changes x y → stands self.new y (held_after held changes) };

    ghost laws: { IsLawful kind };

    ghost standing: { IsStanding Self kind low is_placed stands };

    ghost covers: { kind.arities ≡ ARITIES };
}
