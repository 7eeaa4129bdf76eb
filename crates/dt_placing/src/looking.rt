ghost use Rattle.std.specs.Prelude.{◌≡◌, ◌<◌, ◌≤◌, ◌+◌, ◌*◌, ℕ, IfSome, IsNone};
ghost use Rattle.dt_pages.specs.Reading.{Reading, addresses};
ghost use Rattle.dt_pages.specs.Image.{look_up};
ghost use Rattle.dt_scratch.specs.Query.{arity_of_query};
ghost use Rattle.dt_scratch.specs.declared.reply.Answer.TheVariants.{NotUnderstood};
ghost use Rattle.dt_cells.specs.Cell.{answer_of_word};
ghost use Rattle.dt_cells.specs.Held.{IsInRange};
ghost use Rattle.dt_placing.specs.Placing.{answer_at, part_by, tag_of};

use crate::cell::{only_class, tag};
use dt_cells::{answer_by_word, place_address};
use dt_fit::Geometry;
use dt_pages::Words;
use dt_scratch::{Answer, Query};

// The addresses end here.
const ADDRESSES: u64 = 1 << 27;

// The cells begin here.
const CELLS: u64 = 1 << 24;

// The address that is read for a class where the selector has this place word; `None` where none is.
#[tactic(auto, using(crate::proofs::Addresses::looked))]
fn look_address(geometry: Geometry, word: u64, class: u16) -> Option<u32>
    requires { class < 2048 }
    ensures some { IfSome result (λ at. at < addresses) }
    ensures read { IfSome result (λ at. (x : Reading) (selector : ℕ) → answer_at geometry x selector word class ≡ answer_of_word (tag_of selector) (x at)) }
    ensures none { IsNone result → (x : Reading) (selector : ℕ) → answer_at geometry x selector word class ≡ NotUnderstood }
{
    if word == 0 || word > ADDRESSES {
        return None;
    }
    let place = match geometry {
        Geometry::Colours => 2048 * (word - 1),
        Geometry::Displacements => word - 1,
    };
    let at = CELLS + (place + u64::from(class));
    if at < ADDRESSES {
        Some(at as u32)
    } else {
        None
    }
}

/// The part of a look-up of a kind that places selectors as a whole: it reads the selector's place word, and the cell of
/// the class there.
pub fn look_part<W: Words>(geometry: Geometry, words: &mut W, query: &Query) -> Answer
    requires { IsInRange query.now × (arity_of_query query.now ≤ 1) }
    ensures value { result ≡ part_by geometry (look_up (W.image words.old)) query.now.selector query.now.classes }
    ensures image { W.image words.new ≡ W.image words.old }
    ensures cost { W.cost words.new ≤ W.cost words.old + (arity_of_query query.now + 1) * W.COST }
    ensures kept { W.kept words.old words.new }
{
    let selector = query.selector();
    let class = only_class(query);
    let word = words.word(place_address(selector));
    match look_address(geometry, word, class) {
        Some(at) => answer_by_word(tag(selector), words.word(at)),
        None => Answer::NotUnderstood,
    }
}
