ghost use Rattle.std.specs.Prelude.{◌≡◌, ◌<◌, ◌≤◌, ◌+◌, ◌*◌, length, All};
ghost use Rattle.dt_pages.specs.Image.{look_up};
ghost use Rattle.dt_scratch.specs.Query.{arity_of_query};
ghost use Rattle.dt_cells.specs.Held.{IsInRange};
ghost use Rattle.dt_mrd.specs.Reading.{code_at, code_along, part_by};

use dt_cells::{answer_by_word, place_address};
use dt_pages::Words;
use dt_scratch::{Answer, Query};

// The master array begins here.
const CELLS: u64 = 1 << 26;

// Tags above this one lead past the last address.
const LAST_TAG: u64 = 1 << 26;

// The addresses end here.
const ADDRESSES: u64 = 1 << 27;

// The code of the cell of a class in the row with this tag; 0 where there is none.
fn read_code<W: Words>(words: &mut W, tag: u64, class: u16) -> u64
    requires { class < 2048 }
    ensures value { result ≡ code_at (look_up (W.image words.old)) tag class }
    ensures image { W.image words.new ≡ W.image words.old }
    ensures cost { W.cost words.new ≤ W.cost words.old + W.COST }
    ensures kept { W.kept words.old words.new }
{
    if tag == 0 || tag > LAST_TAG {
        return 0;
    }
    let at = CELLS + (tag - 1 + u64::from(class));
    if at >= ADDRESSES {
        return 0;
    }
    let word = words.word(at as u32);
    if word >> 32 == tag {
        word % (1 << 32)
    } else {
        0
    }
}

// The code to which the classes lead from a code.
fn read_along<W: Words>(words: &mut W, first: u64, classes: &[u16]) -> u64
    requires { All (λ class. class < 2048) classes.now }
    ensures value { result ≡ code_along (look_up (W.image words.old)) first classes.now }
    ensures image { W.image words.new ≡ W.image words.old }
    ensures cost { W.cost words.new ≤ W.cost words.old + length classes.now * W.COST }
    ensures kept { W.kept words.old words.new }
{
    let mut code = first;
    for class in classes {
        code = read_code(words, code, *class);
    }
    code
}

// The part of a look-up of multiple row displacement: the place word, and a cell for each class.
pub(crate) fn look_part<W: Words>(words: &mut W, query: &Query) -> Answer
    requires { IsInRange query.now × (arity_of_query query.now ≤ 4) }
    ensures value { result ≡ part_by (look_up (W.image words.old)) query.now.selector query.now.classes }
    ensures image { W.image words.new ≡ W.image words.old }
    ensures cost { W.cost words.new ≤ W.cost words.old + (arity_of_query query.now + 1) * W.COST }
    ensures kept { W.kept words.old words.new }
{
    query.law();
    let word = words.word(place_address(query.selector()));
    let code = read_along(words, word, query.classes());
    answer_by_word(0, code)
}
