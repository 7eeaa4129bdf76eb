ghost use Rattle.std.specs.Prelude.{◌≡◌, ◌<◌, ◌≤◌, ◌+◌, ◌*◌, length, All, IsTrue, IsNone};
ghost use Rattle.dt_pages.specs.Image.{look_up};
ghost use Rattle.dt_scratch.specs.Query.{arity_of_query};
ghost use Rattle.dt_cells.specs.Regions.{class_numbers};
ghost use Rattle.dt_cells.specs.Held.{IsInRange};
ghost use Rattle.dt_cells.specs.Find.{arity_read, is_class_read, first_unread, head_of};

use crate::regions::selector_address;
use dt_graph::CLASSES;
use dt_pages::Words;
use dt_scratch::{Query, Reply};
use dt_selectors::SELECTORS;

// How many arguments the selector takes by its word; `None` where it isn't live by it.
fn read_arity<W: Words>(words: &mut W, selector: u16) -> Option<u64>
    ensures value { result ≡ arity_read (look_up (W.image words.old)) selector }
    ensures image { W.image words.new ≡ W.image words.old }
    ensures cost { W.cost words.new ≤ W.cost words.old + W.COST }
    ensures kept { W.kept words.old words.new }
{
    if selector >= SELECTORS {
        return None;
    }
    let word = words.word(selector_address(selector));
    if word == 0 { None } else { Some(word) }
}

// Whether the class is live by its word.
fn read_class<W: Words>(words: &mut W, class: u16) -> bool
    ensures value { result ≡ is_class_read (look_up (W.image words.old)) class }
    ensures image { W.image words.new ≡ W.image words.old }
    ensures cost { W.cost words.new ≤ W.cost words.old + W.COST }
    ensures kept { W.kept words.old words.new }
{
    if class >= CLASSES {
        return false;
    }
    words.word(u32::from(class)) != 0
}

// The first place, from 1, whose class isn't live by its word.
fn read_classes<W: Words>(words: &mut W, classes: &[u16]) -> Option<u8>
    requires { length classes.now ≤ 4 }
    ensures value { result ≡ first_unread (look_up (W.image words.old)) 1 classes.now }
    ensures range { IsNone result → All (λ class. class < class_numbers) classes.now }
    ensures image { W.image words.new ≡ W.image words.old }
    ensures cost { W.cost words.new ≤ W.cost words.old + length classes.now * W.COST }
    ensures kept { W.kept words.old words.new }
{
    for (index, class) in classes.iter().enumerate() {
        if !read_class(words, *class) {
            return Some(index as u8 + 1);
        }
    }
    None
}

// The head of a look-up: the reply by the selector word and the class words, if it isn't an answer.
pub(crate) fn read_head<W: Words>(words: &mut W, query: &Query) -> Option<Reply>
    ensures value { result ≡ head_of (look_up (W.image words.old)) query.now }
    ensures range { IsNone result → IsInRange query.now }
    ensures image { W.image words.new ≡ W.image words.old }
    ensures cost { W.cost words.new ≤ W.cost words.old + (arity_of_query query.now + 1) * W.COST }
    ensures kept { W.kept words.old words.new }
{
    let Some(arity) = read_arity(words, query.selector()) else {
        return Some(Reply::NoSelector);
    };
    if arity != u64::from(query.arity()) {
        return Some(Reply::WrongArity);
    }
    read_classes(words, query.classes()).map(|place| Reply::NoClass { place })
}
