ghost use Rattle.std.specs.Prelude.{◌≡◌, ◌==◌, ◌+◌, ◌%◌, ◌<◌, ◌≤◌, ◌++◌, ◌∷◌, [], if◌then◌else◌, OnOk, IfOk};
ghost use Rattle.dt_script.specs.Draw.{after_draws};
ghost use Rattle.dt_script.specs.GeneratedLines.{arity_of_number, classes_drawn, definition_count, is_first_of_batch, is_last_of_batch, tuple_of, after_definition, definition_line, definition_lines, after_definitions};
ghost use Rattle.dt_script.specs.GeneratedLists.{HasTuples};
ghost use Rattle.dt_script.specs.GeneratedText.{text_of_lines};

use crate::draws::Draws;
use crate::generated_line::push_define;
use crate::generated_selectors::takes_two;
use crate::generated_size::GeneratedSize;
use crate::line::Line;
use crate::writing::push;
use dt_definitions::{NoMemory, Tuple};

// How many definitions a batch has, but for the last batch.
const BATCH: u16 = 500;

/// Draws a class for each argument of the selector.
pub fn draw_tuple(draws: &mut Draws, size: GeneratedSize, selector: u16) -> Tuple
    ensures classes { result ≡ classes_drawn size.classes draws.old (arity_of_number selector) }
    ensures state { draws.new ≡ after_draws draws.old (arity_of_number selector) }
{
    let first = draws.draw_class(size.classes);
    if takes_two(selector) {
        let second = draws.draw_class(size.classes);
        return Tuple::new(&[first, second]).unwrap();
    }
    Tuple::new(&[first]).unwrap()
}

/// How many definitions there are, some of which replace earlier ones.
pub fn count_definitions(size: GeneratedSize) -> u16
    ensures value { result ≡ definition_count size.selectors }
    ensures some { 0 < result }
    ensures in_range { result ≤ 12_288 }
{
    3 * size.selectors
}

// Puts the first line of a batch at the end of the text, where the definition of this number begins one.
fn push_begin(text: &mut Vec<u8>, number: u16) -> Result<(), NoMemory>
    ensures { OnOk result (text.new.items ≡ text.old.items
        ++ text_of_lines (if is_first_of_batch number then Line.Begin ∷ [] else [])) }
{
    if number % BATCH == 0 {
        push(text, b"begin\n")?;
    }
    Ok(())
}

// Puts the last line of a batch at the end of the text, where the definition of this number ends one.
fn push_commit(text: &mut Vec<u8>, size: GeneratedSize, number: u16) -> Result<(), NoMemory>
    requires { number < definition_count size.selectors }
    ensures { OnOk result (text.new.items ≡ text.old.items
        ++ text_of_lines (if is_last_of_batch size.selectors number then Line.Commit ∷ [] else [])) }
{
    let next = number + 1;
    if next % BATCH == 0 || next == count_definitions(size) {
        push(text, b"commit\n")?;
    }
    Ok(())
}

// Puts the lines of the definition of this number, and hands back its classes.
fn push_definition(
    text: &mut Vec<u8>,
    draws: &mut Draws,
    size: GeneratedSize,
    number: u16,
) -> Result<Tuple, NoMemory>
    requires { number < definition_count size.selectors }
    ensures text { OnOk result (text.new.items ≡ text.old.items
        ++ text_of_lines (definition_line size.classes size.selectors draws.old number)) }
    ensures state { OnOk result (draws.new ≡ after_definition size.selectors draws.old number) }
    ensures classes { IfOk result (λ classes. classes ≡ tuple_of size.classes size.selectors draws.old number) }
{
    push_begin(text, number)?;
    let selector = number % size.selectors;
    let classes = draw_tuple(draws, size, selector);
    push_define(text, selector, classes.classes(), number)?;
    push_commit(text, size, number)?;
    Ok(classes)
}

/// Puts the batches of the definitions at the end of the text, and the classes of each at the end of `tuples`.
pub fn push_definitions(
    text: &mut Vec<u8>,
    draws: &mut Draws,
    size: GeneratedSize,
    tuples: &mut Vec<Tuple>,
) -> Result<(), NoMemory>
    requires { tuples.old.items ≡ [] }
    ensures text { OnOk result (text.new.items ≡ text.old.items
        ++ text_of_lines (definition_lines size.classes size.selectors draws.old)) }
    ensures state { OnOk result (draws.new ≡ after_definitions size.selectors draws.old) }
    ensures tuples { OnOk result (HasTuples size.classes size.selectors draws.old (definition_count size.selectors) tuples.new.items) }
{
    for number in 0..count_definitions(size) {
        let classes = push_definition(text, draws, size, number)?;
        tuples.push(classes)?;
    }
    Ok(())
}
