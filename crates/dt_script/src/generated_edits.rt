ghost use Rattle.std.specs.Prelude.{◌≡◌, ◌+◌, ◌-◌, ◌<◌, ◌++◌, [], length, slice_index_or, OnOk};
ghost use Rattle.dt_script.specs.Draw.{next_state, drawn};
ghost use Rattle.dt_script.specs.GeneratedLines.{definition_count, undefine_line, define_line, class_drawn, edit_line, after_edit, edit_lines, after_edits};
ghost use Rattle.dt_script.specs.GeneratedText.{ended, text_of_lines};

use crate::draws::Draws;
use crate::generated_definitions::count_definitions;
use crate::generated_line::{push_define, push_link, push_undefine, push_unlink};
use crate::generated_size::GeneratedSize;
use crate::line::Line;
use crate::writing::push;
use dt_definitions::{NoMemory, Tuple};

// How many edits there are.
const EDITS: u16 = 200;

// Puts the line of a definition that goes at the end of the text.
fn push_drawn_undefine(
    text: &mut Vec<u8>,
    draws: &mut Draws,
    size: GeneratedSize,
    tuples: &[Tuple],
) -> Result<(), NoMemory>
    requires { length tuples.now ≡ definition_count size.selectors }
    ensures text { OnOk result (text.new.items ≡ text.old.items
        ++ ended (undefine_line (λ n. slice_index_or tuples.now n []) size.selectors (drawn draws.old (definition_count size.selectors)))) }
    ensures state { OnOk result (draws.new ≡ next_state draws.old) }
{
    let number = draws.draw(count_definitions(size));
    let tuple = &tuples[number as usize];
    push_undefine(text, number % size.selectors, tuple.classes())
}

// Puts the line of a definition that comes again at the end of the text.
fn push_drawn_define(
    text: &mut Vec<u8>,
    draws: &mut Draws,
    size: GeneratedSize,
    tuples: &[Tuple],
) -> Result<(), NoMemory>
    requires { length tuples.now ≡ definition_count size.selectors }
    ensures text { OnOk result (text.new.items ≡ text.old.items
        ++ ended (define_line (λ n. slice_index_or tuples.now n []) size.selectors (drawn draws.old (definition_count size.selectors)))) }
    ensures state { OnOk result (draws.new ≡ next_state draws.old) }
{
    let number = draws.draw(count_definitions(size));
    let tuple = &tuples[number as usize];
    push_define(text, number % size.selectors, tuple.classes(), number)
}

// Any class but the first.
fn draw_class(draws: &mut Draws, size: GeneratedSize) -> u16
    ensures value { result ≡ class_drawn size.classes draws.old }
    ensures state { draws.new ≡ next_state draws.old }
    ensures after_first { 0 < result }
    ensures in_range { result < size.classes }
{
    1 + draws.draw(size.classes - 1)
}

// Puts the line of a new link at the end of the text.
fn push_drawn_link(
    text: &mut Vec<u8>,
    draws: &mut Draws,
    size: GeneratedSize,
) -> Result<(), NoMemory>
    ensures text { OnOk result (text.new.items ≡ text.old.items
        ++ ended (Line.Link (class_drawn size.classes draws.old) (drawn (next_state draws.old) (class_drawn size.classes draws.old)))) }
    ensures state { OnOk result (draws.new ≡ next_state (next_state draws.old)) }
{
    let class = draw_class(draws, size);
    let parent = draws.draw(class);
    push_link(text, class, parent)
}

// Puts the line of a first link that goes at the end of the text.
fn push_drawn_unlink(
    text: &mut Vec<u8>,
    draws: &mut Draws,
    size: GeneratedSize,
    firsts: &[u16],
) -> Result<(), NoMemory>
    requires { length firsts.now ≡ size.classes }
    ensures text { OnOk result (text.new.items ≡ text.old.items
        ++ ended (Line.Unlink (class_drawn size.classes draws.old) (slice_index_or firsts.now (class_drawn size.classes draws.old) 0))) }
    ensures state { OnOk result (draws.new ≡ next_state draws.old) }
{
    let class = draw_class(draws, size);
    push_unlink(text, class, firsts[class as usize])
}

// Puts the line of the edit of this number at the end of the text.
fn push_edit(
    text: &mut Vec<u8>,
    draws: &mut Draws,
    size: GeneratedSize,
    firsts: &[u16],
    tuples: &[Tuple],
    edit: u16,
) -> Result<(), NoMemory>
    requires firsts { length firsts.now ≡ size.classes }
    requires tuples { length tuples.now ≡ definition_count size.selectors }
    ensures text { OnOk result (text.new.items ≡ text.old.items
        ++ text_of_lines (edit_line (λ n. slice_index_or firsts.now n 0) (λ n. slice_index_or tuples.now n []) size.classes size.selectors
        draws.old edit)) }
    ensures state { OnOk result (draws.new ≡ after_edit draws.old edit) }
{
    match edit % 4 {
        0 => push_drawn_undefine(text, draws, size, tuples),
        1 => push_drawn_define(text, draws, size, tuples),
        2 => push_drawn_link(text, draws, size),
        _ => push_drawn_unlink(text, draws, size, firsts),
    }
}

/// Puts the phase of edits at the end of the text, from the first parents of the classes and the classes of the
/// definitions.
pub fn push_edits(
    text: &mut Vec<u8>,
    draws: &mut Draws,
    size: GeneratedSize,
    firsts: &[u16],
    tuples: &[Tuple],
) -> Result<(), NoMemory>
    requires firsts { length firsts.now ≡ size.classes }
    requires tuples { length tuples.now ≡ definition_count size.selectors }
    ensures text { OnOk result (text.new.items ≡ text.old.items
        ++ text_of_lines (edit_lines (λ n. slice_index_or firsts.now n 0) (λ n. slice_index_or tuples.now n []) size.classes size.selectors
        draws.old)) }
    ensures state { OnOk result (draws.new ≡ after_edits draws.old) }
{
    push(text, b"phase\n")?;
    for edit in 0..EDITS {
        push_edit(text, draws, size, firsts, tuples, edit)?;
    }
    Ok(())
}
