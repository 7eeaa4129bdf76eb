ghost use Rattle.std.specs.Prelude.{◌≡◌, ◌<◌, ◌≤◌, ◌++◌, [], OnOk, IfOk};
ghost use Rattle.dt_graph.specs.declared.limits.TheConstants.{CLASSES};
ghost use Rattle.dt_script.specs.Draw.{drawn};
ghost use Rattle.dt_script.specs.GeneratedLines.{parents_drawn, after_parents, class_line, class_lines, after_classes};
ghost use Rattle.dt_script.specs.GeneratedText.{text_of_lines};
ghost use Rattle.dt_script.specs.GeneratedLists.{HasFirstParents};

use crate::draws::Draws;
use crate::generated_line::{push_class, push_first_class};
use crate::generated_size::GeneratedSize;
use crate::writing::push;
use dt_definitions::{NoMemory, Tuple};

// Draws the parents of a class: one or two classes before it.
fn draw_parents(draws: &mut Draws, class: u16) -> Tuple
    requires after_first { 0 < class }
    requires in_range { class ≤ CLASSES }
    ensures parents { result ≡ parents_drawn draws.old class }
    ensures state { draws.new ≡ after_parents draws.old class }
{
    let first = draws.draw_class(class);
    if draws.draw(4) != 0 {
        return Tuple::new(&[first]).unwrap();
    }
    let second = draws.draw_class(class);
    if second == first {
        return Tuple::new(&[first]).unwrap();
    }
    Tuple::new(&[first, second]).unwrap()
}

// Puts the line of a class, and hands back its first parent; any number for the first class.
fn push_drawn_class(text: &mut Vec<u8>, draws: &mut Draws, class: u16) -> Result<u16, NoMemory>
    requires { class ≤ CLASSES }
    ensures text { OnOk result (text.new.items ≡ text.old.items ++ text_of_lines (class_line draws.old class)) }
    ensures state { OnOk result (draws.new ≡ after_parents draws.old class) }
    ensures first { IfOk result (λ first. 0 < class → first ≡ drawn draws.old class) }
{
    if class == 0 {
        push_first_class(text)?;
        return Ok(0);
    }
    let parents = draw_parents(draws, class);
    let parents = parents.classes();
    push_class(text, class, parents)?;
    Ok(parents[0].number())
}

/// Puts the batch of the classes at the end of the text, and the first parent of each at the end of `firsts`.
pub fn push_classes(
    text: &mut Vec<u8>,
    draws: &mut Draws,
    size: GeneratedSize,
    firsts: &mut Vec<u16>,
) -> Result<(), NoMemory>
    requires { firsts.old.items ≡ [] }
    ensures text { OnOk result (text.new.items ≡ text.old.items ++ text_of_lines (class_lines draws.old size.classes)) }
    ensures state { OnOk result (draws.new ≡ after_classes draws.old size.classes) }
    ensures firsts { OnOk result (HasFirstParents draws.old size.classes firsts.new.items) }
{
    push(text, b"begin\n")?;
    for class in 0..size.classes {
        let first = push_drawn_class(text, draws, class)?;
        firsts.push(first)?;
    }
    push(text, b"commit\n")
}
