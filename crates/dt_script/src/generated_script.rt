ghost use Rattle.std.specs.Prelude.{◌≡◌, ◌≤◌, ◌++◌, [], length, slice_index_or, IfOk, OnOk};
ghost use Rattle.dt_graph.specs.declared.limits.TheConstants.{CLASSES};
ghost use Rattle.dt_selectors.specs.declared.limits.TheConstants.{SELECTORS};
ghost use Rattle.dt_script.specs.GeneratedLines.{definition_count, after_classes, after_program, program_lines, phase_lines};
ghost use Rattle.dt_script.specs.GeneratedLists.{HasFirstParents, HasTuples};
ghost use Rattle.dt_script.specs.GeneratedText.{text_of_lines, generated_text};

use crate::draws::Draws;
use crate::generated_calls::push_callers;
use crate::generated_classes::push_classes;
use crate::generated_definitions::push_definitions;
use crate::generated_edits::push_edits;
use crate::generated_selectors::push_selectors;
use crate::generated_size::GeneratedSize;
use crate::writing::push;
use dt_definitions::{NoMemory, Tuple};
use std::alloc::Global;

/// The text of a large script from a number, with so many classes, from 2 to 2,048, and selectors, from 1 to 4,096. The
/// same numbers give the same text. It takes memory: the text, and while it is made the first parents of the classes and
/// the classes of the definitions.
///
/// # Errors
///
/// [`NoMemory`] where no memory was found.
pub fn make_script(
    alloc: Global,
    number: u32,
    classes: u16,
    selectors: u16,
) -> Result<Vec<u8>, NoMemory>
    requires two_classes { 2 ≤ classes }
    requires classes_in_range { classes ≤ CLASSES }
    requires one_selector { 1 ≤ selectors }
    requires selectors_in_range { selectors ≤ SELECTORS }
    ensures { IfOk result (λ text. text.items ≡ generated_text number classes selectors) }
{
    let size = GeneratedSize { classes, selectors };
    let mut text = Vec::new(alloc);
    push_script(alloc, &mut text, number, size)?;
    Ok(text)
}

// Puts the script at the end of the text.
fn push_script(
    alloc: Global,
    text: &mut Vec<u8>,
    number: u32,
    size: GeneratedSize,
) -> Result<(), NoMemory>
    ensures { OnOk result (text.new.items ≡ text.old.items ++ generated_text number size.classes size.selectors) }
{
    let mut draws = Draws::new(number);
    let mut firsts = Vec::new(alloc);
    let mut tuples = Vec::new(alloc);
    push_program(text, &mut draws, size, &mut firsts, &mut tuples)?;
    push_phases(text, &mut draws, size, &firsts, &tuples)
}

// Puts the lines up to the last definition at the end of the text.
fn push_program(
    text: &mut Vec<u8>,
    draws: &mut Draws,
    size: GeneratedSize,
    firsts: &mut Vec<u16>,
    tuples: &mut Vec<Tuple>,
) -> Result<(), NoMemory>
    requires firsts { firsts.old.items ≡ [] }
    requires tuples { tuples.old.items ≡ [] }
    ensures text { OnOk result (text.new.items ≡ text.old.items ++ text_of_lines (program_lines draws.old size.classes size.selectors)) }
    ensures state { OnOk result (draws.new ≡ after_program draws.old size.classes size.selectors) }
    ensures firsts { OnOk result (HasFirstParents draws.old size.classes firsts.new.items) }
    ensures tuples { OnOk result (HasTuples size.classes size.selectors (after_classes draws.old size.classes)
        (definition_count size.selectors) tuples.new.items) }
{
    push(text, b"dispatch 1\n")?;
    push_classes(text, draws, size, firsts)?;
    push_selectors(text, size)?;
    push_definitions(text, draws, size, tuples)
}

// Puts the phases with callers, the edits between them and the last line at the end of the text.
fn push_phases(
    text: &mut Vec<u8>,
    draws: &mut Draws,
    size: GeneratedSize,
    firsts: &[u16],
    tuples: &[Tuple],
) -> Result<(), NoMemory>
    requires firsts { length firsts.now ≡ size.classes }
    requires tuples { length tuples.now ≡ definition_count size.selectors }
    ensures { OnOk result (text.new.items ≡ text.old.items
        ++ text_of_lines (phase_lines (λ n. slice_index_or firsts.now n 0) (λ n. slice_index_or tuples.now n []) size.classes size.selectors
        draws.old)) }
{
    push_callers(text, draws, size)?;
    push_edits(text, draws, size, firsts, tuples)?;
    push_callers(text, draws, size)?;
    push(text, b"end\n")
}
