ghost use Rattle.std.specs.Prelude.{◌≡◌, ◌++◌, OnOk};
ghost use Rattle.dt_script.specs.GeneratedLines.{call_line, after_call, caller_lines, after_caller, calling_lines, after_callers};
ghost use Rattle.dt_script.specs.GeneratedText.{text_of_lines};

use crate::draws::Draws;
use crate::generated_definitions::draw_tuple;
use crate::generated_line::{push_call, push_caller};
use crate::generated_size::GeneratedSize;
use crate::writing::push;
use dt_definitions::NoMemory;

// How many callers a phase has.
const CALLING: u16 = 4;

// How many calls each makes.
const CALLS: u16 = 2_500;

// Puts the line of a call that is drawn.
fn push_drawn_call(
    text: &mut Vec<u8>,
    draws: &mut Draws,
    size: GeneratedSize,
    number: u16,
) -> Result<(), NoMemory>
    ensures text { OnOk result (text.new.items ≡ text.old.items
        ++ text_of_lines (call_line size.classes size.selectors draws.old number)) }
    ensures state { OnOk result (draws.new ≡ after_call size.selectors draws.old number) }
{
    let selector = draws.draw(size.selectors);
    let classes = draw_tuple(draws, size, selector);
    push_call(text, selector, classes.classes())
}

// Puts the lines of a caller at the end of the text.
fn push_calls(
    text: &mut Vec<u8>,
    draws: &mut Draws,
    size: GeneratedSize,
    caller: u16,
) -> Result<(), NoMemory>
    ensures text { OnOk result (text.new.items ≡ text.old.items
        ++ text_of_lines (caller_lines size.classes size.selectors draws.old caller)) }
    ensures state { OnOk result (draws.new ≡ after_caller size.selectors draws.old caller) }
{
    push_caller(text, caller)?;
    for number in 0..CALLS {
        push_drawn_call(text, draws, size, number)?;
    }
    Ok(())
}

/// Puts a phase of callers at the end of the text.
pub fn push_callers(
    text: &mut Vec<u8>,
    draws: &mut Draws,
    size: GeneratedSize,
) -> Result<(), NoMemory>
    ensures text { OnOk result (text.new.items ≡ text.old.items
        ++ text_of_lines (calling_lines size.classes size.selectors draws.old)) }
    ensures state { OnOk result (draws.new ≡ after_callers size.selectors draws.old) }
{
    push(text, b"phase\n")?;
    for caller in 1..CALLING + 1 {
        push_calls(text, draws, size, caller)?;
    }
    Ok(())
}
