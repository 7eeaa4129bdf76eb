ghost use Rattle.std.specs.Prelude.{◌≡◌, ◌==◌, ◌%◌, ◌++◌, OnOk};
ghost use Rattle.dt_script.specs.GeneratedLines.{arity_of_number, selector_lines};
ghost use Rattle.dt_script.specs.GeneratedText.{text_of_lines};

use crate::generated_line::push_selector;
use crate::generated_size::GeneratedSize;
use crate::writing::push;
use dt_definitions::NoMemory;

/// Whether the selector takes two arguments and not one.
pub fn takes_two(selector: u16) -> bool
    ensures { result ≡ (selector % 50 == 49) }
{
    selector % 50 == 49
}

// How many arguments the selector takes.
fn arity_of(selector: u16) -> u16
    ensures { result ≡ arity_of_number selector }
{
    if takes_two(selector) { 2 } else { 1 }
}

/// Puts the batch of the selectors at the end of the text.
pub fn push_selectors(text: &mut Vec<u8>, size: GeneratedSize) -> Result<(), NoMemory>
    ensures { OnOk result (text.new.items ≡ text.old.items ++ text_of_lines (selector_lines size.selectors)) }
{
    push(text, b"begin\n")?;
    for selector in 0..size.selectors {
        push_selector(text, selector, arity_of(selector))?;
    }
    push(text, b"commit\n")
}
