ghost use Rattle.dt_script.specs.GeneratedLaws.{GeneratedIsScript, GeneratedIsShort};

use dt_selectors::names_keep_their_numbers;

/// What [`make_script`](crate::make_script) makes is a script for four readers and more, whose names have the numbers
/// that they are spelled with, and it has no more than [`SCRIPT_BYTES`](crate::SCRIPT_BYTES). It does nothing: its
/// contract is the law.
pub fn generated_texts_are_scripts()
    ensures script { GeneratedIsScript }
    ensures short { GeneratedIsShort }
{
    names_keep_their_numbers();
}
