use dt_definitions::{ClassNo, SelNo};
use dt_trials::Chance;

/// The numbers of the classes that a small program may have, ascending: many beside one another, and some at the ends of
/// words.
pub const CLASS_NUMBERS: [u16; 12] = [0, 1, 2, 3, 4, 5, 6, 63, 64, 65, 1000, 2047];

/// The numbers of its selectors, ascending.
pub const SELECTOR_NUMBERS: [u16; 12] = [0, 1, 2, 3, 4, 63, 64, 77, 1000, 2048, 4094, 4095];

/// The class of this number.
pub fn class(number: u16) -> ClassNo {
    ClassNo::new(number).unwrap_or_default()
}

/// The selector of this number.
pub fn selector(number: u16) -> SelNo {
    SelNo::new(number).unwrap_or_default()
}

/// One of the classes by chance.
pub fn draw_class(chance: &mut Chance) -> ClassNo {
    let place = usize::from(chance.below(12));
    class(CLASS_NUMBERS[place])
}

/// One of the selectors by chance.
pub fn draw_selector(chance: &mut Chance) -> SelNo {
    let place = usize::from(chance.below(12));
    selector(SELECTOR_NUMBERS[place])
}
