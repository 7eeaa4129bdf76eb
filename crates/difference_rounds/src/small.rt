use dt_definitions::{ClassNo, SelNo};
use dt_trials::Chance;

/// The numbers of the classes that a small program may have, ascending: beside one another and at the ends of words.
pub const CLASS_NUMBERS: [u16; 6] = [0, 1, 63, 64, 1000, 2047];

/// The numbers of its selectors, ascending.
pub const SELECTOR_NUMBERS: [u16; 4] = [0, 1, 77, 4095];

/// One of the classes by chance.
pub fn draw_class(chance: &mut Chance) -> ClassNo {
    let place = usize::from(chance.below(6));
    ClassNo::new(CLASS_NUMBERS[place]).unwrap_or_default()
}

/// One of the selectors by chance.
pub fn draw_selector(chance: &mut Chance) -> SelNo {
    let place = usize::from(chance.below(4));
    SelNo::new(SELECTOR_NUMBERS[place]).unwrap_or_default()
}
