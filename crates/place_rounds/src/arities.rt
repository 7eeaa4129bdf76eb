use dt_trials::Chance;

/// How many arguments the selectors of a small program take.
#[derive(Clone, Copy)]
pub enum Arities {
    /// One; one in six takes two.
    MostlyOne,
    /// One to four.
    OneToFour,
    /// One, one time in two; else two to four.
    HalfOne,
}

impl Arities {
    /// How many arguments a selector takes, by chance.
    pub fn draw(self, chance: &mut Chance) -> u8 {
        match self {
            Arities::MostlyOne => draw_mostly_one(chance),
            Arities::OneToFour => draw_one_to_four(chance),
            Arities::HalfOne => draw_half_one(chance),
        }
    }
}

// One; two, one time in six.
fn draw_mostly_one(chance: &mut Chance) -> u8 {
    if chance.below(6) == 0 { 2 } else { 1 }
}

// One to four, the most seldom.
fn draw_one_to_four(chance: &mut Chance) -> u8 {
    match chance.below(8) {
        0 | 1 => 1,
        2..=4 => 2,
        5 | 6 => 3,
        _ => 4,
    }
}

// One, one time in two; else two to four.
fn draw_half_one(chance: &mut Chance) -> u8 {
    match chance.below(8) {
        0..=3 => 1,
        4 | 5 => 2,
        6 => 3,
        _ => 4,
    }
}
