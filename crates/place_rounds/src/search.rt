use crate::cells::Cells;
use crate::image::CELLS;
use crate::small::CLASS_NUMBERS;

/// The number of the cell of a class at a place, where so many cells lie between a place and the next.
pub fn cell_number(width: u32, place: u32, class: u16) -> usize {
    width.saturating_mul(place).saturating_add(u32::from(class)) as usize
}

// Who uses the cell of a class at a place; 0 is nobody.
fn user_of(users: &[u16], width: u32, place: u32, class: u16) -> u16 {
    match users.get(cell_number(width, place, class)) {
        Some(user) => *user,
        None => 0,
    }
}

/// Whether each cell that is needed is unused at this place, or used by this one.
pub fn fits(users: &[u16], width: u32, user: u16, needed: &Cells, place: u32) -> bool {
    for index in 0..12usize {
        let other = user_of(users, width, place, CLASS_NUMBERS[index]);
        if needed[index] != 0 && other != 0 && other != user {
            return false;
        }
    }
    true
}

/// Whether one of the cells that are needed is used by this one at this place.
pub fn meets_own(users: &[u16], width: u32, user: u16, needed: &Cells, place: u32) -> bool {
    for index in 0..12usize {
        if needed[index] != 0 && user_of(users, width, place, CLASS_NUMBERS[index]) == user {
            return true;
        }
    }
    false
}

/// The lowest place at which all that is needed fits: one place after another is tried.
pub fn lowest_place(users: &[u16], width: u32, user: u16, needed: &Cells) -> u32 {
    for place in 0..CELLS as u32 {
        if fits(users, width, user, needed, place) {
            return place;
        }
    }
    CELLS as u32
}

// The cell is used by this one from now on.
fn use_cell(users: &mut Vec<u16>, cell: usize, user: u16) {
    if let Some(other) = users.get_mut(cell) {
        *other = user;
    }
}

/// The cells that are needed at this place are used by this one from now on; 0 is nobody.
pub fn use_cells(users: &mut Vec<u16>, width: u32, user: u16, needed: &Cells, place: u32) {
    for index in 0..12usize {
        if needed[index] != 0 {
            use_cell(users, cell_number(width, place, CLASS_NUMBERS[index]), user);
        }
    }
}
