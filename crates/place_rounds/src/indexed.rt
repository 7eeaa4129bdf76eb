use crate::cells::{Cells, cells_of};
use crate::image::Image;
use crate::search::cell_number;
use crate::small::{CLASS_NUMBERS, SELECTOR_NUMBERS};
use dt_definitions::Program;

// Lays the cells of a selector in its block.
fn lay_cells(image: &mut Image, block: u32, cells: &Cells) {
    for index in 0..12usize {
        if cells[index] != 0 {
            image.set_cell(cell_number(2048, block, CLASS_NUMBERS[index]), cells[index]);
        }
    }
}

/// Lays the cells of all selectors of one argument, each in the block of its number.
pub fn lay_indexed(image: &mut Image, program: &Program) {
    let mut block: u32 = 0;
    for number in SELECTOR_NUMBERS {
        let cells = cells_of(program, number);
        lay_cells(image, block, &cells);
        block = block.saturating_add(1);
    }
}
