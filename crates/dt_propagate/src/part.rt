// What is counted of a program.
#[derive(Clone, Copy, Debug)]
pub(crate) enum Part {
    // The cells that are understood.
    Cells,
    // The rows.
    Rows,
}
