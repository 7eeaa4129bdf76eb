ghost use Rattle.std.specs.Prelude.{◌<◌, ◌≤◌};

use crate::table_rounds::commit_all;
use crate::table_space::Region;
use dt_cells::TableKind;
use dt_definitions::Batch;
use dt_pages::Tree;
use dt_tables::Tabled;
use dt_trials::Fault;

// So many cells make a block.
const BLOCK: u32 = 2048;

// How many cells of the block have an answer.
fn count_block(tree: &Tree, region: Region, block: u32) -> u32
    requires { block < 32768 }
{
    let first = region.first() + BLOCK * block;
    let mut used: u32 = 0;
    for number in 0..BLOCK {
        if tree.word(first + number) != 0 {
            used = used.saturating_add(1);
        }
    }
    used
}

// Prints a line for each block up to the last cell that has an answer.
fn print_blocks(rt: &impl Print, name: &str, tree: &Tree, region: Region) -> Result<(), Fault> {
    let blocks = (region.spanned(tree) + (BLOCK - 1)) / BLOCK;
    for block in 0..blocks {
        let used = count_block(tree, region, block);
        println!(rt; "{name} | {block} | {used}")?;
    }
    Ok(())
}

// Makes the program by these batches, and prints how many cells of each block have an answer.
fn print_loaded<K: TableKind>(
    rt: &impl Print,
    name: &str,
    region: Region,
    batches: &[Batch],
    tabled: &mut Tabled<K>,
) -> Result<(), Fault> {
    commit_all(tabled, batches)?;
    print_blocks(rt, name, tabled.tree(), region)
}

/// Prints how many of each 2,048 cells of the region have an answer, up to the last that has one, where the program that
/// these batches make has a table of this kind.
pub fn print_occupancy<R: Print + AllocGlobal, K: TableKind>(
    rt: &R,
    name: &str,
    region: Region,
    batches: &[Batch],
) -> Result<(), Fault>
    requires { 1 ≤ K.kind.most_low }
{
    let mut tabled = Tabled::<K>::new(rt.alloc())?;
    print_loaded(rt, name, region, batches, &mut tabled)
}
