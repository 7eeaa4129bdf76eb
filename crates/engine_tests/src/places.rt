//! Used cells, and what an image needs of pages, with memory enough.
use dt_fit::{Geometry, UsedCells};
use dt_pages::{Draft, PagedTree};
use std::alloc::Global;
use std::test::Fail;

// The words of a class with four selectors, and a method for each in a leaf of its own.
const WORDS: [(u32, u64); 9] = [
    (0, 1),
    (4096, 1),
    (4097, 1),
    (4098, 1),
    (4099, 1),
    (16_777_216, 4_294_967_298),
    (16_779_264, 8_589_934_594),
    (16_781_312, 12_884_901_890),
    (16_783_360, 17_179_869_186),
];

fn set(draft: &mut Draft, place: (u32, u64)) -> Option<()> {
    if place.0 >= 134_217_728 {
        return None;
    }
    draft.set(place.0, place.1).ok()
}

fn set_all(draft: &mut Draft) -> Option<()> {
    for place in WORDS {
        set(draft, place)?;
    }
    Some(())
}

fn need_of(paged: &PagedTree, draft: &mut Draft) -> Option<u32> {
    set_all(draft)?;
    paged.need(draft).ok()
}

// A top, two middle nodes and six leaves.
fn needed(alloc: Global) -> Option<u32> {
    let paged = PagedTree::new(alloc).ok()?;
    let mut draft = Draft::new(alloc);
    need_of(&paged, &mut draft)
}

fn is_taken_and_freed(cells: &mut UsedCells) -> bool {
    cells.take(5).is_ok() && cells.is_used(5) && cells.free(5).is_ok() && !cells.is_used(5)
}

fn taken_and_freed(alloc: Global) -> bool {
    let mut cells = UsedCells::new(alloc, Geometry::Displacements);
    is_taken_and_freed(&mut cells)
}

#[test]
fn nine_pages_are_needed(rt: HostRuntime) -> Result<(), Fail> {
    assert!(rt; needed(rt.alloc()) == Some(9));
    Ok(())
}

#[test]
fn cells_are_taken_and_freed(rt: HostRuntime) -> Result<(), Fail> {
    assert!(rt; taken_and_freed(rt.alloc()));
    Ok(())
}
