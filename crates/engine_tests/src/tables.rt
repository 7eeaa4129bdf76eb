//! Words, drafts and trees with memory enough, and the first table of the empty program, through the trait of kinds.
use dt_cells::{TableKind, first_table};
use dt_pages::{Draft, Tree};
use dt_scratch::{Query, Reply};
use dt_sti::Sti;
use std::alloc::Global;
use std::test::Fail;

// Addresses in one leaf, in another leaf, in another middle node, and the last of all.
const PLACES: [(u32, u64); 5] = [
    (0, 7),
    (511, 8),
    (512, 9),
    (262_144, u64::MAX),
    (134_217_727, 1),
];

// One more than the last address.
const END: u32 = 1 << 27;

fn set(draft: &mut Draft, place: (u32, u64)) -> Option<()> {
    if place.0 >= END {
        return None;
    }
    draft.set(place.0, place.1).ok()
}

fn has(tree: &Tree, place: (u32, u64)) -> bool {
    place.0 < END && tree.word(place.0) == place.1
}

fn draft(alloc: Global) -> Option<Draft> {
    let mut draft = Draft::new(alloc);
    for place in PLACES {
        set(&mut draft, place)?;
    }
    Some(draft)
}

fn lay(alloc: Global, tree: &mut Tree) -> bool {
    match draft(alloc) {
        Some(draft) => tree.overlay(draft).is_ok(),
        None => false,
    }
}

fn words_are_laid(alloc: Global) -> Option<bool> {
    let mut tree = Tree::new(alloc).ok()?;
    let is_laid = lay(alloc, &mut tree);
    Some(is_laid && PLACES.iter().all(|place| has(&tree, *place)) && has(&tree, (1, 0)))
}

// What the first table answers to a query of one class.
fn first_reply(alloc: Global) -> Option<Reply> {
    let query = Query::new(0, &[0])?;
    let (_sti, mut tree) = first_table::<Sti>(alloc, 1).ok()?;
    Some(Sti::find(&mut tree, &query))
}

#[test]
fn laid_words_are_read(rt: HostRuntime) -> Result<(), Fail> {
    assert!(rt; words_are_laid(rt.alloc()) == Some(true));
    Ok(())
}

#[test]
fn the_first_table_has_no_selector(rt: HostRuntime) -> Result<(), Fail> {
    assert!(rt; first_reply(rt.alloc()) == Some(Reply::NoSelector));
    Ok(())
}
