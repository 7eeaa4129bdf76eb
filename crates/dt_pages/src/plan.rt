ghost use Rattle.std.specs.Prelude.{◌≡◌, ◌<◌, ℕ, [], length, get_or, IfOk, All};
ghost use Rattle.dt_pages.specs.Draft.{laid_over};
ghost use Rattle.dt_pages.specs.Numbering.{IsNode, child};
ghost use Rattle.dt_pages.specs.Paged.{numbering};
ghost use Rattle.dt_pages.specs.Drawing.{pages_of};
ghost use Rattle.dt_pages.specs.Planned.{planned_page, planned_word};

use crate::changes::Changes;
use crate::leaf::{LEAF, Leaf};
use crate::middle::Middle;
use crate::paged::{ADDRESSES, PAGE_WORDS, PagedTree};
use dt_graph::NoMemory;
use std::alloc::Global;
use std::marker::Model;

/// What a new version of a tree needs: the pages to write with their words, the page of the new top, and the pages that the new
/// version has no more. It is seen as these, and the words and page numbers that change. It also keeps empty nodes for these
/// words, so that a tree which adopts it needs no memory.
#[derive(Drop)]
pub struct Plan {
    pub(crate) changes: Changes,
    pub(crate) pages: Vec<u32>,
    pub(crate) contents: Vec<Leaf>,
    pub(crate) top: u32,
    pub(crate) gone: Vec<u32>,
    pub(crate) rooms: Vec<Option<Middle>>,
}

impl Model for Plan {
    ghost use Rattle.std.specs.Prelude.{◌≤◌, length};
    ghost use Rattle.dt_pages.specs.Planned.{Planned, planned_code};
    ghost use Rattle.dt_pages.specs.TreeForm.{AreRooms};

    ghost Value = { Planned };

    ghost coded = { planned_code };

    ghost view = { λ p. record { changes = p.changes; pages = p.pages.items; contents = p.contents.items; top = p.top; gone = p.gone.items } };

    ghost invariant = { λ p. (length p.pages.items ≤ 262657) × AreRooms p.rooms.items p.changes };
}

impl Plan {
    /// How many pages are to be written.
    pub fn writes(&self) -> u32
        ensures { result ≡ length self.now.pages }
    {
        self.pages.len() as u32
    }

    /// The number of the page to write at this place, from 0; `None` exactly where there is no such place.
    pub fn page(&self, place: u32) -> Option<u32>
        ensures { result ≡ planned_page self.now place }
    {
        let place = place as usize;
        if place < self.pages.len() {
            Some(self.pages[place])
        } else {
            None
        }
    }

    /// The word at this place of that page; `None` exactly where there is no such page or the page has no such place.
    pub fn word(&self, place: u32, at: u16) -> Option<u64>
        ensures { result ≡ planned_word self.now place at }
    {
        let (place, at) = (place as usize, at as usize);
        if place < self.contents.len() && at < LEAF {
            Some(self.contents[place].word(at))
        } else {
            None
        }
    }

    /// The page of the new top; 0 where nothing is set.
    pub fn top(&self) -> u32
        ensures { result ≡ self.now.top }
    {
        self.top
    }

    /// The pages of the old version, other than page 0, that the new one has no more, each once.
    pub fn gone(&self) -> &[u32]
        ensures { result.now ≡ self.now.gone }
    {
        &self.gone
    }
}

// What stands at the places of a node.
fn content(alloc: Global, tree: &PagedTree, changes: &Changes, node: u32) -> Result<Leaf, NoMemory>
    requires { IsNode node }
    ensures { IfOk result (λ leaf. (at : ℕ) → at < 512 → get_or leaf at 0 ≡ laid_over changes.now (numbering tree.now) (child node at)) }
{
    let first = PAGE_WORDS * (node - ADDRESSES);
    let mut leaf = Leaf::new(alloc)?;
    for at in 0..PAGE_WORDS {
        leaf.set(at as usize, tree.changed(changes, first + at));
    }
    Ok(leaf)
}

// What stands at the places of each of these nodes.
pub(crate) fn contents(
    alloc: Global,
    tree: &PagedTree,
    changes: &Changes,
    nodes: &[u32],
) -> Result<Vec<Leaf>, NoMemory>
    requires { All IsNode nodes.now }
    ensures count { IfOk result (λ pages. length pages.items ≡ length nodes.now) }
    ensures words { IfOk result (λ pages. (k at : ℕ) → k < length nodes.now → at < 512
        → get_or (get_or pages.items k []) at 0 ≡ laid_over changes.now (numbering tree.now) (child (get_or nodes.now k 0) at)) }
{
    let mut pages = Vec::new(alloc);
    for node in nodes {
        pages.push(content(alloc, tree, changes, *node)?)?;
    }
    Ok(pages)
}

// The pages of these nodes, where they have one.
pub(crate) fn pages_of(alloc: Global, tree: &PagedTree, nodes: &[u32]) -> Result<Vec<u32>, NoMemory>
    requires { All IsNode nodes.now }
    ensures { IfOk result (λ pages. pages.items ≡ pages_of (numbering tree.now) nodes.now) }
{
    let mut pages = Vec::new(alloc);
    for node in nodes {
        let page = tree.page(*node);
        if page != 0 {
            pages.push(page)?;
        }
    }
    Ok(pages)
}
