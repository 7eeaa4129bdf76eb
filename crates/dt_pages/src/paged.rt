ghost use Rattle.std.specs.Prelude.{◌≡◌, ◌<◌, ◌≤◌, ◌-◌, ◌==◌, ℕ, List, [], length, get_or, Some, unwrap_or, IfOk, if◌then◌else◌};
ghost use Rattle.std.specs.FinMap.{empty, entries, get};
ghost use Rattle.dt_pages.specs.Reading.{addresses};
ghost use Rattle.dt_pages.specs.Image.{IsImage, look_up, need};
ghost use Rattle.dt_pages.specs.Draft.{Drafted, laid_over};
ghost use Rattle.dt_pages.specs.Numbering.{IsNode, top_node, IsNumbering, AreFree};
ghost use Rattle.dt_pages.specs.Planned.{IsPlan};
ghost use Rattle.dt_pages.specs.Paged.{numbering, image_under};
ghost use Rattle.dt_pages.specs.Drawing.{is_blank_below, leaves_of, changed_leaves, nodes_over, changed_nodes, drawn};

use crate::changes::Changes;
use crate::draft::Draft;
use crate::drawing::Drawing;
use crate::plan::{Plan, contents, pages_of};
use crate::tree::{Tree, rooms_of};
use dt_graph::NoMemory;
use std::alloc::Global;
use std::marker::Model;

// How many addresses there are, and so the position of the first leaf.
pub(crate) const ADDRESSES: u32 = 1 << 27;

// How many nodes a tree has: leaves, middle nodes and the top.
const NODES: usize = (1 << 18) + (1 << 9) + 1;

// The position of the top.
const TOP: u32 = ADDRESSES + NODES as u32 - 1;

// How many words a page has.
pub(crate) const PAGE_WORDS: u32 = 512;

// Page numbers are below this.
pub(crate) const PAGES: u64 = 1 << 16;

/// An image with a page for each node of its tree below which a word is set. It is seen as the image and the numbers of the
/// pages, 0 for a node without one.
#[derive(Drop)]
pub struct PagedTree {
    tree: Tree,
    page_numbers: Vec<u32>,
}

impl Model for PagedTree {
    ghost use Rattle.std.specs.Prelude.{◌≡◌, length};
    ghost use Rattle.dt_pages.specs.Numbering.{IsNumbering};
    ghost use Rattle.dt_pages.specs.Paged.{Paged, paged_code, numbering};

    ghost Value = { Paged };

    ghost coded = { paged_code };

    ghost view = { λ t. record { image = t.tree; page_numbers = t.page_numbers.items } };

    ghost invariant = { λ t. (length t.page_numbers.items ≡ 262657)
        × IsNumbering (numbering (record { image = t.tree; page_numbers = t.page_numbers.items })) };
}

// So many zeros.
fn no_pages(alloc: Global, count: usize) -> Result<Vec<u32>, NoMemory>
    ensures count { IfOk result (λ numbers. length numbers.items ≡ count) }
    ensures zeros { IfOk result (λ numbers. (at : ℕ) → get_or numbers.items at 0 ≡ 0) }
{
    Ok(vec![in alloc; 0; count]?)
}

// The nodes above these, each once where they ascend.
fn nodes_above(alloc: Global, nodes: &[u32]) -> Result<Vec<u32>, NoMemory>
    ensures { IfOk result (λ above. above.items ≡ nodes_over nodes.now) }
{
    let mut above = Vec::new(alloc);
    for node in nodes {
        above.push(ADDRESSES + *node / PAGE_WORDS)?;
    }
    above.dedup();
    Ok(above)
}

// The number of a node is another; nothing changes where the position is no node.
fn set_number(numbers: &mut Vec<u32>, at: u32, number: u64)
    requires count { length numbers.old.items ≡ 262657 }
    requires in_range { IsNode at → number < 65536 }
    ensures count { length numbers.new.items ≡ 262657 }
    ensures numbers { (node : ℕ) → IsNode node
        → get_or numbers.new.items (node - addresses) 0 ≡ (if node == at then number else get_or numbers.old.items (node - addresses) 0) }
{
    if at >= ADDRESSES && at <= TOP {
        numbers[(at - ADDRESSES) as usize] = number as u32;
    }
}

// The numbers of nodes among the changes are set.
fn set_all(numbers: &mut Vec<u32>, changes: &Changes)
    requires count { length numbers.old.items ≡ 262657 }
    requires in_range { (node number : ℕ) → IsNode node → get changes.now node ≡ Some number → number < 65536 }
    ensures count { length numbers.new.items ≡ 262657 }
    ensures numbers { (node : ℕ) → IsNode node
        → get_or numbers.new.items (node - addresses) 0 ≡ unwrap_or (get changes.now node) (get_or numbers.old.items (node - addresses) 0) }
{
    for (at, number) in &changes.values {
        set_number(numbers, *at, *number);
    }
}

impl PagedTree {
    /// The image in which nothing is set: no node has a page.
    pub fn new(alloc: Global) -> Result<PagedTree, NoMemory>
        ensures image { IfOk result (λ paged. paged.image ≡ empty) }
        ensures pages { IfOk result (λ paged. (node : ℕ) → IsNode node → numbering paged node ≡ 0) }
    {
        let page_numbers = no_pages(alloc, NODES)?;
        Ok(PagedTree {
            tree: Tree::new(alloc)?,
            page_numbers,
        })
    }

    /// The tree of the image.
    pub fn tree(&self) -> &Tree
        ensures { result.now ≡ self.now.image }
    {
        &self.tree
    }

    /// What holds of every tree with pages: its image is one, its numbering has the words of the image and is one, so a
    /// node has a page exactly where a word is set below it, and no page has two nodes. It does nothing: a caller whose
    /// reasoning needs this calls it.
    pub fn law(&self)
        ensures image { IsImage self.now.image }
        ensures words { (address : ℕ) → address < addresses → numbering self.now address ≡ look_up self.now.image address }
        ensures numbers { IsNumbering (numbering self.now) }
    {
        let _page_numbers = &self.page_numbers;
        self.tree.law();
    }

    /// The page of the top node; 0 where nothing is set.
    pub fn top(&self) -> u32
        ensures { result ≡ numbering self.now top_node }
    {
        self.page_numbers[NODES - 1]
    }

    // The word or page number at a position.
    fn number(&self, position: u32) -> u64
        requires { position ≤ top_node }
        ensures { result ≡ numbering self.now position }
    {
        if position < ADDRESSES {
            self.tree.word(position)
        } else {
            u64::from(self.page_numbers[(position - ADDRESSES) as usize])
        }
    }

    // The page of a node; 0 where it has none.
    pub(crate) fn page(&self, node: u32) -> u32
        requires { IsNode node }
        ensures { result ≡ numbering self.now node }
    {
        self.page_numbers[(node - ADDRESSES) as usize]
    }

    // The same where these changes are laid over.
    pub(crate) fn changed(&self, changes: &Changes, position: u32) -> u64
        requires { position ≤ top_node }
        ensures { result ≡ laid_over changes.now (numbering self.now) position }
    {
        match changes.get(position) {
            Some(value) => value,
            None => self.number(position),
        }
    }

    // Whether all below a node is 0 where these changes are laid over.
    pub(crate) fn is_blank(&self, changes: &Changes, node: u32) -> bool
        requires { IsNode node }
        ensures { result ≡ is_blank_below (laid_over changes.now (numbering self.now)) node }
    {
        let first = PAGE_WORDS * (node - ADDRESSES);
        for at in 0..PAGE_WORDS {
            if self.changed(changes, first + at) != 0 {
                return false;
            }
        }
        true
    }

    // The leaves of the words that change, as often as one does.
    fn leaves_of_words(&self, draft: &Draft) -> Result<Vec<u32>, NoMemory>
        ensures { IfOk result (λ leaves. leaves.items ≡ leaves_of (numbering self.now) (entries draft.now)) }
    {
        let mut leaves = Vec::new(*self.page_numbers.allocator());
        for (at, word) in &draft.words {
            if self.number(*at) != *word {
                leaves.push(ADDRESSES + *at / PAGE_WORDS)?;
            }
        }
        Ok(leaves)
    }

    // The nodes above the words that change, in ascending order.
    fn changed_nodes(&self, draft: &Draft) -> Result<Vec<u32>, NoMemory>
        ensures { IfOk result (λ nodes. nodes.items ≡ changed_nodes (numbering self.now) draft.now) }
    {
        let mut nodes = self.leaves_of_words(draft)?;
        nodes.dedup();
        let middles = nodes_above(*nodes.allocator(), &nodes)?;
        let tops = nodes_above(*nodes.allocator(), &middles)?;
        nodes.extend_from_slice(&middles)?;
        nodes.extend_from_slice(&tops)?;
        Ok(nodes)
    }

    // The new numbers of all nodes above the words that change, with pages of the list.
    fn draw(&self, draft: &Draft, pages: &[u32]) -> Result<Drawing, NoMemory>
        ensures { IfOk result (λ drawing. drawing
            ≡ drawn (numbering self.now) pages.now (record { changes = draft.now; written = [] }) (changed_nodes (numbering self.now) draft.now)) }
    {
        let _words = &draft.words;
        let nodes = self.changed_nodes(draft)?;
        let mut drawing = Drawing::new(*self.page_numbers.allocator(), draft)?;
        drawing.draw_all(self, &nodes, pages)?;
        Ok(drawing)
    }

    /// How many pages the image of the draft needs beside this one: its nodes below which a word is set and which differ. It
    /// costs what reading 512 words or numbers costs for each node above a word that changes.
    pub fn need(&self, draft: &Draft) -> Result<u32, NoMemory>
        ensures { IfOk result (λ count. count ≡ need self.now.image (image_under draft.now self.now.image)) }
    {
        let _words = &draft.words;
        self.tree.law();
        let drawing = self.draw(draft, &[])?;
        Ok(drawing.written.len() as u32)
    }

    /// A plan of the draft: each node below which a word is set and which differs is to be written once, to a page of the
    /// list, and every other node keeps its page. It costs what `need` does, and the making of a page of words for each
    /// page of the list and of empty nodes for the words of the draft, at most a leaf of 512 words for each.
    pub fn plan(&self, draft: &Draft, pages: &[u32]) -> Result<Plan, NoMemory>
        requires free { AreFree (numbering self.now) pages.now }
        requires enough { length pages.now ≡ need self.now.image (image_under draft.now self.now.image) }
        ensures { IfOk result (λ plan. IsPlan (numbering self.now) draft.now pages.now plan) }
    {
        let _words = &draft.words;
        self.tree.law();
        let alloc = *self.page_numbers.allocator();
        let gone = pages_of(alloc, self, &self.changed_nodes(draft)?)?;
        let drawing = self.draw(draft, pages)?;
        let contents = contents(alloc, self, &drawing.changes, &drawing.written)?;
        let top = self.changed(&drawing.changes, ADDRESSES + NODES as u32 - 1) as u32;
        let mut listed = Vec::new(alloc);
        listed.extend_from_slice(pages)?;
        let rooms = rooms_of(alloc, draft)?;
        Ok(Plan {
            changes: drawing.changes,
            pages: listed,
            contents,
            top,
            gone,
            rooms,
        })
    }

    /// The tree is the image of the draft for which this is a plan, with the plan's pages. It takes no memory and can't fail: the
    /// nodes that the tree lacks are moved out of the plan. It costs three ways down the tree for each word of the draft, and
    /// a step for each page number that changes.
    pub fn adopt(&mut self, plan: Plan)
        requires { (drafted : Drafted) × (list : List ℕ) × IsPlan (numbering self.old) drafted list plan }
        ensures numbers { (position : ℕ) → position ≤ top_node → numbering self.new position ≡ laid_over plan.changes (numbering self.old) position }
        ensures words { (drafted : Drafted) (list : List ℕ) → IsPlan (numbering self.old) drafted list plan
            → (address : ℕ) → address < addresses → look_up self.new.image address ≡ laid_over drafted (look_up self.old.image) address }
    {
        let rooms = plan.rooms;
        let changes = plan.changes;
        set_all(&mut self.page_numbers, &changes);
        self.tree.adopt(&changes, rooms);
    }
}
