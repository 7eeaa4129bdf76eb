ghost use Rattle.std.specs.Prelude.{◌≡◌, ◌<◌, ◌^◌, [], IfOk, OnOk, All};
ghost use Rattle.dt_pages.specs.Numbering.{IsNode};
ghost use Rattle.dt_pages.specs.Paged.{numbering};
ghost use Rattle.dt_pages.specs.Drawing.{drawn_one, drawn, taken};

use crate::changes::Changes;
use crate::draft::Draft;
use crate::paged::{PAGES, PagedTree};
use dt_graph::NoMemory;
use std::alloc::Global;
use std::marker::Model;

// What is known of a draft's nodes: the words and numbers that change, and the nodes that have taken a page.
#[derive(Drop)]
pub(crate) struct Drawing {
    pub(crate) changes: Changes,
    pub(crate) written: Vec<u32>,
}

impl Model for Drawing {
    ghost use Rattle.dt_pages.specs.Drawing as drawing;
    ghost use Rattle.dt_pages.specs.Drawing.{drawing_code};

    ghost Value = { drawing.Drawing };

    ghost coded = { drawing_code };

    ghost view = { λ d. record { changes = d.changes; written = d.written.items } };
}

// The number of the page that is taken at this turn.
fn page_at(pages: &[u32], turn: usize) -> u64
    requires { turn < 2 ^ 63 }
    ensures { result ≡ taken pages.now turn }
{
    match pages.get(turn) {
        Some(page) => u64::from(*page),
        None => PAGES + turn as u64,
    }
}

impl Drawing {
    // The words of a draft; no page is taken.
    pub(crate) fn new(alloc: Global, draft: &Draft) -> Result<Drawing, NoMemory>
        ensures { IfOk result (λ drawing. drawing ≡ record { changes = draft.now; written = [] }) }
    {
        let written = Vec::new(alloc);
        Ok(Drawing {
            changes: Changes::of(draft)?,
            written,
        })
    }

    // One node more.
    fn draw_one(&mut self, tree: &PagedTree, pages: &[u32], node: u32) -> Result<(), NoMemory>
        requires { IsNode node }
        ensures { OnOk result (self.new ≡ drawn_one (numbering tree.now) pages.now self.old node) }
    {
        if tree.is_blank(&self.changes, node) {
            self.changes.set(node, 0)?;
            Ok(())
        } else {
            let page = page_at(pages, self.written.len());
            self.changes.set(node, page)?;
            self.written.push(node)?;
            Ok(())
        }
    }

    // All of these nodes.
    pub(crate) fn draw_all(
        &mut self,
        tree: &PagedTree,
        nodes: &[u32],
        pages: &[u32],
    ) -> Result<(), NoMemory>
        requires { All IsNode nodes.now }
        ensures { OnOk result (self.new ≡ drawn (numbering tree.now) pages.now self.old nodes.now) }
    {
        for node in nodes {
            self.draw_one(tree, pages, *node)?;
        }
        Ok(())
    }
}
