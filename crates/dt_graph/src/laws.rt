ghost use Rattle.std.specs.Prelude.{◌≡◌, ◌==◌, ◌≢◌, ◌↔◌, ℕ, ◌<◌, ◌≤◌, Bool, not, false, ◌&&◌, ◌||◌, IsTrue, List, [], length, None};
ghost use Rattle.dt_graph.specs.declared.limits.TheConstants.{CLASSES, PARENTS};
ghost use Rattle.dt_graph.specs.Graph.{Graph, empty_graph, has_number, is_live, has_link};
ghost use Rattle.dt_graph.specs.Lawful.{LawfulGraph};
ghost use Rattle.dt_graph.specs.GraphChange.{add_cause, add_effect, drop_cause, drop_effect, link_cause, link_effect, unlink_cause, unlink_effect, first_repeated};
ghost use Rattle.dt_graph.specs.Laws.{AddingIsUndone, DroppingIsUndone, LinkingIsUndone, UnlinkingIsUndone, BelowIsAmongLive, BelowIsAntisymmetric, LinksJoinLive, OthersStayBelow, SameAreBelowEdited};

use crate::class_graph::ClassGraph;
use crate::class_set::ClassSet;

/// The graph with no class is lawful, and a change of a lawful graph that isn't refused leaves a lawful one. It does
/// nothing: a caller whose reasoning needs this calls it.
pub fn changes_keep_law()
    ensures empty { LawfulGraph empty_graph }
    ensures add { (graph : Graph) (class : ℕ) (parents : List ℕ) → LawfulGraph graph → class < CLASSES
        → add_cause graph class parents ≡ None → LawfulGraph (add_effect graph class parents) }
    ensures drop { (graph : Graph) (class : ℕ) → LawfulGraph graph
        → drop_cause graph class ≡ None → LawfulGraph (drop_effect graph class) }
    ensures link { (graph : Graph) (class parent : ℕ) → LawfulGraph graph
        → link_cause graph class parent ≡ None → LawfulGraph (link_effect graph class parent) }
    ensures unlink { (graph : Graph) (class parent : ℕ) → LawfulGraph graph
        → unlink_cause graph class parent ≡ None → LawfulGraph (unlink_effect graph class parent) }
{}

/// No change of a lawful graph is refused but one that would leave an unlawful graph, or that has nothing to change: a
/// class or a link that is there already or isn't there, or a parent that is named twice. It does nothing: a caller
/// whose reasoning needs this calls it.
pub fn refusals_are_needed()
    ensures add { (graph : Graph) (class : ℕ) (parents : List ℕ) → LawfulGraph graph → class < CLASSES
        → (add_cause graph class parents ≡ None) ↔ ((is_live graph class ≡ false) × (length parents ≤ PARENTS)
        × (first_repeated [] parents ≡ None) × LawfulGraph (add_effect graph class parents)) }
    ensures drop { (graph : Graph) (class : ℕ) → LawfulGraph graph
        → (drop_cause graph class ≡ None) ↔ (IsTrue (is_live graph class) × LawfulGraph (drop_effect graph class)) }
    ensures link { (graph : Graph) (class parent : ℕ) → LawfulGraph graph
        → (link_cause graph class parent ≡ None)
        ↔ ((has_link graph.links class parent ≡ false) × LawfulGraph (link_effect graph class parent)) }
    ensures unlink { (graph : Graph) (class parent : ℕ) → LawfulGraph graph
        → (unlink_cause graph class parent ≡ None) ↔ IsTrue (has_link graph.links class parent) }
{}

/// Which classes are live and which links are there after a change: what it is about, and of all else what was there
/// before. It does nothing: a caller whose reasoning needs this calls it.
pub fn what_changes_leave()
    ensures add_live { (graph : Graph) (class : ℕ) (parents : List ℕ) (other : ℕ)
        → is_live (add_effect graph class parents) other ≡ ((class == other) || is_live graph other) }
    ensures add_links { (graph : Graph) (class : ℕ) (parents : List ℕ) (low high : ℕ)
        → has_link (add_effect graph class parents).links low high
        ≡ (((class == low) && has_number parents high) || has_link graph.links low high) }
    ensures drop_live { (graph : Graph) (class other : ℕ)
        → is_live (drop_effect graph class) other ≡ (is_live graph other && not (other == class)) }
    ensures drop_links { (graph : Graph) (class low high : ℕ)
        → has_link (drop_effect graph class).links low high ≡ (has_link graph.links low high && not (low == class)) }
    ensures link_live { (graph : Graph) (class parent other : ℕ)
        → is_live (link_effect graph class parent) other ≡ is_live graph other }
    ensures link_links { (graph : Graph) (class parent low high : ℕ)
        → has_link (link_effect graph class parent).links low high
        ≡ (((class == low) && (parent == high)) || has_link graph.links low high) }
    ensures unlink_live { (graph : Graph) (class parent other : ℕ)
        → is_live (unlink_effect graph class parent) other ≡ is_live graph other }
    ensures unlink_links { (graph : Graph) (class parent low high : ℕ)
        → has_link (unlink_effect graph class parent).links low high
        ≡ (has_link graph.links low high && not ((low == class) && (high == parent))) }
{}

/// Each change of a lawful graph is undone by one change, which isn't refused: an addition by a drop, a drop by the
/// addition with the same parents, a link by an unlink, and an unlink by a link. It does nothing: a caller whose reasoning
/// needs this calls it.
pub fn changes_are_undone()
    ensures add { AddingIsUndone }
    ensures drop { DroppingIsUndone }
    ensures link { LinkingIsUndone }
    ensures unlink { UnlinkingIsUndone }
{}

// Types whose values threads may hand on and share.
fn is_shared<T: Send + Sync>() {}

/// A graph may be handed to another thread, and read by several.
pub fn graphs_are_shared() {
    is_shared::<ClassGraph>();
    is_shared::<ClassSet>();
}

/// What holds of below in every lawful graph, also in one of which there is no value: no two classes are below each
/// other, links join live classes, and of two classes of which one is below the other both are live or neither is. It
/// does nothing: a caller whose reasoning needs this calls it.
pub fn law_of_below()
    ensures antisymmetric { BelowIsAntisymmetric }
    ensures links { LinksJoinLive }
    ensures live { BelowIsAmongLive }
{}

/// Where links of some classes to their parents change, the same classes are below one of these before and after, and
/// all other classes are below what they were below. It does nothing: a caller whose reasoning needs this calls it.
pub fn others_stay_below()
    ensures same { SameAreBelowEdited }
    ensures others { OthersStayBelow }
{}
