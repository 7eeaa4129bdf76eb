ghost use Rattle.std.specs.Prelude.{◌≡◌, ℕ, ◌≤◌, false, ◌&&◌, IsTrue, List, length, None, Some};
ghost use Rattle.dt_graph.specs.Graph.{Link, Graph, has_number, is_live, has_link, parent_count, AscendingLinks};
ghost use Rattle.dt_graph.specs.Parents.{parents_of};
ghost use Rattle.dt_graph.specs.Below.{is_below};
ghost use Rattle.dt_graph.specs.Descendants.{descendants};
ghost use Rattle.dt_graph.specs.Lawful.{AscendingNumbers};
ghost use Rattle.dt_graph.specs.GraphChange.{lowest_subclass};

/// What the lists that are made from a graph tell of it: which parents and which descendants a class has, each once and
/// in ascending order, how many parents, and the lowest of its subclasses. It does nothing: a caller whose reasoning
/// needs this calls it.
pub fn lists_agree()
    ensures parents { (links : List Link) (class parent : ℕ)
        → has_number (parents_of links class) parent ≡ has_link links class parent }
    ensures parents_ascend { (links : List Link) (class : ℕ) → AscendingLinks links
        → AscendingNumbers (parents_of links class) }
    ensures parent_count { (links : List Link) (class : ℕ) → parent_count links class ≡ length (parents_of links class) }
    ensures descendants { (graph : Graph) (class low : ℕ)
        → has_number (descendants graph class) low ≡ (is_live graph low && is_below graph.links low class) }
    ensures descendants_ascend { (graph : Graph) (class : ℕ) → AscendingNumbers graph.classes
        → AscendingNumbers (descendants graph class) }
    ensures lowest_subclass { (links : List Link) (class lowest : ℕ) → AscendingLinks links
        → lowest_subclass links class ≡ Some lowest
        → IsTrue (has_link links lowest class) × ((low : ℕ) → IsTrue (has_link links low class) → lowest ≤ low) }
    ensures no_subclass { (links : List Link) (class low : ℕ) → AscendingLinks links
        → lowest_subclass links class ≡ None → has_link links low class ≡ false }
{}
