ghost use Rattle.std.specs.Prelude.{◌≡◌, ℕ, ◌↔◌, IsTrue, List};
ghost use Rattle.dt_graph.specs.Graph.{Link};
ghost use Rattle.dt_graph.specs.Below.{IsBelow, is_below};

/// The test of below is true exactly where a list of links leads from the one to the other. It does nothing: a caller
/// whose reasoning needs this calls it.
pub fn below_test_agrees()
    ensures { (links : List Link) (low high : ℕ) → IsTrue (is_below links low high) ↔ IsBelow links low high }
{}

/// Below is reflexive and transitive, whatever the links. That no two classes are below each other is what
/// [`ClassGraph::law`](crate::ClassGraph::law) says of the links of a graph. It does nothing: a caller whose reasoning
/// needs this calls it.
pub fn below_is_an_order()
    ensures reflexive { (links : List Link) (class : ℕ) → IsTrue (is_below links class class) }
    ensures transitive { (links : List Link) (low middle high : ℕ) → IsTrue (is_below links low middle)
        → IsTrue (is_below links middle high) → IsTrue (is_below links low high) }
{}
