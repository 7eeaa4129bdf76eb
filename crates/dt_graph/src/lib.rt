//! The class graph of a program: which classes are live, which class has which parents, and the order
//! "below" that the links make. Also the two types that all crates share: [`NoMemory`] and [`Steps`].
#![tactic(auto)]

mod ancestry;
mod below;
mod causes;
mod class_graph;
mod class_no;
mod class_rows;
mod class_set;
mod counted_rows;
mod counted_set;
mod graph_fault;
mod laws;
mod limits;
mod listed;
mod no_memory;
mod parents;
mod renewal;
mod steps;

pub use below::{below_is_an_order, below_test_agrees};
pub use class_graph::ClassGraph;
pub use class_no::ClassNo;
pub use class_set::ClassSet;
pub use graph_fault::GraphFault;
pub use laws::{
    changes_are_undone, changes_keep_law, graphs_are_shared, law_of_below, others_stay_below,
    refusals_are_needed, what_changes_leave,
};
pub use limits::{CLASSES, PARENTS};
pub use listed::lists_agree;
pub use no_memory::NoMemory;
pub use steps::Steps;
