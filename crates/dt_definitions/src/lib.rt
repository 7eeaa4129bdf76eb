//! Programs of classes, selectors and definitions, and the edits that change them.
#![tactic(auto)]

mod all_definitions;
mod apply_batch;
mod batch;
mod causes;
mod class_order;
mod defined;
mod definition_key;
mod edit;
mod laws;
mod limits;
mod naming;
mod naming_index;
mod parents;
mod parts;
mod program;
mod refusal;
mod selector_definitions;
mod sharing;
mod tuple;
mod two_programs;
mod undo;
mod why;

pub use batch::Batch;
pub use defined::Defined;
pub use definition_key::DefinitionKey;
pub use dt_graph::{CLASSES, ClassGraph, ClassNo, GraphFault, NoMemory, PARENTS};
pub use dt_selectors::{
    Arity, BODIES, BodyNo, NAMES, NameFault, Names, SELECTORS, SelNo, SelectorFault,
};
pub use edit::Edit;
pub use laws::{
    batches_are_their_edits, batches_differ_where_they_say, batches_have_one_answer,
    batches_make_histories, definitions_stand_alone, edits_have_one_answer, histories_are_lawful,
    histories_go_on_by_one, lawful_programs, new_definitions_take_memory, steps_keep_law,
};
pub use limits::DEFINITIONS;
pub use parents::Parents;
pub use program::Program;
pub use tuple::Tuple;
pub use two_programs::TwoPrograms;
pub use why::{ApplyFault, BatchFault, Why};
