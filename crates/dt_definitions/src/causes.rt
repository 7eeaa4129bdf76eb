ghost use Rattle.std.specs.Prelude.{◌≡◌, ℕ, not, find, IsTrue, Some};
ghost use Rattle.dt_graph.specs.Graph.{is_live};
ghost use Rattle.dt_graph.specs.Refusal.{first_cause};
ghost use Rattle.dt_definitions.specs.Parts.{program_of};
ghost use Rattle.dt_definitions.specs.declared.edit.Edit.{Edit};
ghost use Rattle.dt_definitions.specs.Step.{is_named, place_causes, refusal};

use crate::limits::DEFINITIONS;
use crate::parts::Parts;
use crate::why::Why;
use dt_graph::ClassNo;
use dt_selectors::SelNo;

impl Parts {
    // Why a class that a definition names isn't dropped.
    pub(crate) fn cause_to_keep(&self, class: ClassNo) -> Why
        requires { IsTrue (is_named (program_of self.now) class) }
        ensures { refusal (program_of self.now) (Edit.DropClass class) ≡ Some result }
    {
        match self.graph.drop_cause(class) {
            Some(fault) => Why::from(fault),
            None => Why::HasDefinitions,
        }
    }

    // Why the selector isn't dropped.
    pub(crate) fn drop_selector_cause(&self, selector: SelNo) -> Option<Why>
        ensures { result ≡ refusal (program_of self.now) (Edit.DropSelector selector) }
    {
        if self.selectors.arity(selector).is_none() {
            return Some(Why::SelectorUnknown);
        }
        if self.definitions.is_defined(selector) {
            return Some(Why::HasDefinitions);
        }
        None
    }

    // The first of the classes that isn't live.
    fn first_unknown(&self, classes: &[ClassNo]) -> Option<ClassNo>
        ensures { result ≡ find (λ class. not (is_live self.now.graph class)) classes.now }
    {
        classes
            .iter()
            .copied()
            .find(|class| !self.graph.is_live(*class))
    }

    // Why the selector has no place for these classes, whether it is defined there or not.
    fn place_cause(&self, selector: SelNo, classes: &[ClassNo]) -> Option<Why>
        ensures { result ≡ first_cause (place_causes (program_of self.now) selector classes.now) }
    {
        let Some(arity) = self.selectors.arity(selector) else {
            return Some(Why::SelectorUnknown);
        };
        if usize::from(arity.number()) != classes.len() {
            return Some(Why::ArityDiffers);
        }
        if let Some(class) = self.first_unknown(classes) {
            return Some(Why::ClassUnknown { class });
        }
        None
    }

    // Why the selector can't be defined at these classes.
    pub(crate) fn define_cause(&self, selector: SelNo, classes: &[ClassNo]) -> Option<Why>
        ensures { (body : ℕ) → result ≡ refusal (program_of self.now) (Edit.Define selector classes.now body) }
    {
        if let Some(why) = self.place_cause(selector, classes) {
            return Some(why);
        }
        if self.definitions.len() >= DEFINITIONS && !self.definitions.has(selector, classes) {
            return Some(Why::DefinitionsFull);
        }
        None
    }

    // Why the selector doesn't lose a definition at these classes.
    pub(crate) fn undefine_cause(&self, selector: SelNo, classes: &[ClassNo]) -> Option<Why>
        ensures { result ≡ refusal (program_of self.now) (Edit.Undefine selector classes.now) }
    {
        if let Some(why) = self.place_cause(selector, classes) {
            return Some(why);
        }
        if !self.definitions.has(selector, classes) {
            return Some(Why::NoDefinition);
        }
        None
    }
}
