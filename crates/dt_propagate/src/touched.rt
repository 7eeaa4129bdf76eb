ghost use Rattle.std.specs.Prelude.{◌≡◌, ◌==◌, ℕ, ◌||◌};
ghost use Rattle.std.specs.List.{list_any};
ghost use Rattle.dt_graph.specs.Graph.{has_number};
ghost use Rattle.dt_definitions.specs.Naming.{naming};
ghost use Rattle.dt_propagate.specs.Marks.{DifferBelow};
ghost use Rattle.dt_propagate.specs.Touched.{TouchAll, is_of_any, names_any};

use crate::selector_set::SelectorSet;
use dt_definitions::{DefinitionKey, Program};
use dt_graph::{ClassNo, ClassSet};

// The selectors of these keys are in the set from now on.
fn touch(keys: &[DefinitionKey], touched: &mut SelectorSet)
    ensures { (n : ℕ) → has_number touched.new n ≡ (has_number touched.old n || is_of_any keys.now n) }
{
    for key in keys {
        touched.insert(key.selector);
    }
}

// So are those whose definitions name the class, in one program or the other.
fn touch_naming(old: &Program, new: &Program, class: ClassNo, touched: &mut SelectorSet)
    ensures { (n : ℕ) → has_number touched.new n ≡ (has_number touched.old n
        || (is_of_any (naming old.now.definitions class) n || is_of_any (naming new.now.definitions class) n)) }
{
    touch(old.naming(class), touched);
    touch(new.naming(class), touched);
}

// So are those whose definitions name one of the classes.
fn touch_named(old: &Program, new: &Program, classes: &ClassSet, touched: &mut SelectorSet)
    ensures { (n : ℕ) → has_number touched.new n
        ≡ (has_number touched.old n || names_any old.now new.now classes.now n) }
{
    classes.law();
    let mut least = 0;
    while let Some(class) = classes.first_from(least) {
        touch_naming(old, new, class, touched);
        least = class.number() as usize + 1;
    }
}

// The selectors whose cells may differ: those of the keys, and those whose definitions name a class that moved.
pub(crate) fn touched(
    old: &Program,
    new: &Program,
    keys: &[DefinitionKey],
    moved: &ClassSet,
) -> SelectorSet
    requires { DifferBelow old.now new.now keys.now moved.now }
    ensures { TouchAll old.now new.now result }
{
    let mut touched = SelectorSet::new();
    touch(keys, &mut touched);
    touch_named(old, new, moved, &mut touched);
    touched
}
