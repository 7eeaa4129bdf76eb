ghost use Rattle.std.specs.Prelude.{◌≡◌, ◌<◌, ◌≤◌, ◌++◌, ◌∷◌, not, length, IsTrue, IfOk, OnOk, IsErrOf, []};
ghost use Rattle.std.specs.List.{list_all};
ghost use Rattle.std.specs.Option.{option_copied};
ghost use Rattle.dt_selectors.specs.Names.{is_name};
ghost use Rattle.dt_script.specs.NameBook.{is_within_limits, number_in, with_class_name};
ghost use Rattle.dt_script.specs.Growth.{GrewAtEnd};
ghost use Rattle.dt_script.specs.Words.{words_left};
ghost use Rattle.dt_script.specs.Numbering.{with_classes, numbers_in, IsNumbered};
ghost use Rattle.dt_script.specs.Written.{texts_of_classes};

use crate::name_book::NameBook;
use crate::words::cut_word;
use crate::written::Classes;
use dt_definitions::{ClassNo, Tuple};
use dt_selectors::NameFault;
use std::alloc::Global;

/// The numbers of two classes.
pub fn number_two(
    names: &mut NameBook,
    first: &[u8],
    second: &[u8],
) -> Result<(ClassNo, ClassNo), NameFault>
    requires first { IsTrue (is_name first.now) }
    requires second { IsTrue (is_name second.now) }
    ensures ok { OnOk result (names.new ≡ with_class_name (with_class_name names.old first.now) second.now) }
    ensures first { IfOk result (λ numbers. numbers.0 ≡ number_in names.new.classes first.now) }
    ensures second { IfOk result (λ numbers. numbers.1 ≡ number_in names.new.classes second.now) }
    ensures full { IsErrOf result NameFault.NamesFull
        → IsTrue (not (is_within_limits (with_class_name (with_class_name names.old first.now) second.now))) }
    ensures grew { GrewAtEnd names.old names.new }
    ensures own { GrewAtEnd names.new (with_class_name (with_class_name names.old first.now) second.now) }
{
    let first = names.class(first)?;
    let second = names.class(second)?;
    Ok((first, second))
}

/// The numbers of one to four classes.
pub fn number_classes(names: &mut NameBook, classes: Classes<'_>) -> Result<Tuple, NameFault>
    requires { IsTrue (list_all is_name (texts_of_classes classes)) }
    ensures numbered { IsNumbered names.old (texts_of_classes classes.entry) result names.new }
    ensures grew { GrewAtEnd names.old names.new }
    ensures own { GrewAtEnd names.new (with_classes names.old (texts_of_classes classes.entry)) }
{
    match classes {
        Classes::One(a) => one_class(names, a),
        Classes::Two(a, b) => two_classes(names, a, b),
        Classes::Three(a, b, c) => three_classes(names, a, b, c),
        Classes::Four(a, b, c, d) => four_classes(names, a, b, c, d),
    }
}

// The tuple of one to four classes.
fn tuple_of(classes: &[ClassNo]) -> Tuple
    requires { (0 < length classes.now) × (length classes.now ≤ 4) }
    ensures { result ≡ classes.now }
{
    match Tuple::new(classes) {
        Some(tuple) => tuple,
        None => unreachable!(),
    }
}

// The number of one class.
fn one_class(names: &mut NameBook, a: &[u8]) -> Result<Tuple, NameFault>
    requires { IsTrue (is_name a.now) }
    ensures numbered { IsNumbered names.old (a.now ∷ []) result names.new }
    ensures grew { GrewAtEnd names.old names.new }
    ensures own { GrewAtEnd names.new (with_classes names.old (a.now ∷ [])) }
{
    let a = names.class(a)?;
    Ok(tuple_of(&[a]))
}

// The numbers of two classes.
fn two_classes(names: &mut NameBook, a: &[u8], b: &[u8]) -> Result<Tuple, NameFault>
    requires a { IsTrue (is_name a.now) }
    requires b { IsTrue (is_name b.now) }
    ensures numbered { IsNumbered names.old (a.now ∷ b.now ∷ []) result names.new }
    ensures grew { GrewAtEnd names.old names.new }
    ensures own { GrewAtEnd names.new (with_classes names.old (a.now ∷ b.now ∷ [])) }
{
    let (a, b) = number_two(names, a, b)?;
    Ok(tuple_of(&[a, b]))
}

// The numbers of three classes.
fn three_classes(names: &mut NameBook, a: &[u8], b: &[u8], c: &[u8]) -> Result<Tuple, NameFault>
    requires a { IsTrue (is_name a.now) }
    requires b { IsTrue (is_name b.now) }
    requires c { IsTrue (is_name c.now) }
    ensures numbered { IsNumbered names.old (a.now ∷ b.now ∷ c.now ∷ []) result names.new }
    ensures grew { GrewAtEnd names.old names.new }
    ensures own { GrewAtEnd names.new (with_classes names.old (a.now ∷ b.now ∷ c.now ∷ [])) }
{
    let (a, b) = number_two(names, a, b)?;
    let c = names.class(c)?;
    Ok(tuple_of(&[a, b, c]))
}

// The numbers of four classes.
fn four_classes(
    names: &mut NameBook,
    a: &[u8],
    b: &[u8],
    c: &[u8],
    d: &[u8],
) -> Result<Tuple, NameFault>
    requires a { IsTrue (is_name a.now) }
    requires b { IsTrue (is_name b.now) }
    requires c { IsTrue (is_name c.now) }
    requires d { IsTrue (is_name d.now) }
    ensures numbered { IsNumbered names.old (a.now ∷ b.now ∷ c.now ∷ d.now ∷ []) result names.new }
    ensures grew { GrewAtEnd names.old names.new }
    ensures own { GrewAtEnd names.new (with_classes names.old (a.now ∷ b.now ∷ c.now ∷ d.now ∷ [])) }
{
    let (a, b) = number_two(names, a, b)?;
    let (c, d) = number_two(names, c, d)?;
    Ok(tuple_of(&[a, b, c, d]))
}

/// Numbers the classes that are left of a line, in their order.
#[tactic(auto, using(crate::proofs::Grown::grew_on))]
pub fn number_parents(
    alloc: Global,
    names: &mut NameBook,
    words: Option<&[u8]>,
) -> Result<Vec<ClassNo>, NameFault>
    requires { IsTrue (list_all is_name (words_left (option_copied words))) }
    ensures ok { OnOk result (names.new ≡ with_classes names.old (words_left (option_copied words.entry))) }
    ensures numbers { IfOk result (λ parents. parents.items ≡ numbers_in names.new (words_left (option_copied words.entry))) }
    ensures full { IsErrOf result NameFault.NamesFull
        → IsTrue (not (is_within_limits (with_classes names.old (words_left (option_copied words.entry))))) }
    ensures grew { GrewAtEnd names.old names.new }
    ensures own { GrewAtEnd names.new (with_classes names.old (words_left (option_copied words.entry))) }
{
    let mut parents = Vec::new(alloc);
    let mut left = words;
    while let Some(bytes) = left {
        let (name, rest) = cut_word(bytes);
        let class = names.class(name)?;
        push(&mut parents, class)?;
        left = rest;
    }
    Ok(parents)
}

// Puts a class behind the others.
fn push(classes: &mut Vec<ClassNo>, class: ClassNo) -> Result<(), NameFault>
    ensures ok { OnOk result (classes.new.items ≡ classes.old.items ++ class ∷ []) }
    ensures full { IsErrOf result NameFault.NamesFull → ⊥ }
{
    match classes.push(class) {
        Ok(()) => Ok(()),
        Err(_) => Err(NameFault::NoMemory),
    }
}
