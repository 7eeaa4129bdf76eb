//! Edits, batches and causes in plain words, for tables: a word and its numbers, as in `define 5 20 1 2`, where 5 is
//! the selector, 20 the body, and 1 and 2 are the classes. `None` stands for words that mean nothing, and for want of
//! memory.
use dt_definitions::{Arity, Batch, BodyNo, ClassNo, Edit, Parents, Program, SelNo, Tuple, Why};
use std::alloc::Global;

pub(crate) fn class(number: u16) -> ClassNo {
    ClassNo::new(number).unwrap_or_default()
}

pub(crate) fn selector(number: u16) -> SelNo {
    SelNo::new(number).unwrap_or_default()
}

pub(crate) fn number(word: &str) -> Option<u16> {
    word.parse::<u16>().ok()
}

// The numbers of the words; none where there is no word.
pub(crate) fn numbers(alloc: Global, words: &str) -> Option<Vec<u16>> {
    let mut listed = Vec::new(alloc);
    for word in words.split_whitespace() {
        listed.push(number(word)?).ok()?;
    }
    Some(listed)
}

// The classes of these numbers.
pub(crate) fn classes_of(alloc: Global, numbers: &[u16]) -> Option<Vec<ClassNo>> {
    let mut listed = Vec::new(alloc);
    for number in numbers {
        listed.push(class(*number)).ok()?;
    }
    Some(listed)
}

// The classes of the numbers that the words are.
pub(crate) fn classes(alloc: Global, words: &str) -> Option<Vec<ClassNo>> {
    classes_of(alloc, &numbers(alloc, words)?)
}

pub(crate) fn tuple(alloc: Global, numbers: &[u16]) -> Option<Tuple> {
    Tuple::new(&classes_of(alloc, numbers)?)
}

pub(crate) fn parents(alloc: Global, numbers: &[u16]) -> Option<Parents> {
    Parents::new(alloc, &classes_of(alloc, numbers)?).ok()
}

fn arity(number: u16) -> Option<Arity> {
    Arity::new(u8::try_from(number).ok()?)
}

fn add_class(alloc: Global, numbers: &[u16]) -> Option<Edit> {
    let [number, rest @ ..] = numbers else {
        return None;
    };
    let class = class(*number);
    let parents = parents(alloc, rest)?;
    Some(Edit::AddClass { class, parents })
}

fn drop_class(numbers: &[u16]) -> Option<Edit> {
    let [number] = numbers else {
        return None;
    };
    let class = class(*number);
    Some(Edit::DropClass { class })
}

fn link(numbers: &[u16]) -> Option<Edit> {
    let [low, high] = numbers else {
        return None;
    };
    let (class, parent) = (class(*low), class(*high));
    Some(Edit::Link { class, parent })
}

fn unlink(numbers: &[u16]) -> Option<Edit> {
    let [low, high] = numbers else {
        return None;
    };
    let (class, parent) = (class(*low), class(*high));
    Some(Edit::Unlink { class, parent })
}

fn add_selector(numbers: &[u16]) -> Option<Edit> {
    let [name, count] = numbers else {
        return None;
    };
    let selector = selector(*name);
    let arity = arity(*count)?;
    Some(Edit::AddSelector { selector, arity })
}

fn drop_selector(numbers: &[u16]) -> Option<Edit> {
    let [name] = numbers else {
        return None;
    };
    let selector = selector(*name);
    Some(Edit::DropSelector { selector })
}

fn define(alloc: Global, numbers: &[u16]) -> Option<Edit> {
    let [name, number, rest @ ..] = numbers else {
        return None;
    };
    let selector = selector(*name);
    let body = BodyNo::new(*number);
    let classes = tuple(alloc, rest)?;
    Some(Edit::Define {
        selector,
        classes,
        body,
    })
}

fn undefine(alloc: Global, numbers: &[u16]) -> Option<Edit> {
    let [name, rest @ ..] = numbers else {
        return None;
    };
    let selector = selector(*name);
    let classes = tuple(alloc, rest)?;
    Some(Edit::Undefine { selector, classes })
}

fn edit_of(alloc: Global, word: &str, numbers: &[u16]) -> Option<Edit> {
    match word {
        "class" => add_class(alloc, numbers),
        "drop" => drop_class(numbers),
        "link" => link(numbers),
        "unlink" => unlink(numbers),
        "selector" => add_selector(numbers),
        "forget" => drop_selector(numbers),
        "define" => define(alloc, numbers),
        "undefine" => undefine(alloc, numbers),
        _ => None,
    }
}

// The edit of these words.
pub(crate) fn edit(alloc: Global, words: &str) -> Option<Edit> {
    let (word, rest) = words.split_once(' ').unwrap_or((words, ""));
    let numbers = numbers(alloc, rest)?;
    edit_of(alloc, word, &numbers)
}

// Whether the edit is accepted.
pub(crate) fn is_applied(program: &mut Program, edit: &Edit) -> bool {
    program.apply(edit).is_ok()
}

fn push(batch: &mut Batch, edit: Edit) -> Option<()> {
    if batch.len() >= 1000 {
        return None;
    }
    batch.push(edit).ok()
}

// The batch of the edits, which are parted by `; `.
pub(crate) fn batch(alloc: Global, words: &str) -> Option<Batch> {
    let mut batch = Batch::new(alloc);
    for words in words.split("; ") {
        push(&mut batch, edit(alloc, words)?)?;
    }
    Some(batch)
}

// The cause of this name, with the class of the number behind the name.
pub(crate) fn cause(words: &str) -> Option<Why> {
    let (name, rest) = words.split_once(' ').unwrap_or((words, "0"));
    let class = class(number(rest)?);
    Some(match name {
        "class-exists" => Why::ClassExists,
        "class-unknown" => Why::ClassUnknown { class },
        "parent-twice" => Why::ParentTwice { class },
        "too-many-parents" => Why::TooManyParents,
        "has-subclasses" => Why::HasSubclasses { class },
        "link-exists" => Why::LinkExists,
        "link-unknown" => Why::LinkUnknown,
        "cycle" => Why::Cycle,
        "selector-exists" => Why::SelectorExists,
        "selector-unknown" => Why::SelectorUnknown,
        "arity-differs" => Why::ArityDiffers,
        "no-definition" => Why::NoDefinition,
        "has-definitions" => Why::HasDefinitions,
        "definitions-full" => Why::DefinitionsFull,
        _ => return None,
    })
}
