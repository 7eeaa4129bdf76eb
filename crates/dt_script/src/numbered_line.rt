ghost use Rattle.std.specs.Prelude.{◌≡◌, IsTrue};
ghost use Rattle.std.specs.List.{list_all};
ghost use Rattle.dt_selectors.specs.Names.{is_name};
ghost use Rattle.dt_script.specs.Cut.{parts_at};
ghost use Rattle.dt_script.specs.Growth.{GrewAtEnd};
ghost use Rattle.dt_script.specs.NameBook.{is_within_limits};
ghost use Rattle.dt_script.specs.Written.{texts_of, texts_of_classes, tokens_of, with_tokens};
ghost use Rattle.dt_script.specs.NumberedLine.{IsLineNumbered};
ghost use Rattle.dt_script.specs.declared.written.Written.TheVariants as written;

use crate::line::Line;
use crate::name_book::NameBook;
use crate::numbering::{number_classes, number_parents, number_two};
use crate::written::{Classes, Written};
use dt_definitions::{Arity, Parents, SelNo, Tuple};
use dt_scratch::Query;
use dt_selectors::NameFault;
use std::alloc::Global;

/// The line with the numbers of its names. New names are numbered from left to right.
pub fn number_line(
    alloc: Global,
    names: &mut NameBook,
    line: &Written<'_>,
) -> Result<Line, NameFault>
    requires { IsTrue (list_all is_name (texts_of line.now)) }
    ensures numbered { IsLineNumbered names.old line.now result names.new }
    ensures grew { GrewAtEnd names.old names.new }
    ensures own { GrewAtEnd names.new (with_tokens names.old (tokens_of line.now)) }
    ensures fits { IsTrue (is_within_limits names.new) }
{
    let numbered = line_by_kind(alloc, names, line);
    names.law();
    numbered
}

// The line of each kind with the numbers of its names.
fn line_by_kind(alloc: Global, names: &mut NameBook, line: &Written<'_>) -> Result<Line, NameFault>
    requires { IsTrue (list_all is_name (texts_of line.now)) }
    ensures numbered { IsLineNumbered names.old line.now result names.new }
    ensures grew { GrewAtEnd names.old names.new }
    ensures own { GrewAtEnd names.new (with_tokens names.old (tokens_of line.now)) }
{
    match line {
        Written::Header => Ok(Line::Header),
        Written::AddClass { class } => class_line(alloc, names, class),
        Written::AddSubclass { class, parents } => subclass_line(alloc, names, class, parents),
        Written::DropClass { class } => drop_line(names, class),
        Written::Link { class, parent } => link_line(names, class, parent),
        Written::Unlink { class, parent } => unlink_line(names, class, parent),
        Written::AddSelector { selector, arity } => selector_line(names, selector, *arity),
        Written::DropSelector { selector } => forget_line(names, selector),
        Written::Define {
            selector,
            classes,
            body,
        } => define_line(names, selector, *classes, body),
        Written::Undefine { selector, classes } => undefine_line(names, selector, *classes),
        Written::Begin => Ok(Line::Begin),
        Written::Commit => Ok(Line::Commit),
        Written::Phase => Ok(Line::Phase),
        Written::Caller { caller } => Ok(Line::Caller { caller: *caller }),
        Written::Call { selector, classes } => call_line(names, selector, *classes),
        Written::Pin => Ok(Line::Pin),
        Written::Unpin => Ok(Line::Unpin),
        Written::End => Ok(Line::End),
    }
}

// The line of a class that goes.
fn drop_line(names: &mut NameBook, class: &[u8]) -> Result<Line, NameFault>
    requires { IsTrue (is_name class.now) }
    ensures numbered { IsLineNumbered names.old (written.DropClass class.entry) result names.new }
    ensures grew { GrewAtEnd names.old names.new }
    ensures own { GrewAtEnd names.new (with_tokens names.old (tokens_of (written.DropClass class.entry))) }
{
    let class = names.class(class)?;
    Ok(Line::DropClass { class })
}

// The line of a new link.
fn link_line(names: &mut NameBook, class: &[u8], parent: &[u8]) -> Result<Line, NameFault>
    requires class { IsTrue (is_name class.now) }
    requires parent { IsTrue (is_name parent.now) }
    ensures numbered { IsLineNumbered names.old (written.Link class.entry parent.entry) result names.new }
    ensures grew { GrewAtEnd names.old names.new }
    ensures own { GrewAtEnd names.new (with_tokens names.old (tokens_of (written.Link class.entry parent.entry))) }
{
    let (class, parent) = number_two(names, class, parent)?;
    Ok(Line::Link { class, parent })
}

// The line of a link that goes.
fn unlink_line(names: &mut NameBook, class: &[u8], parent: &[u8]) -> Result<Line, NameFault>
    requires class { IsTrue (is_name class.now) }
    requires parent { IsTrue (is_name parent.now) }
    ensures numbered { IsLineNumbered names.old (written.Unlink class.entry parent.entry) result names.new }
    ensures grew { GrewAtEnd names.old names.new }
    ensures own { GrewAtEnd names.new (with_tokens names.old (tokens_of (written.Unlink class.entry parent.entry))) }
{
    let (class, parent) = number_two(names, class, parent)?;
    Ok(Line::Unlink { class, parent })
}

// The line of a new selector.
fn selector_line(names: &mut NameBook, selector: &[u8], arity: Arity) -> Result<Line, NameFault>
    requires { IsTrue (is_name selector.now) }
    ensures numbered { IsLineNumbered names.old (written.AddSelector selector.entry arity) result names.new }
    ensures grew { GrewAtEnd names.old names.new }
    ensures own { GrewAtEnd names.new (with_tokens names.old (tokens_of (written.AddSelector selector.entry arity))) }
{
    let selector = names.selector(selector)?;
    Ok(Line::AddSelector { selector, arity })
}

// The line of a selector that goes.
fn forget_line(names: &mut NameBook, selector: &[u8]) -> Result<Line, NameFault>
    requires { IsTrue (is_name selector.now) }
    ensures numbered { IsLineNumbered names.old (written.DropSelector selector.entry) result names.new }
    ensures grew { GrewAtEnd names.old names.new }
    ensures own { GrewAtEnd names.new (with_tokens names.old (tokens_of (written.DropSelector selector.entry))) }
{
    let selector = names.selector(selector)?;
    Ok(Line::DropSelector { selector })
}

// The line of a definition that goes.
fn undefine_line(
    names: &mut NameBook,
    selector: &[u8],
    classes: Classes<'_>,
) -> Result<Line, NameFault>
    requires selector { IsTrue (is_name selector.now) }
    requires classes { IsTrue (list_all is_name (texts_of_classes classes)) }
    ensures numbered { IsLineNumbered names.old (written.Undefine selector.entry classes.entry) result names.new }
    ensures grew { GrewAtEnd names.old names.new }
    ensures own { GrewAtEnd names.new (with_tokens names.old (tokens_of (written.Undefine selector.entry classes.entry))) }
{
    let selector = names.selector(selector)?;
    let classes = number_classes(names, classes)?;
    Ok(Line::Undefine { selector, classes })
}

// The line of a call.
fn call_line(names: &mut NameBook, selector: &[u8], classes: Classes<'_>) -> Result<Line, NameFault>
    requires selector { IsTrue (is_name selector.now) }
    requires classes { IsTrue (list_all is_name (texts_of_classes classes)) }
    ensures numbered { IsLineNumbered names.old (written.Call selector.entry classes.entry) result names.new }
    ensures grew { GrewAtEnd names.old names.new }
    ensures own { GrewAtEnd names.new (with_tokens names.old (tokens_of (written.Call selector.entry classes.entry))) }
{
    let selector = names.selector(selector)?;
    let classes = number_classes(names, classes)?;
    let query = query_of(selector, &classes);
    Ok(Line::Call { query })
}

// The query of the selector at the classes.
fn query_of(selector: SelNo, classes: &Tuple) -> Query
    ensures { result ≡ record { selector = selector; classes = classes.now } }
{
    let query = match *classes.classes() {
        [a] => Query::new(selector.number(), &[a.number()]),
        [a, b] => Query::new(selector.number(), &[a.number(), b.number()]),
        [a, b, c] => Query::new(selector.number(), &[a.number(), b.number(), c.number()]),
        [a, b, c, d] => Query::new(
            selector.number(),
            &[a.number(), b.number(), c.number(), d.number()],
        ),
        _ => None,
    };
    match query {
        Some(query) => query,
        None => unreachable!(),
    }
}

// The line of a definition.
fn define_line(
    names: &mut NameBook,
    selector: &[u8],
    classes: Classes<'_>,
    body: &[u8],
) -> Result<Line, NameFault>
    requires selector { IsTrue (is_name selector.now) }
    requires classes { IsTrue (list_all is_name (texts_of_classes classes)) }
    requires body { IsTrue (is_name body.now) }
    ensures numbered { IsLineNumbered names.old (written.Define selector.entry classes.entry body.entry) result names.new }
    ensures grew { GrewAtEnd names.old names.new }
    ensures own { GrewAtEnd names.new (with_tokens names.old (tokens_of (written.Define selector.entry classes.entry body.entry))) }
{
    let selector = names.selector(selector)?;
    let classes = number_classes(names, classes)?;
    let body = names.body(body)?;
    Ok(Line::Define {
        selector,
        classes,
        body,
    })
}

// The line of a new class without parents.
fn class_line(alloc: Global, names: &mut NameBook, class: &[u8]) -> Result<Line, NameFault>
    requires { IsTrue (is_name class.now) }
    ensures numbered { IsLineNumbered names.old (written.AddClass class.entry) result names.new }
    ensures grew { GrewAtEnd names.old names.new }
    ensures own { GrewAtEnd names.new (with_tokens names.old (tokens_of (written.AddClass class.entry))) }
{
    let class = names.class(class)?;
    match Parents::new(alloc, &[]) {
        Ok(parents) => Ok(Line::AddClass { class, parents }),
        Err(_) => Err(NameFault::NoMemory),
    }
}

// The line of a new class with parents.
fn subclass_line(
    alloc: Global,
    names: &mut NameBook,
    class: &[u8],
    parents: &[u8],
) -> Result<Line, NameFault>
    requires class { IsTrue (is_name class.now) }
    requires parents { IsTrue (list_all is_name (parts_at 32 parents.now)) }
    ensures numbered { IsLineNumbered names.old (written.AddSubclass class.entry parents.entry) result names.new }
    ensures grew { GrewAtEnd names.old names.new }
    ensures own { GrewAtEnd names.new (with_tokens names.old (tokens_of (written.AddSubclass class.entry parents.entry))) }
{
    let class = names.class(class)?;
    let parents = number_parents(alloc, names, Some(parents))?;
    match Parents::new(alloc, &parents) {
        Ok(parents) => Ok(Line::AddClass { class, parents }),
        Err(_) => Err(NameFault::NoMemory),
    }
}
