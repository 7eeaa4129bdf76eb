ghost use Rattle.std.specs.Prelude.{◌≡◌, ◌++◌, ◌∷◌, [], ℕ, List, OnOk, OnErr, map, flat_map, decimal, codes};
ghost use Rattle.dt_script.specs.Word.{Class, Selector, Body};
ghost use Rattle.dt_script.specs.Writing.{IsNamed, IsSpelling, word_text, line_text};

use crate::line::Line;
use crate::name_book::NameBook;
use dt_definitions::{Arity, BodyNo, ClassNo, NoMemory, SelNo};
use itoa::Buffer;

/// Puts the one spelling of the line at the end of the text, without a line feed. Each number of the line has a name. Of a
/// caller whose number isn't from 1 to 256 [`read_line`](crate::read_line) reads no line. It takes memory: the line's own
/// text first, so that no part of a line is ever put.
///
/// # Errors
///
/// [`NoMemory`] where no memory was found; the text is as it was.
pub fn write_line(line: &Line, names: &NameBook, out: &mut Vec<u8>) -> Result<(), NoMemory>
    requires { IsNamed names.now line.now }
    ensures ok { OnOk result ((text : List ℕ) × IsSpelling names.now line.now text × (out.new.items ≡ out.old.items ++ text)) }
    ensures err { OnErr result (out.new.items ≡ out.old.items) }
{
    let mut text = Vec::new(*out.allocator());
    push_line(&mut text, names, line)?;
    out.extend_from_slice(&text)?;
    Ok(())
}

// Puts the words of the line at the end of the text, with one space between two.
fn push_line(text: &mut Vec<u8>, names: &NameBook, line: &Line) -> Result<(), NoMemory>
    ensures { OnOk result (text.new.items ≡ text.old.items ++ line_text names.now line.now) }
{
    match line {
        Line::Header => push(text, b"dispatch 1"),
        Line::AddClass { class, parents } => push_new(text, names, *class, parents.classes()),
        Line::DropClass { class } => push_drop(text, names, *class),
        Line::Link { class, parent } => push_link(text, names, *class, *parent),
        Line::Unlink { class, parent } => push_unlink(text, names, *class, *parent),
        Line::AddSelector { selector, arity } => push_arity(text, names, *selector, *arity),
        Line::DropSelector { selector } => push_forget(text, names, *selector),
        Line::Define {
            selector,
            classes,
            body,
        } => push_define(text, names, *selector, classes.classes(), *body),
        Line::Undefine { selector, classes } => {
            push_undefine(text, names, *selector, classes.classes())
        }
        Line::Caller { caller } => push_caller(text, *caller),
        Line::Call { query } => push_call(text, names, query.selector(), query.classes()),
        Line::Begin => push(text, b"begin"),
        Line::Commit => push(text, b"commit"),
        Line::Phase => push(text, b"phase"),
        Line::Pin => push(text, b"pin"),
        Line::Unpin => push(text, b"unpin"),
        Line::End => push(text, b"end"),
    }
}

// Puts bytes at the end of the text.
pub(crate) fn push(text: &mut Vec<u8>, bytes: &[u8]) -> Result<(), NoMemory>
    ensures { OnOk result (text.new.items ≡ text.old.items ++ bytes.now) }
{
    text.extend_from_slice(bytes)?;
    Ok(())
}

// Puts a word behind a space at the end of the text.
fn push_word(text: &mut Vec<u8>, word: &[u8]) -> Result<(), NoMemory>
    ensures { OnOk result (text.new.items ≡ text.old.items ++ 32 ∷ word.now) }
{
    text.push(b' ')?;
    text.extend_from_slice(word)?;
    Ok(())
}

// Puts a number behind a space at the end of the text.
pub(crate) fn push_number(text: &mut Vec<u8>, number: u16) -> Result<(), NoMemory>
    ensures { OnOk result (text.new.items ≡ text.old.items ++ 32 ∷ decimal number) }
{
    let mut buffer = Buffer::new();
    push_word(text, buffer.format(number).as_bytes())
}

// Puts the name of a class behind a space at the end of the text.
fn push_class(text: &mut Vec<u8>, names: &NameBook, class: ClassNo) -> Result<(), NoMemory>
    ensures { OnOk result (text.new.items ≡ text.old.items ++ 32 ∷ word_text names.now (Class class)) }
{
    push_word(text, names.class_name(class).unwrap_or(b""))
}

// Puts the name of a selector behind a space at the end of the text.
fn push_selector(text: &mut Vec<u8>, names: &NameBook, selector: SelNo) -> Result<(), NoMemory>
    ensures { OnOk result (text.new.items ≡ text.old.items ++ 32 ∷ word_text names.now (Selector selector)) }
{
    push_word(text, names.selector_name(selector).unwrap_or(b""))
}

// Puts the name of a body behind a space at the end of the text.
fn push_body(text: &mut Vec<u8>, names: &NameBook, body: BodyNo) -> Result<(), NoMemory>
    ensures { OnOk result (text.new.items ≡ text.old.items ++ 32 ∷ word_text names.now (Body body)) }
{
    push_word(text, names.body_name(body).unwrap_or(b""))
}

// Puts the names of classes, each behind a space, at the end of the text.
fn push_classes(text: &mut Vec<u8>, names: &NameBook, classes: &[ClassNo]) -> Result<(), NoMemory>
    ensures { OnOk result (text.new.items ≡ text.old.items ++ flat_map (λ class. 32 ∷ word_text names.now (Class class)) classes.now) }
{
    for class in classes {
        push_class(text, names, *class)?;
    }
    Ok(())
}

// Puts the line of a new class.
fn push_new(
    text: &mut Vec<u8>,
    names: &NameBook,
    class: ClassNo,
    parents: &[ClassNo],
) -> Result<(), NoMemory>
    ensures { OnOk result (text.new.items ≡ text.old.items ++ line_text names.now (Line.AddClass class parents.now)) }
{
    push(text, b"class")?;
    push_class(text, names, class)?;
    if parents.is_empty() {
        return Ok(());
    }
    push_word(text, b"<")?;
    push_classes(text, names, parents)
}

// Puts the line of a class that goes.
fn push_drop(text: &mut Vec<u8>, names: &NameBook, class: ClassNo) -> Result<(), NoMemory>
    ensures { OnOk result (text.new.items ≡ text.old.items ++ line_text names.now (Line.DropClass class)) }
{
    push(text, b"drop")?;
    push_class(text, names, class)
}

// Puts the name of a class and of one above it, with the word before them and the sign between them.
fn push_two(
    text: &mut Vec<u8>,
    names: &NameBook,
    word: &[u8],
    class: ClassNo,
    parent: ClassNo,
) -> Result<(), NoMemory>
    ensures { OnOk result (text.new.items ≡ text.old.items ++ word.now ++ 32 ∷ word_text names.now (Class class)
        ++ 32 ∷ 60 ∷ 32 ∷ word_text names.now (Class parent)) }
{
    push(text, word)?;
    push_class(text, names, class)?;
    push_word(text, b"<")?;
    push_class(text, names, parent)
}

// Puts the line of a new link.
fn push_link(
    text: &mut Vec<u8>,
    names: &NameBook,
    class: ClassNo,
    parent: ClassNo,
) -> Result<(), NoMemory>
    ensures { OnOk result (text.new.items ≡ text.old.items ++ line_text names.now (Line.Link class parent)) }
{
    push_two(text, names, b"link", class, parent)
}

// Puts the line of a link that goes.
fn push_unlink(
    text: &mut Vec<u8>,
    names: &NameBook,
    class: ClassNo,
    parent: ClassNo,
) -> Result<(), NoMemory>
    ensures { OnOk result (text.new.items ≡ text.old.items ++ line_text names.now (Line.Unlink class parent)) }
{
    push_two(text, names, b"unlink", class, parent)
}

// Puts the line of a new selector.
fn push_arity(
    text: &mut Vec<u8>,
    names: &NameBook,
    selector: SelNo,
    arity: Arity,
) -> Result<(), NoMemory>
    ensures { OnOk result (text.new.items ≡ text.old.items ++ line_text names.now (Line.AddSelector selector arity)) }
{
    push(text, b"selector")?;
    push_selector(text, names, selector)?;
    push_number(text, u16::from(arity.number()))
}

// Puts the line of a selector that goes.
fn push_forget(text: &mut Vec<u8>, names: &NameBook, selector: SelNo) -> Result<(), NoMemory>
    ensures { OnOk result (text.new.items ≡ text.old.items ++ line_text names.now (Line.DropSelector selector)) }
{
    push(text, b"forget")?;
    push_selector(text, names, selector)
}

// Puts the line of a definition.
fn push_define(
    text: &mut Vec<u8>,
    names: &NameBook,
    selector: SelNo,
    classes: &[ClassNo],
    body: BodyNo,
) -> Result<(), NoMemory>
    ensures { OnOk result (text.new.items ≡ text.old.items ++ line_text names.now (Line.Define selector classes.now body)) }
{
    push(text, b"define")?;
    push_selector(text, names, selector)?;
    push_classes(text, names, classes)?;
    push_word(text, b"->")?;
    push_body(text, names, body)
}

// Puts the line of a definition that goes.
fn push_undefine(
    text: &mut Vec<u8>,
    names: &NameBook,
    selector: SelNo,
    classes: &[ClassNo],
) -> Result<(), NoMemory>
    ensures { OnOk result (text.new.items ≡ text.old.items ++ line_text names.now (Line.Undefine selector classes.now)) }
{
    push(text, b"undefine")?;
    push_selector(text, names, selector)?;
    push_classes(text, names, classes)
}

// Puts the line of a caller.
fn push_caller(text: &mut Vec<u8>, caller: u16) -> Result<(), NoMemory>
    ensures { OnOk result (text.new.items ≡ text.old.items ++ (codes "caller" ++ 32 ∷ decimal caller)) }
{
    push(text, b"caller")?;
    push_number(text, caller)
}

// Puts the line of a call.
fn push_call(
    text: &mut Vec<u8>,
    names: &NameBook,
    selector: u16,
    classes: &[u16],
) -> Result<(), NoMemory>
    ensures { OnOk result (text.new.items ≡ text.old.items ++ line_text names.now (Line.Call (record { selector = selector; classes = classes.now }))) }
{
    push(text, b"call")?;
    push_called(text, names, selector)?;
    push_numbered(text, names, classes)
}

// Puts the name of the selector of this number behind a space at the end of the text.
fn push_called(text: &mut Vec<u8>, names: &NameBook, selector: u16) -> Result<(), NoMemory>
    ensures { OnOk result (text.new.items ≡ text.old.items ++ 32 ∷ word_text names.now (Selector selector)) }
{
    push_word(text, names.selector_text(selector).unwrap_or(b""))
}

// Puts the names of the classes of these numbers, each behind a space, at the end of the text.
fn push_numbered(text: &mut Vec<u8>, names: &NameBook, classes: &[u16]) -> Result<(), NoMemory>
    ensures { OnOk result (text.new.items ≡ text.old.items ++ flat_map (λ class. 32 ∷ word_text names.now (Class class)) classes.now) }
{
    for class in classes {
        push_word(text, names.class_text(*class).unwrap_or(b""))?;
    }
    Ok(())
}
