ghost use Rattle.std.specs.Prelude.{◌≡◌, ◌<◌, ◌++◌, ◌∷◌, [], OnOk, flat_map, decimal, length};
ghost use Rattle.dt_script.specs.Word.{Class};
ghost use Rattle.dt_script.specs.GeneratedText.{generated_word, ended};

use crate::line::Line;
use crate::writing::{push, push_number};
use dt_definitions::{ClassNo, NoMemory};
use itoa::Buffer;

// Puts a letter with a number behind a space at the end of the text.
fn push_name(text: &mut Vec<u8>, letter: u8, number: u16) -> Result<(), NoMemory>
    ensures { OnOk result (text.new.items ≡ text.old.items ++ 32 ∷ letter ∷ decimal number) }
{
    let mut buffer = Buffer::new();
    text.push(b' ')?;
    text.push(letter)?;
    text.extend_from_slice(buffer.format(number).as_bytes())?;
    Ok(())
}

// Puts the names of classes, each behind a space, at the end of the text.
fn push_tuple(text: &mut Vec<u8>, classes: &[ClassNo]) -> Result<(), NoMemory>
    ensures { OnOk result (text.new.items ≡ text.old.items ++ flat_map (λ class. 32 ∷ generated_word (Class class)) classes.now) }
{
    for class in classes {
        push_name(text, b'c', class.number())?;
    }
    Ok(())
}

// Puts a word, the name of a selector and those of classes at the end of the text.
fn push_keyed(
    text: &mut Vec<u8>,
    word: &[u8],
    selector: u16,
    classes: &[ClassNo],
) -> Result<(), NoMemory>
    ensures { OnOk result (text.new.items ≡ text.old.items
        ++ (word.now ++ 32 ∷ 115 ∷ decimal selector ++ flat_map (λ class. 32 ∷ generated_word (Class class)) classes.now)) }
{
    push(text, word)?;
    push_name(text, b's', selector)?;
    push_tuple(text, classes)
}

/// Puts the line of the first class at the end of the text.
pub fn push_first_class(text: &mut Vec<u8>) -> Result<(), NoMemory>
    ensures { OnOk result (text.new.items ≡ text.old.items ++ ended (Line.AddClass 0 [])) }
{
    push(text, b"class c0\n")
}

/// Puts the line of a class with these parents at the end of the text.
pub fn push_class(text: &mut Vec<u8>, class: u16, parents: &[ClassNo]) -> Result<(), NoMemory>
    requires { 0 < length parents.now }
    ensures { OnOk result (text.new.items ≡ text.old.items ++ ended (Line.AddClass class parents.now)) }
{
    push(text, b"class")?;
    push_name(text, b'c', class)?;
    push(text, b" <")?;
    push_tuple(text, parents)?;
    push(text, b"\n")
}

/// Puts the line of a selector at the end of the text.
pub fn push_selector(text: &mut Vec<u8>, selector: u16, arity: u16) -> Result<(), NoMemory>
    ensures { OnOk result (text.new.items ≡ text.old.items ++ ended (Line.AddSelector selector arity)) }
{
    push(text, b"selector")?;
    push_name(text, b's', selector)?;
    push_number(text, arity)?;
    push(text, b"\n")
}

/// Puts the line of a definition at the end of the text.
pub fn push_define(
    text: &mut Vec<u8>,
    selector: u16,
    classes: &[ClassNo],
    body: u16,
) -> Result<(), NoMemory>
    ensures { OnOk result (text.new.items ≡ text.old.items ++ ended (Line.Define selector classes.now body)) }
{
    push_keyed(text, b"define", selector, classes)?;
    push(text, b" ->")?;
    push_name(text, b'b', body)?;
    push(text, b"\n")
}

/// Puts the line of a definition that goes at the end of the text.
pub fn push_undefine(text: &mut Vec<u8>, selector: u16, classes: &[ClassNo]) -> Result<(), NoMemory>
    ensures { OnOk result (text.new.items ≡ text.old.items ++ ended (Line.Undefine selector classes.now)) }
{
    push_keyed(text, b"undefine", selector, classes)?;
    push(text, b"\n")
}

/// Puts the line of a call at the end of the text.
pub fn push_call(text: &mut Vec<u8>, selector: u16, classes: &[ClassNo]) -> Result<(), NoMemory>
    ensures { OnOk result (text.new.items ≡ text.old.items
        ++ ended (Line.Call (record { selector = selector; classes = classes.now }))) }
{
    push_keyed(text, b"call", selector, classes)?;
    push(text, b"\n")
}

// Puts a word and the names of two classes at the end of the text.
fn push_two(text: &mut Vec<u8>, word: &[u8], class: u16, parent: u16) -> Result<(), NoMemory>
    ensures { OnOk result (text.new.items ≡ text.old.items
        ++ (word.now ++ 32 ∷ 99 ∷ decimal class ++ 32 ∷ 60 ∷ 32 ∷ 99 ∷ decimal parent ++ 10 ∷ [])) }
{
    push(text, word)?;
    push_name(text, b'c', class)?;
    push(text, b" <")?;
    push_name(text, b'c', parent)?;
    push(text, b"\n")
}

/// Puts the line of a new link at the end of the text.
pub fn push_link(text: &mut Vec<u8>, class: u16, parent: u16) -> Result<(), NoMemory>
    ensures { OnOk result (text.new.items ≡ text.old.items ++ ended (Line.Link class parent)) }
{
    push_two(text, b"link", class, parent)
}

/// Puts the line of a link that goes at the end of the text.
pub fn push_unlink(text: &mut Vec<u8>, class: u16, parent: u16) -> Result<(), NoMemory>
    ensures { OnOk result (text.new.items ≡ text.old.items ++ ended (Line.Unlink class parent)) }
{
    push_two(text, b"unlink", class, parent)
}

/// Puts the line of a caller at the end of the text.
pub fn push_caller(text: &mut Vec<u8>, caller: u16) -> Result<(), NoMemory>
    ensures { OnOk result (text.new.items ≡ text.old.items ++ ended (Line.Caller caller)) }
{
    push(text, b"caller")?;
    push_number(text, caller)?;
    push(text, b"\n")
}
