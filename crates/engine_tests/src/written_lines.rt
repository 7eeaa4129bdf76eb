//! Lines that are read, and written again as they were.
ghost use Rattle.std.specs.Prelude.{IfSome};
ghost use Rattle.dt_script.specs.Writing.{IsNamed};

use dt_script::{Line, LineFault, NameBook, read_line, write_line};
use std::alloc::Global;
use std::test::Fail;

// A comment, and each kind of line; names may be spelled as the signs of the language.
const TEXT: &str = "# each kind of line
dispatch 1
class <
class > < <
class -> < < >
drop >
link > < ->
unlink -> < >
selector at:put: 1
forget at:put:
define at:put: < -> ->
define < -> < > -> -> at:put:
undefine at:put: < > <
begin
commit
phase
caller 256
call at:put: >
call < > -> < <
pin
unpin
end";

// The line that is spelled so.
fn line_of(alloc: Global, text: &str, names: &mut NameBook) -> Option<Line>
    ensures { IfSome result (λ line. IsNamed names.new line) }
{
    match read_line(alloc, text.as_bytes(), names) {
        Ok(meant) => meant,
        Err(_) => None,
    }
}

fn means_nothing(alloc: Global, text: &str, names: &mut NameBook) -> bool {
    match read_line(alloc, text.as_bytes(), names) {
        Ok(meant) => meant.is_none(),
        Err(_) => false,
    }
}

fn is_malformed(alloc: Global, text: &str, names: &mut NameBook) -> bool {
    match read_line(alloc, text.as_bytes(), names) {
        Ok(_) => false,
        Err(fault) => fault == LineFault::Malformed,
    }
}

// Puts the line that is spelled so behind a line feed at the end of the text.
fn put(alloc: Global, line: &str, names: &mut NameBook, out: &mut Vec<u8>) -> Option<()> {
    let line = line_of(alloc, line, names)?;
    out.push(b'\n').ok()?;
    write_line(&line, names, out).ok()
}

// Puts each of the lines.
fn put_each(alloc: Global, lines: &str, names: &mut NameBook, out: &mut Vec<u8>) -> Option<()> {
    for line in lines.split('\n') {
        put(alloc, line, names, out)?;
    }
    Some(())
}

// Puts the comment as it stands, which means nothing, and the lines behind it.
fn put_all(alloc: Global, names: &mut NameBook, out: &mut Vec<u8>) -> Option<()> {
    let (comment, lines) = TEXT.split_once('\n')?;
    if !means_nothing(alloc, comment, names) {
        return None;
    }
    out.extend_from_slice(comment.as_bytes()).ok()?;
    put_each(alloc, lines, names, out)
}

fn are_written_again(alloc: Global, names: &mut NameBook) -> bool {
    let mut out = Vec::new(alloc);
    put_all(alloc, names, &mut out).is_some() && out.as_slice() == TEXT.as_bytes()
}

fn lines_hold(alloc: Global) -> Option<bool> {
    let mut names = NameBook::new(alloc).ok()?;
    Some(
        are_written_again(alloc, &mut names)
            && means_nothing(alloc, "", &mut names)
            && is_malformed(alloc, "clas B", &mut names)
            && is_malformed(alloc, "class  B", &mut names),
    )
}

#[test]
fn lines_are_written_as_they_were_read(rt: HostRuntime) -> Result<(), Fail> {
    assert!(rt; lines_hold(rt.alloc()) == Some(true));
    Ok(())
}
