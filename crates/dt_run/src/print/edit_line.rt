ghost use Rattle.std.specs.Prelude.{◌≡◌, ◌∷◌, ◌++◌, [], codes, map};
ghost use Rattle.dt_script.specs.Word.{Class};
ghost use Rattle.dt_script.specs.Writing.{word_text};
ghost use Rattle.dt_run.specs.LogWord.{text_of_keyword};
ghost use Rattle.dt_run.specs.Text.{words_of_edit_line, words_of_why};
ghost use Rattle.dt_run.specs.Putting.{Puts, spaced, line_of, line_text};

use crate::log::EditLine;
use crate::print::put_buffer::PutBuffer;
use crate::print::words::{Keyword, LogWord, put_head, put_last, put_line, put_spaced};
use dt_definitions::{ClassNo, Why};
use dt_outside::{Failed, Sink};
use dt_script::NameBook;

// The name of the class, and no byte where it has none.
fn name_of_class(names: &NameBook, class: ClassNo) -> &[u8]
    ensures { result.now ≡ word_text names.now (Class class) }
{
    names.class_name(class).unwrap_or(b"")
}

// Puts a text and the name of a class as the last words of a line.
fn put_class<K: Sink>(
    out: &mut PutBuffer,
    sink: &mut K,
    names: &NameBook,
    word: &[u8],
    class: ClassNo,
) -> Result<(), Failed>
    ensures { Puts K.taken K.faults result sink.old out.old sink.new out.new (32 ∷ (word.now ++ (32 ∷ (word_text names.now (Class class) ++ 10 ∷ [])))) }
{
    put_spaced(out, sink, word)?;
    put_last(out, sink, name_of_class(names, class))
}

// Puts the word of a refusal, and the name of the class that it is about, as the last words of a line.
fn put_why<K: Sink>(
    out: &mut PutBuffer,
    sink: &mut K,
    names: &NameBook,
    why: &Why,
) -> Result<(), Failed>
    ensures { Puts K.taken K.faults result sink.old out.old sink.new out.new (spaced (map (word_text names.now) (words_of_why why.now)) ++ 10 ∷ []) }
{
    match why.class() {
        Some(class) => put_class(out, sink, names, why.word().as_bytes(), class),
        None => put_last(out, sink, why.word().as_bytes()),
    }
}

// Puts the line of a batch whose edit in this place was refused.
fn put_refused<K: Sink>(
    out: &mut PutBuffer,
    sink: &mut K,
    names: &NameBook,
    at: u32,
    why: Why,
) -> Result<(), Failed>
    ensures { Puts K.taken K.faults result sink.old out.old sink.new out.new (line_text names.now (words_of_edit_line (EditLine.Refused at why))) }
{
    let at = LogWord::Number(u64::from(at));
    let number = LogWord::Number(u64::from(why.number()));
    put_head(
        out,
        sink,
        b"edit",
        &[LogWord::Keyword(Keyword::Refused), at, number],
    )?;
    put_why(out, sink, names, &why)
}

// Puts the line of a batch that is told by one word.
fn put_keyword<K: Sink>(out: &mut PutBuffer, sink: &mut K, keyword: Keyword) -> Result<(), Failed>
    ensures { Puts K.taken K.faults result sink.old out.old sink.new out.new (line_of (codes "edit" ∷ text_of_keyword keyword ∷ [])) }
{
    put_line(out, sink, b"edit", &[LogWord::Keyword(keyword)])
}

// Puts the line of a batch.
pub(crate) fn put_edit_line<K: Sink>(
    out: &mut PutBuffer,
    sink: &mut K,
    names: &NameBook,
    line: EditLine,
) -> Result<(), Failed>
    ensures { Puts K.taken K.faults result sink.old out.old sink.new out.new (line_text names.now (words_of_edit_line line)) }
{
    match line {
        EditLine::Accepted { version } => {
            let words = [
                LogWord::Keyword(Keyword::Accepted),
                LogWord::Number(version),
            ];
            put_line(out, sink, b"edit", &words)
        }
        EditLine::Refused { at, why } => put_refused(out, sink, names, at, why),
        EditLine::VersionsFull => put_keyword(out, sink, Keyword::VersionsFull),
        EditLine::CellsFull => put_keyword(out, sink, Keyword::CellsFull),
        EditLine::RowsFull => put_keyword(out, sink, Keyword::RowsFull),
        EditLine::NoPages { need, free } => {
            let need = LogWord::Number(u64::from(need));
            let free = LogWord::Number(u64::from(free));
            put_line(
                out,
                sink,
                b"edit",
                &[LogWord::Keyword(Keyword::NoPages), need, free],
            )
        }
    }
}
