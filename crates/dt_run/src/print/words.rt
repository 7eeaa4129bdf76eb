ghost use Rattle.std.specs.Prelude.{◌≡◌, ◌++◌, ◌∷◌, [], map};
ghost use Rattle.dt_run.specs.LogWord.{text_of_keyword, text_of_log_word};
ghost use Rattle.dt_run.specs.Putting.{Puts, spaced_words, line_of};

use crate::print::put_buffer::PutBuffer;
use dt_outside::{Failed, Sink};
use itoa::Buffer;

// A fixed word of a line, but for the first.
#[derive(Clone, Copy)]
pub(crate) enum Keyword {
    Accepted,
    Refused,
    VersionsFull,
    CellsFull,
    RowsFull,
    NoPages,
    Method,
    Ambiguous,
    NotUnderstood,
    NoSelector,
    WrongArity,
    NoClass,
    Worn,
}

impl Keyword {
    // How it is spelled.
    pub(crate) fn text(&self) -> &'static str
        ensures { result.now ≡ text_of_keyword self.now }
    {
        match self {
            Keyword::Accepted => "accepted",
            Keyword::Refused => "refused",
            Keyword::VersionsFull => "versions-full",
            Keyword::CellsFull => "cells-full",
            Keyword::RowsFull => "rows-full",
            Keyword::NoPages => "no-pages",
            Keyword::Method => "method",
            Keyword::Ambiguous => "ambiguous",
            Keyword::NotUnderstood => "not-understood",
            Keyword::NoSelector => "no-selector",
            Keyword::WrongArity => "wrong-arity",
            Keyword::NoClass => "no-class",
            Keyword::Worn => "worn",
        }
    }
}

// A word of a line that is no name, and not the first.
#[derive(Clone, Copy)]
pub(crate) enum LogWord {
    // A fixed word.
    Keyword(Keyword),
    // A number, in decimal digits.
    Number(u64),
}

// Puts bytes behind a space.
pub(crate) fn put_spaced<K: Sink>(
    out: &mut PutBuffer,
    sink: &mut K,
    bytes: &[u8],
) -> Result<(), Failed>
    ensures { Puts K.taken K.faults result sink.old out.old sink.new out.new (32 ∷ bytes.now) }
{
    out.put(sink, b" ")?;
    out.put(sink, bytes)
}

// Puts the last word of a line behind a space, and a line feed.
pub(crate) fn put_last<K: Sink>(
    out: &mut PutBuffer,
    sink: &mut K,
    bytes: &[u8],
) -> Result<(), Failed>
    ensures { Puts K.taken K.faults result sink.old out.old sink.new out.new (32 ∷ bytes.now ++ 10 ∷ []) }
{
    put_spaced(out, sink, bytes)?;
    out.put(sink, b"\n")
}

// Puts a word behind a space.
fn put_word<K: Sink>(out: &mut PutBuffer, sink: &mut K, word: &LogWord) -> Result<(), Failed>
    ensures { Puts K.taken K.faults result sink.old out.old sink.new out.new (32 ∷ text_of_log_word word.now) }
{
    match word {
        LogWord::Keyword(keyword) => put_spaced(out, sink, keyword.text().as_bytes()),
        LogWord::Number(number) => {
            let mut digits = Buffer::new();
            put_spaced(out, sink, digits.format(*number).as_bytes())
        }
    }
}

// Puts words, each behind a space.
fn put_words<K: Sink>(out: &mut PutBuffer, sink: &mut K, words: &[LogWord]) -> Result<(), Failed>
    ensures { Puts K.taken K.faults result sink.old out.old sink.new out.new (spaced_words words.now) }
{
    for word in words {
        put_word(out, sink, word)?;
    }
    Ok(())
}

// Puts the first words of a line.
pub(crate) fn put_head<K: Sink>(
    out: &mut PutBuffer,
    sink: &mut K,
    first: &[u8],
    words: &[LogWord],
) -> Result<(), Failed>
    ensures { Puts K.taken K.faults result sink.old out.old sink.new out.new (first.now ++ spaced_words words.now) }
{
    out.put(sink, first)?;
    put_words(out, sink, words)
}

// Puts a line without a name.
pub(crate) fn put_line<K: Sink>(
    out: &mut PutBuffer,
    sink: &mut K,
    first: &[u8],
    words: &[LogWord],
) -> Result<(), Failed>
    ensures { Puts K.taken K.faults result sink.old out.old sink.new out.new (line_of (first.now ∷ map text_of_log_word words.now)) }
{
    put_head(out, sink, first, words)?;
    out.put(sink, b"\n")
}
