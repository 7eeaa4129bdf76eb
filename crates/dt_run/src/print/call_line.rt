ghost use Rattle.std.specs.Prelude.{◌≡◌, ◌∷◌, [], codes, decimal};
ghost use Rattle.dt_script.specs.Word.{Body};
ghost use Rattle.dt_script.specs.Writing.{word_text};
ghost use Rattle.dt_run.specs.LogWord.{text_of_keyword};
ghost use Rattle.dt_run.specs.Text.{words_of_call_line};
ghost use Rattle.dt_run.specs.Putting.{Puts, line_of, line_text};

use crate::log::{CallLine, Stamped};
use crate::print::put_buffer::PutBuffer;
use crate::print::words::{Keyword, LogWord, put_head, put_last, put_line};
use dt_definitions::BodyNo;
use dt_outside::{Failed, Sink};
use dt_scratch::{Answer, Reply};
use dt_script::NameBook;

// The name of the body, and no byte where it has none.
fn name_of_body(names: &NameBook, body: BodyNo) -> &[u8]
    ensures { result.now ≡ word_text names.now (Body body) }
{
    names.body_name(body).unwrap_or(b"")
}

// Puts the line of a call that found a method.
fn put_method<K: Sink>(
    out: &mut PutBuffer,
    sink: &mut K,
    names: &NameBook,
    caller: u16,
    version: u64,
    body: BodyNo,
) -> Result<(), Failed>
    ensures { Puts K.taken K.faults result sink.old out.old sink.new out.new (line_of (codes "call" ∷ decimal caller ∷ decimal version ∷ codes "method" ∷ word_text names.now (Body body) ∷ [])) }
{
    let caller = LogWord::Number(u64::from(caller));
    let words = [
        caller,
        LogWord::Number(version),
        LogWord::Keyword(Keyword::Method),
    ];
    put_head(out, sink, b"call", &words)?;
    put_last(out, sink, name_of_body(names, body))
}

// Puts the line of a call whose reply is told by one word.
fn put_told<K: Sink>(
    out: &mut PutBuffer,
    sink: &mut K,
    caller: u16,
    version: u64,
    keyword: Keyword,
) -> Result<(), Failed>
    ensures { Puts K.taken K.faults result sink.old out.old sink.new out.new (line_of (codes "call" ∷ decimal caller ∷ decimal version ∷ text_of_keyword keyword ∷ [])) }
{
    let caller = LogWord::Number(u64::from(caller));
    let words = [caller, LogWord::Number(version), LogWord::Keyword(keyword)];
    put_line(out, sink, b"call", &words)
}

// Puts the line of a call that has a class that isn't live in this place.
fn put_no_class<K: Sink>(
    out: &mut PutBuffer,
    sink: &mut K,
    caller: u16,
    version: u64,
    place: u8,
) -> Result<(), Failed>
    ensures { Puts K.taken K.faults result sink.old out.old sink.new out.new (line_of (codes "call" ∷ decimal caller ∷ decimal version ∷ codes "no-class" ∷ decimal place ∷ [])) }
{
    let caller = LogWord::Number(u64::from(caller));
    let version = LogWord::Number(version);
    let place = LogWord::Number(u64::from(place));
    put_line(
        out,
        sink,
        b"call",
        &[caller, version, LogWord::Keyword(Keyword::NoClass), place],
    )
}

// Puts the line of a call that was answered.
fn put_called<K: Sink>(
    out: &mut PutBuffer,
    sink: &mut K,
    names: &NameBook,
    caller: u16,
    stamped: Stamped,
) -> Result<(), Failed>
    ensures { Puts K.taken K.faults result sink.old out.old sink.new out.new (line_text names.now (words_of_call_line caller (CallLine.Called stamped))) }
{
    let version = stamped.version;
    match stamped.reply {
        Reply::Answered { answer } => put_answer(out, sink, names, caller, version, answer),
        Reply::NoSelector => put_told(out, sink, caller, version, Keyword::NoSelector),
        Reply::WrongArity => put_told(out, sink, caller, version, Keyword::WrongArity),
        Reply::NoClass { place } => put_no_class(out, sink, caller, version, place),
    }
}

// Puts the line of a call with this answer.
fn put_answer<K: Sink>(
    out: &mut PutBuffer,
    sink: &mut K,
    names: &NameBook,
    caller: u16,
    version: u64,
    answer: Answer,
) -> Result<(), Failed>
    ensures { Puts K.taken K.faults result sink.old out.old sink.new out.new (line_text names.now (words_of_call_line caller (CallLine.Called (record { version = version; reply = Reply.Answered answer })))) }
{
    match answer {
        Answer::Method { body } => put_method(out, sink, names, caller, version, body),
        Answer::Ambiguous => put_told(out, sink, caller, version, Keyword::Ambiguous),
        Answer::NotUnderstood => put_told(out, sink, caller, version, Keyword::NotUnderstood),
    }
}

// Puts a line of this caller.
pub(crate) fn put_call_line<K: Sink>(
    out: &mut PutBuffer,
    sink: &mut K,
    names: &NameBook,
    caller: u16,
    line: CallLine,
) -> Result<(), Failed>
    ensures { Puts K.taken K.faults result sink.old out.old sink.new out.new (line_text names.now (words_of_call_line caller line)) }
{
    let worn = LogWord::Keyword(Keyword::Worn);
    let number = LogWord::Number(u64::from(caller));
    match line {
        CallLine::Called { stamped } => put_called(out, sink, names, caller, stamped),
        CallLine::CallWorn { entries } => {
            put_line(
                out,
                sink,
                b"call",
                &[number, worn, LogWord::Number(u64::from(entries))],
            )
        }
        CallLine::PinnedAt { version } => {
            put_line(out, sink, b"pin", &[number, LogWord::Number(version)])
        }
        CallLine::PinWorn { entries } => {
            put_line(
                out,
                sink,
                b"pin",
                &[number, worn, LogWord::Number(u64::from(entries))],
            )
        }
        CallLine::Unpinned => put_line(out, sink, b"unpin", &[number]),
    }
}
