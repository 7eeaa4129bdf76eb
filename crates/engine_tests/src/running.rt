//! A script, the text that it gives, and what runs it.
ghost use Rattle.std.specs.Prelude.{◌<◌};

use dt_outside::{ListSink, ListSource, Sink, Source};
use dt_run::{Status, Turnstile, run};
use dt_words::ArgWords;
use std::alloc::Global;
use std::thread::Threads;

// A script of 211 bytes.
pub(crate) const OVERRIDE: &str =
    "dispatch 1\nclass Object\nclass Shape < Object\nclass Circle < Shape\nselector draw 1\ndefine draw Object -> drawObject\ndefine draw Circle -> drawCircle\ncaller 1\ncall draw Object\ncall draw Shape\ncall draw Circle\nend\n";

// The text that it gives, of 196 bytes.
pub(crate) const REPLIES: &str =
    "phase 1 0 6\nedit accepted 1\nedit accepted 2\nedit accepted 3\nedit accepted 4\nedit accepted 5\nedit accepted 6\ncall 1 6 method drawObject\ncall 1 6 method drawObject\ncall 1 6 method drawCircle\ndone 6\n";

fn push_words(words: &mut ArgWords) -> bool {
    words.push("run").is_ok() && words.push("--table").is_ok() && words.push("sti").is_ok()
}

// The words `run --table sti`.
pub(crate) fn words(alloc: Global) -> Option<ArgWords> {
    let mut words = ArgWords::new(alloc);
    if push_words(&mut words) {
        Some(words)
    } else {
        None
    }
}

fn failing(alloc: Global, call: u32) -> Option<Vec<u32>> {
    vec![in alloc; call].ok()
}

// A source of a script that gives so many bytes at a time and fails at this call, if it isn't 0.
pub(crate) fn source_of(alloc: Global, script: &str, step: u32, call: u32) -> Option<ListSource>
    requires { 0 < step }
{
    let bytes = Vec::from_slice(alloc, script.as_bytes()).ok()?;
    Some(ListSource::new(bytes, step, failing(alloc, call)?))
}

// Such a source of the script above.
pub(crate) fn source(alloc: Global, step: u32, call: u32) -> Option<ListSource>
    requires { 0 < step }
{
    source_of(alloc, OVERRIDE, step, call)
}

// A sink that takes so many bytes at a time and fails at this call, if it isn't 0.
pub(crate) fn sink(alloc: Global, step: u32, call: u32) -> Option<ListSink>
    requires { 0 < step }
{
    ListSink::new(alloc, step, 4096, failing(alloc, call)?).ok()
}

// Runs the program, and tells the status alone.
pub(crate) fn status_of<H: Threads + Sync, S: Source, K: Sink, T: Turnstile>(
    rt: &H,
    alloc: Global,
    words: &ArgWords,
    source: &mut S,
    sink: &mut K,
    turnstile: &T,
) -> Status {
    run(rt, alloc, words, source, sink, turnstile).status
}
