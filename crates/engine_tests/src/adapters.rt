//! Readers and writers of std as sources and sinks, and what a run makes of their faults.
ghost use Rattle.std.specs.Prelude.{◌<◌};

use crate::running::{OVERRIDE, REPLIES, sink, source, status_of, words};
use dt_outside::{Sink, Source, StdSink, StdSource};
use dt_run::{OpenTurnstile, Status};
use dt_words::ArgWords;
use std::io;
use std::io::{Read, Write};
use std::test::Fail;
use std::thread::Threads;

// A reader and writer of which each call fails.
#[derive(Drop)]
struct Broken;

impl Read for Broken {
    fn read(&mut self, _buf: &mut [u8]) -> io::Result<usize> {
        Err(io::Error::from(io::ErrorKind::Other))
    }
}

impl Write for Broken {
    fn write(&mut self, _buf: &[u8]) -> io::Result<usize> {
        Err(io::Error::from(io::ErrorKind::Other))
    }

    fn flush(&mut self) -> io::Result<()> {
        Ok(())
    }
}

// A writer that takes nothing.
#[derive(Drop)]
struct Full;

impl Write for Full {
    fn write(&mut self, _buf: &[u8]) -> io::Result<usize> {
        Ok(0)
    }

    fn flush(&mut self) -> io::Result<()> {
        Ok(())
    }
}

// How a run over this source ends, and whether the sink took this text.
fn reads_so<H: Threads + Sync + AllocGlobal, S: Source>(
    rt: &H,
    words: &ArgWords,
    source: &mut S,
    status: Status,
    text: &str,
) -> Option<bool> {
    let mut sink = sink(rt.alloc(), 64, 0)?;
    let ended = status_of(rt, rt.alloc(), words, source, &mut sink, &OpenTurnstile);
    Some(ended == status && sink.bytes() == text.as_bytes())
}

// Whether a run of the script into this sink ends so.
fn writes_so<H: Threads + Sync + AllocGlobal, K: Sink>(
    rt: &H,
    words: &ArgWords,
    sink: &mut K,
    status: Status,
) -> Option<bool> {
    let mut source = source(rt.alloc(), 64, 0)?;
    let ended = status_of(rt, rt.alloc(), words, &mut source, sink, &OpenTurnstile);
    Some(ended == status)
}

fn writes_all<H: Threads + Sync + AllocGlobal>(rt: &H, words: &ArgWords) -> Option<bool> {
    let mut text = Vec::new(rt.alloc());
    let is_done = writes_so(rt, words, &mut StdSink::new(&mut text), Status::Done)?;
    Some(is_done && text.as_slice() == REPLIES.as_bytes())
}

fn reads_all<H: Threads + Sync + AllocGlobal>(rt: &H, words: &ArgWords) -> Option<bool> {
    let mut whole = StdSource::new(OVERRIDE.as_bytes());
    reads_so(rt, words, &mut whole, Status::Done, REPLIES)
}

fn reads_broken<H: Threads + Sync + AllocGlobal>(rt: &H, words: &ArgWords) -> Option<bool> {
    let mut broken = StdSource::new(Broken);
    reads_so(rt, words, &mut broken, Status::ReadFault, "fault read\n")
}

fn writes_broken<H: Threads + Sync + AllocGlobal>(rt: &H, words: &ArgWords) -> Option<bool> {
    let mut broken = StdSink::new(Broken);
    writes_so(rt, words, &mut broken, Status::WriteFault)
}

fn writes_full<H: Threads + Sync + AllocGlobal>(rt: &H, words: &ArgWords) -> Option<bool> {
    let mut full = StdSink::new(Full);
    writes_so(rt, words, &mut full, Status::WriteFault)
}

fn hold<H: Threads + Sync + AllocGlobal>(rt: &H, words: &ArgWords) -> bool {
    reads_all(rt, words) == Some(true)
        && reads_broken(rt, words) == Some(true)
        && writes_broken(rt, words) == Some(true)
        && writes_full(rt, words) == Some(true)
        && writes_all(rt, words) == Some(true)
}

fn all_hold<H: Threads + Sync + AllocGlobal>(rt: &H) -> Option<bool> {
    let words = words(rt.alloc())?;
    Some(hold(rt, &words))
}

#[test]
fn adapters_pass_faults_on(rt: HostRuntime) -> Result<(), Fail> {
    assert!(rt; all_hold(&rt) == Some(true));
    Ok(())
}
