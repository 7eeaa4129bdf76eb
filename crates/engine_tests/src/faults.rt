//! A source and a sink that fail, at each call in turn.
ghost use Rattle.std.specs.Prelude.{◌<◌};

use crate::running::{OVERRIDE, REPLIES, sink, source, status_of, words};
use dt_outside::ListSource;
use dt_run::{OpenTurnstile, Status};
use dt_words::ArgWords;
use std::test::Fail;
use std::thread::Threads;

// How many bytes a call gives or takes, and the calls that fail, from 1; none where it is 0.
#[derive(Clone, Copy)]
struct Plan {
    step: u32,
    read: u32,
    put: u32,
    ghost some: { 0 < step },
}

// The text up to the put that fails.
fn text_before(text: &str, plan: Plan) -> Option<&[u8]> {
    let puts = plan.put.checked_sub(1)?;
    text.as_bytes().get(..puts.checked_mul(plan.step)? as usize)
}

// How the run ends, and what the sink takes.
fn wanted(plan: Plan) -> (Status, &'static [u8]) {
    let (status, text) = if plan.read != 0 {
        (Status::ReadFault, "fault read\n")
    } else if plan.put != 0 {
        (Status::WriteFault, REPLIES)
    } else {
        (Status::Done, REPLIES)
    };
    (status, text_before(text, plan).unwrap_or(text.as_bytes()))
}

fn ends_so<H: Threads + Sync + AllocGlobal>(
    rt: &H,
    words: &ArgWords,
    source: &mut ListSource,
    plan: Plan,
) -> Option<bool> {
    let mut sink = sink(rt.alloc(), plan.step, plan.put)?;
    let status = status_of(rt, rt.alloc(), words, source, &mut sink, &OpenTurnstile);
    Some(wanted(plan) == (status, sink.bytes()))
}

// Whether a run of this plan ends as is wanted.
fn ends<H: Threads + Sync + AllocGlobal>(rt: &H, words: &ArgWords, plan: Plan) -> Option<bool> {
    let mut source = source(rt.alloc(), plan.step, plan.read)?;
    ends_so(rt, words, &mut source, plan)
}

// The first of so many reads whose fault isn't told so; 0 where each is.
fn first_read<H: Threads + Sync + AllocGlobal>(
    rt: &H,
    words: &ArgWords,
    step: u32,
    reads: u32,
) -> u32
    requires { 0 < step }
{
    for read in 1..=reads {
        let plan = Plan { step, read, put: 0 };
        if ends(rt, words, plan) != Some(true) {
            return read;
        }
    }
    0
}

// The first of so many puts whose fault isn't told so; 0 where each is.
fn first_put<H: Threads + Sync + AllocGlobal>(rt: &H, words: &ArgWords, step: u32, puts: u32) -> u32
    requires { 0 < step }
{
    for put in 1..=puts {
        let plan = Plan { step, read: 0, put };
        if ends(rt, words, plan) != Some(true) {
            return put;
        }
    }
    0
}

// Whether each of so many reads and puts fails as is wanted, and no later one is made.
fn each_fails<H: Threads + Sync + AllocGlobal>(
    rt: &H,
    words: &ArgWords,
    step: u32,
    reads: u32,
    puts: u32,
) -> bool
    requires { 0 < step }
{
    first_read(rt, words, step, reads) == 0
        && first_put(rt, words, step, puts) == 0
        && none_is_late(rt, words, step, reads, puts)
}

// Whether a run over this source, whose first put that fails is this one, ends well.
fn is_done<H: Threads + Sync + AllocGlobal>(
    rt: &H,
    words: &ArgWords,
    source: &mut ListSource,
    step: u32,
    put: u32,
) -> Option<bool>
    requires { 0 < step }
{
    let mut sink = sink(rt.alloc(), step, put)?;
    let status = status_of(rt, rt.alloc(), words, source, &mut sink, &OpenTurnstile);
    Some(status == Status::Done && sink.bytes() == REPLIES.as_bytes())
}

// Whether a run whose first fault would come after its last call ends well.
fn none_is_late<H: Threads + Sync + AllocGlobal>(
    rt: &H,
    words: &ArgWords,
    step: u32,
    reads: u32,
    puts: u32,
) -> bool
    requires { 0 < step }
{
    match source(rt.alloc(), step, reads.saturating_add(1)) {
        Some(mut source) => is_done(rt, words, &mut source, step, puts.saturating_add(1))
            == Some(true),
        None => false,
    }
}

// Whether both the first read and the first put fail as is wanted.
fn both_fail<H: Threads + Sync + AllocGlobal>(rt: &H, words: &ArgWords) -> bool {
    let plan = Plan {
        step: 16,
        read: 1,
        put: 1,
    };
    ends(rt, words, plan) == Some(true)
}

fn all_fail<H: Threads + Sync + AllocGlobal>(rt: &H) -> Option<bool> {
    let words = words(rt.alloc())?;
    // The last read finds the end.
    Some(
        each_fails(rt, &words, 1, 212, 196)
            && each_fails(rt, &words, 16, 15, 13)
            && both_fail(rt, &words),
    )
}

#[test]
fn each_read_and_each_put_fails(rt: HostRuntime) -> Result<(), Fail> {
    assert!(rt; (OVERRIDE.len(), REPLIES.len()) == (211, 196));
    assert!(rt; all_fail(&rt) == Some(true));
    Ok(())
}
