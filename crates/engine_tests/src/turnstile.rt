//! A turnstile that sees each call of two callers pass, once before it is made and once after it.
ghost use Rattle.std.specs.Prelude.{◌<◌};

use crate::running::{sink, source_of, status_of, words};
use dt_outside::ListSource;
use dt_run::{Status, Turnstile};
use dt_words::ArgWords;
use std::sync::atomic::{AtomicU64, Ordering};
use std::test::Fail;
use std::thread::Threads;

// Two callers in two phases, one of which pins; a caller's calls are counted through all phases, pins aren't.
const CALLS: &str =
    "dispatch 1\nclass A\nselector f 1\ncaller 2\ncall f A\npin\ncall f A\ncaller 1\ncall f A\nphase\ncaller 2\nunpin\ncall f A\nend\n";

// What passes, two digits a time: the caller, and its call, with 5 more after it.
const PASSED: u64 = 2_126_222_711_162_328;

// A turnstile that keeps what passes.
#[derive(Drop)]
struct Recorder {
    passed: AtomicU64,
}

impl Recorder {
    fn pass(&self, caller: u16, call: u64) {
        let before = self.passed.load(Ordering::SeqCst);
        let passing = u64::from(caller).wrapping_mul(10).wrapping_add(call);
        let after = before.wrapping_mul(100).wrapping_add(passing);
        self.passed.store(after, Ordering::SeqCst);
    }
}

impl Turnstile for Recorder {
    fn before(&self, caller: u16, call: u32) {
        self.pass(caller, u64::from(call));
    }

    fn after(&self, caller: u16, call: u32) {
        self.pass(caller, u64::from(call).wrapping_add(5));
    }
}

fn is_done<H: Threads + Sync + AllocGlobal>(
    rt: &H,
    words: &ArgWords,
    source: &mut ListSource,
    turnstile: &Recorder,
) -> Option<bool> {
    let mut sink = sink(rt.alloc(), 64, 0)?;
    Some(status_of(rt, rt.alloc(), words, source, &mut sink, turnstile) == Status::Done)
}

fn runs<H: Threads + Sync + AllocGlobal>(
    rt: &H,
    words: &ArgWords,
    turnstile: &Recorder,
) -> Option<bool> {
    let mut source = source_of(rt.alloc(), CALLS, 64, 0)?;
    is_done(rt, words, &mut source, turnstile)
}

// What passed, where the run ended well.
fn passed<H: Threads + Sync + AllocGlobal>(rt: &H) -> Option<u64> {
    let words = words(rt.alloc())?;
    let turnstile = Recorder {
        passed: AtomicU64::new(0),
    };
    if runs(rt, &words, &turnstile)? {
        Some(turnstile.passed.load(Ordering::SeqCst))
    } else {
        None
    }
}

#[test]
fn the_turnstile_stands_round_each_call(rt: HostRuntime) -> Result<(), Fail> {
    assert!(rt; passed(&rt) == Some(PASSED));
    Ok(())
}
