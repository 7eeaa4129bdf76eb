//! What is called through a bound, once at a type.
ghost use Rattle.std.specs.Prelude.{◌≡◌, ◌<◌};

use dt_graph::Steps;
use dt_scratch::Query;
use std::cmp::max;
use std::marker::Brand;
use std::sync::ledger::{Blank, Ledger};
use std::test::Fail;

fn two_steps<L: Ledger>(blank: Blank)
    requires name { blank.name ≡ L.name }
    requires parts { blank.parts ≡ L.parts }
    requires some_part { 0 < blank.parts }
{
    let mut steps = Steps::<L>::start(blank);
    steps.tick();
    steps.tick();
}

#[test]
fn counts_steps() {
    two_steps::<Brand>(Blank::new(1));
}

// More arguments come after fewer, whatever the classes.
fn queries_have_an_order() -> Option<bool> {
    let more = Query::new(9, &[5, 65_535])?;
    let fewer = Query::new(9, &[6])?;
    Some(max(more, fewer) == more)
}

#[test]
fn queries(rt: HostRuntime) -> Result<(), Fail> {
    assert!(rt; queries_have_an_order() == Some(true));
    Ok(())
}
