//! The example of README.md: a class and one below it, a selector, its definition at the upper class, and the reply to
//! a call at the lower one.
use dt_definitions::{Arity, BodyNo, ClassNo, Edit, NoMemory, Parents, Program, SelNo, Tuple};
use dt_scratch::{Answer, Query, Reply, resolve};
use std::alloc::Global;
use std::test::Fail;
// How a circle is drawn, where objects are drawn by body 7.
fn draw_a_circle(alloc: Global) -> Result<Option<Reply>, NoMemory> {
    let (Some(object), Some(circle)) = (ClassNo::new(0), ClassNo::new(1)) else {
        return Ok(None);
    };
    let (Some(draw), Some(one), Some(at)) = (SelNo::new(0), Arity::new(1), Tuple::new(&[object]))
    else {
        return Ok(None);
    };
    let edits = [
        Edit::AddClass {
            class: object,
            parents: Parents::new(alloc, &[])?,
        },
        Edit::AddClass {
            class: circle,
            parents: Parents::new(alloc, &[object])?,
        },
        Edit::AddSelector {
            selector: draw,
            arity: one,
        },
        Edit::Define {
            selector: draw,
            classes: at,
            body: BodyNo::new(7),
        },
    ];
    let mut program = Program::new(alloc)?;
    for edit in &edits {
        if program.apply(edit).is_err() {
            return Ok(None);
        }
    }
    Ok(Query::new(0, &[1]).map(|query| resolve(&program, &query)))
}

#[test]
fn a_circle_is_drawn(rt: HostRuntime) -> Result<(), Fail> {
    let answer = Answer::Method {
        body: BodyNo::new(7),
    };
    assert_eq!(rt;
        draw_a_circle(rt.alloc())?,
        Some(Reply::Answered { answer })
    );
    Ok(())
}
