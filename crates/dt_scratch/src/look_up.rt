ghost use Rattle.std.specs.Prelude.{◌≡◌};
ghost use Rattle.dt_scratch.specs.Resolve.{reply};

use crate::among::answer_among;
use crate::live::live_classes;
use crate::query::Query;
use crate::reply::Reply;
use dt_definitions::Program;
use dt_selectors::SelNo;

/// The reply to a query, by look-up from scratch. The first of these that holds: the selector isn't live; it takes another
/// number of arguments; the class in a position, the first such, isn't live; else the answer of the applicable
/// definitions.
///
/// It takes no memory. The time grows with the number of definitions of the query's selector, as that of
/// [`answer_among`](crate::answer_among); not with those of others, nor with the classes, links or selectors.
#[tactic(auto, using(crate::proofs::LiveNumbers::no_selector))]
pub fn resolve(program: &Program, query: &Query) -> Reply
    ensures { result ≡ reply program.now query.now }
{
    program.law();
    let Some(selector) = SelNo::new(query.selector()) else {
        return Reply::NoSelector;
    };
    let Some(arity) = program.arity(selector) else {
        return Reply::NoSelector;
    };
    if arity.number() != query.arity() {
        return Reply::WrongArity;
    }
    match live_classes(program.graph(), query) {
        Ok(classes) => Reply::Answered {
            answer: answer_among(program.graph(), program.definitions_of(selector), &classes),
        },
        Err(place) => Reply::NoClass { place },
    }
}
