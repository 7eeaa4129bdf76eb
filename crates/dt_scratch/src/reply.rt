use crate::query::Query;
use dt_definitions::BodyNo;
use std::fmt;

/// What a query whose selector, arity and classes are right is answered by.
#[derive(Clone, Copy, Debug, PartialEq, Eq)]
pub enum Answer {
    /// One most specific definition is applicable; this is its body.
    Method { body: BodyNo },
    /// No definition is applicable.
    NotUnderstood,
    /// Two or more definitions are applicable, and none of them is more specific than all others.
    Ambiguous,
}

/// The reply to a query. The first of these that holds, in this order, is the reply.
#[derive(Clone, Copy, Debug, PartialEq, Eq)]
pub enum Reply {
    /// The selector isn't live.
    NoSelector,
    /// The selector takes another number of arguments.
    WrongArity,
    /// The class in this place, from 1, isn't live, and each class before it is.
    NoClass { place: u8 },
    /// All are live, and this is the answer.
    Answered { answer: Answer },
}

/// A cell that changes: a query, and the answer that it has from now on.
#[derive(Clone, Copy, Debug, PartialEq, Eq)]
pub struct Change {
    /// The query.
    pub query: Query,
    /// Its new answer.
    pub answer: Answer,
}

// As a person reads it: `method` with the number of its body, `not understood` or `ambiguous`.
impl fmt::Display for Answer {
    fn fmt<W: fmt::Write>(&self, f: &mut fmt::Formatter<W>) -> fmt::Result {
        match self {
            Answer::Method { body } => {
                let body = body.number();
                write!(f, "method {body}")
            }
            Answer::NotUnderstood => f.write_str("not understood"),
            Answer::Ambiguous => f.write_str("ambiguous"),
        }
    }
}

// As a person reads it: why there is no answer, with the place of the class, or the answer.
impl fmt::Display for Reply {
    fn fmt<W: fmt::Write>(&self, f: &mut fmt::Formatter<W>) -> fmt::Result {
        match self {
            Reply::NoSelector => f.write_str("no selector"),
            Reply::WrongArity => f.write_str("wrong arity"),
            Reply::NoClass { place } => write!(f, "no class at place {place}"),
            Reply::Answered { answer } => write!(f, "{answer}"),
        }
    }
}
