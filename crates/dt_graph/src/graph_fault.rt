use crate::class_no::ClassNo;
use thiserror::Error;

/// Why a change of a class graph is refused. Where several causes hold, the first in the order that the
/// change's own documentation gives is answered, and the graph is as it was. Its text names classes by their numbers.
#[derive(Clone, Copy, Debug, PartialEq, Eq, Error)]
pub enum GraphFault {
    /// The class is live already.
    #[error("the class is live already")]
    ClassExists,
    /// This class isn't live.
    #[error("class {n} isn't live", n = .class.number())]
    ClassUnknown { class: ClassNo },
    /// This parent is named twice.
    #[error("class {n} is named twice as a parent", n = .class.number())]
    ParentTwice { class: ClassNo },
    /// The class would have more than [`PARENTS`](crate::PARENTS) parents.
    #[error("a class has at most {max} parents", max = crate::PARENTS)]
    TooManyParents,
    /// The class is a parent of others, of which this is the lowest.
    #[error("the class is a parent of class {n}", n = .class.number())]
    HasSubclasses { class: ClassNo },
    /// The link is there already.
    #[error("the link is there already")]
    LinkExists,
    /// The link isn't there.
    #[error("the link isn't there")]
    LinkUnknown,
    /// The parent is at or below the class.
    #[error("the parent is at or below the class")]
    Cycle,
}
