use crate::tuple::Tuple;
use dt_selectors::BodyNo;

/// What a selector is at a list of classes.
#[derive(Clone, Copy, Debug, PartialEq, Eq)]
pub struct Defined {
    /// The classes, one for each argument.
    pub classes: Tuple,
    /// The body that answers.
    pub body: BodyNo,
}
