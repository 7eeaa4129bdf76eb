use crate::tuple::Tuple;
use dt_selectors::SelNo;

/// Where a definition stands: its selector and its classes. A selector has at most one at the same classes.
#[derive(Clone, Copy, Debug, PartialEq, Eq)]
pub struct DefinitionKey {
    /// The selector.
    pub selector: SelNo,
    /// The classes, one for each argument.
    pub classes: Tuple,
}
