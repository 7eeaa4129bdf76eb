ghost use Rattle.dt_cells.specs.Pair.{IsForOneClass, IsForMoreClasses};

use crate::kind::TableKind;

/// A kind for queries of one class, whose cells are the cells of one receiver: it can be the first of a
/// [`Pair`](crate::Pair).
pub trait ForOneClass: TableKind {
    ghost for_one_class: { IsForOneClass Self.kind };
}

/// A kind that may begin with queries of two classes and goes up to four, whose cells are those of the master array: it can
/// be the second of a [`Pair`](crate::Pair).
pub trait ForMoreClasses: TableKind {
    ghost for_more_classes: { IsForMoreClasses Self.kind };
}
