ghost use Rattle.std.specs.Prelude.{◌≡◌, ◌<◌, ◌≤◌, length};
ghost use Rattle.std.proofs.Common.{rules};
ghost use Rattle.std.specs.Cmp.{partial_order_from_own_ties};
ghost use Rattle.std.specs.Cmp.Rules.{comparing};
ghost use Rattle.std.specs.Option.{SomeIff};
ghost use Rattle.std.specs.Ordering.{as_partial_cmp};
ghost use Rattle.dt_definitions.specs.Nth.{nth};
ghost use Rattle.dt_scratch.specs.Query.{Query, arity_of_query, is_same_query, LawfulQuery, query_order};

use std::cmp::Ordering;
use std::fmt;
use std::marker::Model;

// How many classes a query may have.
const POSITIONS: usize = 4;

/// A query: a selector is sent to one to four classes, one for each argument. The numbers are any `u16`, also
/// those that no selector or class can have.
///
/// Queries are ordered by selector, then by arity, then by the list of classes.
#[derive(Clone, Copy, Debug)]
pub struct Query {
    selector: u16,
    arity: u8,
    positions: [u16; POSITIONS],
}

impl Model for Query {
    ghost use Rattle.std.specs.Prelude.{length, take};
    ghost use Rattle.dt_scratch.specs.Query.{Query};

    ghost Value = { Query };

    ghost use Rattle.std.proofs.Common.{arith, length-take-le};
    ghost use Rattle.dt_scratch.specs.QueryParts.{IsPadded, pad};

    ghost view = { λ q. record { selector = q.selector; classes = take q.arity q.positions } };

    ghost invariant = { λ q. IsPadded q.arity q.positions };

    ghost inverse = { λ q. record { selector = q.selector; arity = length q.classes; positions = pad q.classes } };

    ghost inverse_ok = { λ q h i. record {
      selector = q.selector;
      arity = length-take-le q.arity q.positions (omega (arith, h.few, h.four)) i;
      positions = h.padded i;
    } };
}

impl Query {
    /// The query of this selector at these classes; `None` exactly where there are no classes or more than four.
    pub fn new(selector: u16, classes: &[u16]) -> Option<Query>
        ensures { SomeIff result ((0 < length classes.now) × (length classes.now ≤ 4))
            (record { selector = selector; classes = classes.now }) }
    {
        let positions = match *classes {
            [a] => [a, 0, 0, 0],
            [a, b] => [a, b, 0, 0],
            [a, b, c] => [a, b, c, 0],
            [a, b, c, d] => [a, b, c, d],
            _ => return None,
        };
        Some(Query {
            selector,
            arity: classes.len() as u8,
            positions,
        })
    }

    /// What holds of every query. It does nothing: a caller whose reasoning needs this calls it.
    pub fn law(&self)
        ensures { LawfulQuery self.now }
    {
        let [_first, _second, _third, _fourth] = self.positions;
    }

    /// The number of the selector.
    pub fn selector(&self) -> u16
        ensures { result ≡ self.now.selector }
    {
        self.selector
    }

    /// How many classes there are, from 1 to 4.
    pub fn arity(&self) -> u8
        ensures value { result ≡ arity_of_query self.now }
        ensures in_range { (0 < result) × (result ≤ 4) }
    {
        self.arity
    }

    /// The number of the class at this place, from 1; `None` exactly where there is no such place.
    pub fn class(&self, place: u8) -> Option<u16>
        ensures { result ≡ nth self.now.classes place }
    {
        let place = usize::from(place).checked_sub(1)?;
        self.classes().get(place).copied()
    }

    /// The numbers of the classes, in the order of their positions.
    pub fn classes(&self) -> &[u16]
        ensures value { result.now ≡ self.now.classes }
        ensures in_range { (0 < length result.now) × (length result.now ≤ 4) }
    {
        &self.positions[..usize::from(self.arity)]
    }
}

// The number of the selector, and those of the classes, with a space before each.
impl fmt::Display for Query {
    fn fmt<W: fmt::Write>(&self, f: &mut fmt::Formatter<W>) -> fmt::Result {
        let selector = self.selector;
        write!(f, "{selector}")?;
        for class in self.classes() {
            write!(f, " {class}")?;
        }
        Ok(())
    }
}

impl PartialEq for Query {
    ghost eq = { is_same_query };

    ghost laws = { Prim.search (comparing, rules) };

    fn eq(&self, other: &Query) -> bool {
        self.selector == other.selector
            && self.arity == other.arity
            && self.classes() == other.classes()
    }
}

impl Eq for Query {
    ghost laws = { Prim.search (comparing, rules) };
}

impl PartialOrd for Query {
    ghost partial_cmp = { as_partial_cmp query_order };

    ghost laws = { partial_order_from_own_ties (Prim.search (comparing, rules)) (Prim.search (comparing, rules)) };

    fn partial_cmp(&self, other: &Query) -> Option<Ordering> {
        Some(self.cmp(other))
    }
}

impl Ord for Query {
    ghost cmp = { query_order };

    ghost total = { Prim.search (comparing, rules) };

    ghost matches_partial_cmp = { Prim.search (comparing, rules) };

    ghost matches_eq = { Prim.search (comparing, rules) };

    fn cmp(&self, other: &Query) -> Ordering {
        self.selector
            .cmp(&other.selector)
            .then(self.arity.cmp(&other.arity))
            .then(self.classes().cmp(other.classes()))
    }
}
