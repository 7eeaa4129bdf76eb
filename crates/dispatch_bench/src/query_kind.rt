/// The kinds of look-ups that are timed.
#[derive(Clone, Copy, PartialEq)]
pub enum QueryKind {
    /// With one argument, answered by a method.
    HitsOfOne,
    /// With one argument, any of them.
    RandomOfOne,
    /// With two arguments, answered by a method.
    HitsOfTwo,
    /// With two arguments, any of them.
    RandomOfTwo,
}

impl QueryKind {
    /// The words that are printed.
    pub fn words(self) -> &'static str {
        match self {
            QueryKind::HitsOfOne => "k1 hits",
            QueryKind::RandomOfOne => "k1 random",
            QueryKind::HitsOfTwo => "k2 hits",
            QueryKind::RandomOfTwo => "k2 random",
        }
    }

    /// How many arguments there are.
    pub fn arguments(self) -> u8 {
        match self {
            QueryKind::HitsOfOne | QueryKind::RandomOfOne => 1,
            QueryKind::HitsOfTwo | QueryKind::RandomOfTwo => 2,
        }
    }
}
