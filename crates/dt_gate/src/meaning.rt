ghost use Rattle.std.specs.Prelude.{List};
ghost use Rattle.dt_pages.specs.Reading.{Reading};

/// What is published, and what pages mean.
pub trait Meaning: Send + Sync {
    /// What one publish adds to the history. A version is the list of all items up to it.
    type Item: Send + Sync;

    // This reading shows this list of items.
    ghost shows: { Reading → List Self.Item → Type 0 };
}
