ghost use Rattle.std.specs.Prelude.{◌≡◌};
ghost use Rattle.dt_run.specs.Summary.{word_of};

// A line of a summary.
#[derive(Clone, Copy)]
pub(crate) enum Figure {
    Classes,
    Selectors,
    Accepted,
    Refused,
    Method,
    Ambiguous,
    NotUnderstood,
    Other,
    Mix,
    Done,
}

impl Figure {
    // Its word.
    pub(crate) fn word(&self) -> &'static str
        ensures { result.now ≡ word_of self.now }
    {
        match self {
            Figure::Classes => "classes",
            Figure::Selectors => "selectors",
            Figure::Accepted => "accepted",
            Figure::Refused => "refused",
            Figure::Method => "method",
            Figure::Ambiguous => "ambiguous",
            Figure::NotUnderstood => "not-understood",
            Figure::Other => "other",
            Figure::Mix => "mix",
            Figure::Done => "done",
        }
    }
}

// What a call is told as.
#[derive(Clone, Copy)]
pub(crate) enum Told {
    // A method answered it.
    Method,
    // It is ambiguous.
    Ambiguous,
    // It is not understood.
    NotUnderstood,
    // It came to no answer.
    Other,
}
