ghost use Rattle.dt_propagate.specs.BoxLaws.{BoxesAscend, BoxesHoldExactly, BoxesHoldNoMore};
ghost use Rattle.dt_propagate.specs.CandidateBoxes.{CandidatesAreHeld};
ghost use Rattle.dt_propagate.specs.Counts.{PartsAreNoLonger, RowsAreBegun, UnderstoodIsHeld};
ghost use Rattle.dt_propagate.specs.FinerMarks.{FinerMarksServe};

/// What several boxes hold together is exactly the lists of classes that are of one of them, in ascending order, and no
/// more than each holds by itself. It does nothing: a caller whose reasoning needs this calls it.
pub fn boxes_hold()
    ensures exactly { BoxesHoldExactly }
    ensures ascend { BoxesAscend }
    ensures no_more { BoxesHoldNoMore }
{}

/// What a lawful program understands, and its rows, are what the boxes of its definitions hold, and what begins in them;
/// and a list with none twice is no longer than one that has all its elements, so that cells and rows are counted by
/// them. It does nothing: a caller whose reasoning needs this calls it.
pub fn understood_is_held()
    ensures understood { UnderstoodIsHeld }
    ensures rows { RowsAreBegun }
    ensures parts { PartsAreNoLonger }
{}

/// The candidates of a lawful program are what the boxes of its definitions hold: of those that differ the whole box, of
/// all others what has a class at or below one whose links differ. It does nothing: a caller whose reasoning needs this
/// calls it.
pub fn candidates_are_held()
    ensures { CandidatesAreHeld }
{}

/// Fewer candidates are enough: a class need be marked at a position only where it is below other classes that are named
/// there, or these stand in another order. It does nothing: a caller whose reasoning needs this calls it.
pub fn finer_marks_serve()
    ensures { FinerMarksServe }
{}
