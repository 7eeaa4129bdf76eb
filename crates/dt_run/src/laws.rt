ghost use Rattle.dt_run.specs.TextLaws.{TextWhereNamed, OneShapeOfScript, DeterminedByText, OutcomeIsNamed};

/// A log has a text exactly where each number in it has a name, and is determined by it: two logs of one shape, as all logs
/// of one script are, are equal where their texts are. It does nothing: its contract is the law.
pub fn logs_are_determined_by_their_texts()
    ensures named { TextWhereNamed }
    ensures shape { OneShapeOfScript }
    ensures determined { DeterminedByText }
{}

/// In the log of an outcome of a script every number has a name, where the numbers of the script's edits do, as those of a
/// script that was read: so it can be printed. It does nothing: its contract is the law.
pub fn outcomes_are_named()
    ensures { OutcomeIsNamed }
{}
