ghost use Rattle.dt_definitions.specs.AnswerLaws.{EditsHaveOneAnswer, EditsHaveAnAnswer, OkHasNoCause, RefusalsAreTheFirstCause, OkAloneChanges, BatchesHaveOneAnswer, BatchesHaveAnAnswer, OkAloneChangesByBatch, OneEditIsABatch, BatchesGoOn, BatchesEnd, LaterEditsDontCount, HistoriesGoOn, BatchesMakeHistories};
ghost use Rattle.dt_definitions.specs.MemoryLaws.{OneMoreTakesMemory, MemoryIsForOneMore, RefusedEditsTakeNone, WithoutTheTestDecided, WithoutTheTestDecidedBatch, DecidedIsFree, DecidedBatchIsFree};
ghost use Rattle.std.specs.Prelude.{◌≡◌, Ok};
ghost use Rattle.dt_definitions.specs.declared.edit.Edit.{Edit};
ghost use Rattle.dt_definitions.specs.Program.{Program, empty_program};
ghost use Rattle.dt_definitions.specs.Lawful.{Lawful, IsInRange};
ghost use Rattle.dt_definitions.specs.Step.{step_edit};
ghost use Rattle.dt_definitions.specs.ProgramLaws.{LiveClassesAreInRange, DefinitionsFit, DefinitionsStandOnce, BodiesAreInRange, NoClassIsAboveItself};
ghost use Rattle.dt_definitions.specs.Laws.{BatchIsItsEdits, EditsAreABatch, BatchStopsAtItsEdit, EditsStopABatch, DefineSetsOneBody, UndefineClearsOneBody, DefinesCommute, HistoriesAreLawful};
ghost use Rattle.dt_definitions.specs.BatchLaws.{BatchesDifferWhereTheySay, BatchesKeepLaw, HistoriesGoOnByOne};

/// But for want of memory, an edit has one answer and leaves one program: at Ok the one that it makes, and at the first
/// cause that holds the old one. It does nothing: a caller whose reasoning needs this calls it.
pub fn edits_have_one_answer()
    ensures one { EditsHaveOneAnswer }
    ensures some { EditsHaveAnAnswer }
    ensures accepted { OkHasNoCause }
    ensures refused { RefusalsAreTheFirstCause }
    ensures unchanged { OkAloneChanges }
{}

/// But for want of memory, a batch has one answer and leaves one program: that of its edits, one after the other, or the
/// old one. It does nothing: a caller whose reasoning needs this calls it.
pub fn batches_have_one_answer()
    ensures one { BatchesHaveOneAnswer }
    ensures some { BatchesHaveAnAnswer }
    ensures unchanged { OkAloneChangesByBatch }
    ensures of_one_edit { OneEditIsABatch }
    ensures goes_on { BatchesGoOn }
    ensures ends { BatchesEnd }
    ensures stays_refused { LaterEditsDontCount }
{}

/// The program after a history is the one that its batches left, each applied to the program that those before it left.
/// It does nothing: a caller whose reasoning needs this calls it.
pub fn batches_make_histories()
    ensures goes_on { HistoriesGoOn }
    ensures applied { BatchesMakeHistories }
{}

/// An edit takes memory where it is accepted and leaves one definition more, and nowhere else; and where an edit or a
/// batch takes none, want of memory isn't answered. It does nothing: a caller whose reasoning needs this calls it.
pub fn new_definitions_take_memory()
    ensures new { OneMoreTakesMemory }
    ensures only { MemoryIsForOneMore }
    ensures refused { RefusedEditsTakeNone }
    ensures decided { WithoutTheTestDecided }
    ensures batch_decided { WithoutTheTestDecidedBatch }
    ensures free { DecidedIsFree }
    ensures batch_free { DecidedBatchIsFree }
{}

/// The empty program is lawful, and the step of an edit on a lawful program, where it isn't refused, leaves a lawful
/// one. It does nothing: a caller whose reasoning needs this calls it.
pub fn steps_keep_law()
    ensures empty { Lawful empty_program }
    ensures step { (old : Program) (edit : Edit) (new : Program) → Lawful old → IsInRange edit
        → step_edit old edit ≡ Ok new → Lawful new }
{}

/// A batch is accepted exactly where its edits are, made one by one; and it is refused at the first of them that is
/// refused by itself, for the same cause. It does nothing: a caller whose reasoning needs this calls it.
pub fn batches_are_their_edits()
    ensures accepted { BatchIsItsEdits }
    ensures one_by_one { EditsAreABatch }
    ensures refused { BatchStopsAtItsEdit }
    ensures stopped { EditsStopABatch }
{}

/// A definition that is made or goes changes the body at its own selector and classes alone, so definitions at
/// others may be made in either order. It does nothing: a caller whose reasoning needs this calls it.
pub fn definitions_stand_alone()
    ensures made { DefineSetsOneBody }
    ensures gone { UndefineClearsOneBody }
    ensures in_either_order { DefinesCommute }
{}

/// The program after every history of batches is lawful. It does nothing: a caller whose reasoning needs this calls
/// it.
pub fn histories_are_lawful()
    ensures { HistoriesAreLawful }
{}

/// What [`Program::law`](crate::Program::law) says of a program at hand, of every lawful program. It does nothing: a
/// caller whose reasoning needs this calls it.
pub fn lawful_programs()
    ensures live_in_range { LiveClassesAreInRange }
    ensures definitions_fit { DefinitionsFit }
    ensures defined_once { DefinitionsStandOnce }
    ensures bodies_in_range { BodiesAreInRange }
    ensures no_cycle { NoClassIsAboveItself }
{}

/// A batch that is accepted leaves a lawful program, which differs from the old one only in the links of the classes
/// that its edits add, drop, link or unlink, and in the definitions that they make or take away. It does nothing: a
/// caller whose reasoning needs this calls it.
pub fn batches_differ_where_they_say()
    ensures lawful { BatchesKeepLaw }
    ensures differ { BatchesDifferWhereTheySay }
{}

/// The program after a history and one batch more is the step of that batch, or stays where that is refused. It does
/// nothing: a caller whose reasoning needs this calls it.
pub fn histories_go_on_by_one()
    ensures { HistoriesGoOnByOne }
{}
