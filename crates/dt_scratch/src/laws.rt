ghost use Rattle.dt_scratch.specs.AmongLaws.{AllAreEnough, PartsAreEnough};
ghost use Rattle.dt_scratch.specs.CellLaws.{CellsAreAnswers, OnlyAnswersAreInCells, UnderstoodCells};
ghost use Rattle.dt_scratch.specs.Laws.{LowestAnswers, MethodsAreInRange, MethodsAreLowest, NotUnderstoodWhereNone, SameAnswersWhereSame, TopSeesItself};
ghost use Rattle.dt_scratch.specs.LocalityLaws.{BatchesChangeWhatTheyConcern, EditsChangeWhatTheyConcern, EditsConcernTheSameAfter, OthersKeepTheirCell};

/// Classes that are below no others see only the definition at these very classes. It does nothing: a caller whose
/// reasoning needs this calls it.
pub fn top_sees_itself()
    ensures { TopSeesItself }
{}

/// The answers of every lawful program by the lowest applicable definition: the one that is at or below each that is
/// applicable, in every position. A method is answered exactly where there is one, and it is the method of that one; not
/// understood is answered exactly where no definition is applicable, and so ambiguous in all other cases. So two lawful
/// programs with the same applicable definitions in the same order of specificity give the same answer. It does
/// nothing: a caller whose reasoning needs this calls it.
pub fn law_of_answers()
    ensures method { MethodsAreLowest }
    ensures lowest { LowestAnswers }
    ensures none { NotUnderstoodWhereNone }
    ensures in_range { MethodsAreInRange }
    ensures same { SameAnswersWhereSame }
{}

/// The cells of every lawful program. A cell is other than not understood exactly where the selector is live with as
/// many arguments, the classes are live, and a definition is applicable; then the query is answered by it. The cell of
/// each query, also of one whose numbers aren't live, is its answer. It does nothing: a caller whose reasoning needs
/// this calls it.
pub fn law_of_cells()
    ensures answered { OnlyAnswersAreInCells }
    ensures understood { UnderstoodCells }
    ensures answers { CellsAreAnswers }
{}

/// An edit changes no reply but those that it concerns: of a class that comes, goes, is linked or unlinked, to the queries
/// with a class at or below it, by the links before or after, which is the same; of a selector that comes or goes, to its
/// own; of a definition that comes, is replaced or goes, to those of its selector whose classes are each at or below its
/// own in the same position. A batch changes none but those that one of its edits concerns by the links before the batch.
/// It does nothing: a caller whose reasoning needs this calls it.
pub fn edits_change_what_they_concern()
    ensures edit { EditsChangeWhatTheyConcern }
    ensures before_and_after { EditsConcernTheSameAfter }
    ensures batch { BatchesChangeWhatTheyConcern }
{}

/// Of two lawful programs that differ only in the links of some classes and in the definitions at some keys, a query has
/// the same cell in both, unless in one of them a definition is applicable to it that differs, or any is and the query
/// has a class at or below one whose links differ. It does nothing: a caller whose reasoning needs this calls it.
pub fn others_keep_their_cell()
    ensures { OthersKeepTheirCell }
{}

/// Which definitions are enough for [`answer_among`](crate::answer_among): all of the query's selector, and whatever is
/// left of enough when some that aren't applicable are left out. It does nothing: a caller whose reasoning needs this
/// calls it.
pub fn parts_are_enough()
    ensures all { AllAreEnough }
    ensures parts { PartsAreEnough }
{}
