ghost use Rattle.dt_tables.specs.Laws.{CellsAreCounted, CommitsHaveAnAnswer, CommitsHaveOneAnswer, CommitsMakeHistories, OkAloneCommits, RowsAreCounted};
ghost use Rattle.dt_tables.specs.Words.{CommitsMakeWords};

use dt_cells::TableKind;

/// But for want of memory, a commit has one answer and leaves one program: at Ok the one that the batch makes, and at
/// every other answer the old one. It does nothing: a caller whose reasoning needs this calls it.
pub fn commits_have_one_answer()
    ensures one { CommitsHaveOneAnswer }
    ensures some { CommitsHaveAnAnswer }
    ensures ok_alone { OkAloneCommits }
{}

/// The program after batches, each committed or refused, from the empty one on, goes on by one commit more. It does
/// nothing: a caller whose reasoning needs this calls it.
pub fn commits_make_histories()
    ensures { CommitsMakeHistories }
{}

/// The words after batches, each committed or refused, from those of the empty program on, go on by one commit more. It
/// does nothing: a caller whose reasoning needs this calls it.
pub fn commits_make_words<K: TableKind>()
    ensures { CommitsMakeWords K.kind }
{}

/// In a lawful program there are more cells or rows than the limit exactly where so many can be named. It does nothing:
/// a caller whose reasoning needs this calls it.
pub fn limits_are_counted()
    ensures cells { CellsAreCounted }
    ensures rows { RowsAreCounted }
{}
