ghost use Rattle.std.specs.Prelude.{◌≡◌, ◌<◌, ◌≤◌, ◌^◌, [], ◌∷◌, ◌++◌, set, length, OnOk, OnErr};
ghost use Rattle.dt_fit.specs.Undoing.{undone, AreWithin};

use dt_graph::NoMemory;

/// What a word was before a change.
#[derive(Clone, Copy, Debug)]
pub(crate) struct WordBefore {
    pub(crate) at: usize,
    pub(crate) word: u64,
}

// Changes a word, and notes what it was. After want of memory all is as it was.
pub(crate) fn change(
    words: &mut Vec<u64>,
    journal: &mut Vec<WordBefore>,
    at: usize,
    word: u64,
) -> Result<(), NoMemory>
    requires at { at < length words.old.items }
    requires within { AreWithin journal.old.items words.old.items }
    ensures words { OnOk result (words.new.items ≡ set words.old.items at word) }
    ensures before { undone journal.new.items words.new.items ≡ undone journal.old.items words.old.items }
    ensures within { AreWithin journal.new.items words.new.items }
    ensures count { length words.new.items ≡ length words.old.items }
    ensures err { OnErr result (words.new.items ≡ words.old.items) }
    ensures err_journal { OnErr result (journal.new.items ≡ journal.old.items) }
{
    journal.push(WordBefore {
        at,
        word: words[at],
    })?;
    words[at] = word;
    Ok(())
}

// Undoes all changes that are noted, the newest first.
pub(crate) fn undo_all(words: &mut Vec<u64>, journal: &mut Vec<WordBefore>)
    requires { AreWithin journal.old.items words.old.items }
    ensures words { words.new.items ≡ undone journal.old.items words.old.items }
    ensures count { length words.new.items ≡ length words.old.items }
    ensures journal { journal.new.items ≡ [] }
{
    while let Some(before) = journal.pop() {
        words[before.at] = before.word;
    }
}
