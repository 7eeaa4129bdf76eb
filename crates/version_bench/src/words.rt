/// What the program is asked for.
#[derive(Clone, Copy)]
pub enum Command {
    /// Counts of small stores, with nothing timed.
    Count,
    /// The figures of all metrics.
    Versions,
    /// The greatest store, made once.
    Store,
}

impl Command {
    /// What is asked for by one word more, of those after the program's name; `None` where that is nothing.
    pub fn and(self, word: &str) -> Option<Command> {
        let Command::Count = self else {
            return None;
        };
        if word == "versions" {
            return Some(Command::Versions);
        }
        if word == "store" {
            return Some(Command::Store);
        }
        None
    }
}
