/// What a reader saw over its visits.
#[derive(Clone, Copy, Debug, PartialEq, Eq)]
pub struct Seen {
    /// The least version that it saw.
    pub least: u64,
    /// The greatest version that it saw.
    pub greatest: u64,
    /// How often the word that it read down to was not the version.
    pub torn: u32,
    /// How often a version was below the one seen before it.
    pub fell: u32,
    /// How many looks were worn.
    pub worn: u32,
    last: u64,
}

impl Seen {
    /// Nothing is seen yet.
    pub fn new() -> Seen {
        Seen {
            least: u64::MAX,
            greatest: 0,
            torn: 0,
            fell: 0,
            worn: 0,
            last: 0,
        }
    }

    /// A visit saw this version, and this word if it came down to one.
    pub fn add(&mut self, version: u64, word: Option<u64>) {
        self.least = self.least.min(version);
        self.greatest = self.greatest.max(version);
        if word != Some(version) {
            self.torn = self.torn.saturating_add(1);
        }
        if version < self.last {
            self.fell = self.fell.saturating_add(1);
        }
        self.last = version;
    }

    /// A look was worn.
    pub fn add_worn(&mut self) {
        self.worn = self.worn.saturating_add(1);
    }

    /// Whether it saw more versions than one.
    pub fn saw_two(&self) -> bool {
        self.least < self.greatest
    }
}
