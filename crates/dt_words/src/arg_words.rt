ghost use Rattle.std.specs.Prelude.{◌≡◌, ℕ, ◌-◌, ◌<◌, ◌↔◌, ◌++◌, ◌∷◌, [], IsTrue, OnOk, OnErr, MatchOption, length, map, slice_get, string_bytes};

use dt_graph::NoMemory;
use std::alloc::Global;
use std::marker::Model;

/// The words of a command line, those after the program's name.
#[derive(Debug, Drop)]
pub struct ArgWords {
    alloc: Global,
    words: Vec<String>,
}

impl Model for ArgWords {
    ghost use Rattle.std.specs.Prelude.{ℕ, List, map, string_bytes};

    ghost Value = { List (List ℕ) };

    ghost view = { λ w. map string_bytes w.words.items };
}

impl ArgWords {
    /// No word.
    pub fn new(alloc: Global) -> ArgWords
        ensures { result ≡ [] }
    {
        ArgWords {
            alloc,
            words: Vec::new(alloc),
        }
    }

    /// Puts a word behind the others.
    ///
    /// # Errors
    ///
    /// [`NoMemory`] where no memory was found; the words are as they were.
    pub fn push(&mut self, word: &str) -> Result<(), NoMemory>
        ensures ok { OnOk result (self.new ≡ self.old ++ word.now ∷ []) }
        ensures err { OnErr result (self.new ≡ self.old) }
    {
        let word = String::from_str(self.alloc, word)?;
        self.words.push(word)?;
        Ok(())
    }

    /// How many words there are.
    pub fn len(&self) -> usize
        ensures { result ≡ length self.now }
    {
        self.words.len()
    }

    /// Whether there is no word.
    pub fn is_empty(&self) -> bool
        ensures { IsTrue result ↔ (self.now ≡ []) }
    {
        self.words.is_empty()
    }

    /// The word in this place, from 1; `None` exactly where there is no such place.
    pub fn word(&self, place: usize) -> Option<&str>
        ensures { MatchOption result ((0 < place) → length self.now < place) (λ word. (0 < place) × (slice_get self.now (place - 1) ≡ Some word.now)) }
    {
        if place == 0 {
            return None;
        }
        let word = self.words.get(place - 1)?;
        Some(word.as_str())
    }

    // The words as they are kept.
    pub(crate) fn texts(&self) -> &[String]
        ensures { map string_bytes result.now ≡ self.now }
    {
        self.words.as_slice()
    }
}
