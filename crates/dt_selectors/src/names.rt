ghost use Rattle.std.specs.Prelude.{◌≡◌, ◌↔◌, ℕ, List, ◌<◌, ◌≤◌, [], length, slice_get, option_copied, is_some, Ok, Err, Some, IfOk, IfSome, OnOk, OnErr, IsOk, IsErrOf, IsTrue};
ghost use Rattle.std.specs.List.{list_all};
ghost use Rattle.dt_selectors.specs.Names.{is_name_byte, is_name, position_of, is_full_for, with_name};
ghost use Rattle.dt_selectors.specs.Lawful.{LawfulNames};

use crate::limits::NAMES;
use dt_graph::NoMemory;
use indexmap::IndexSet;
use std::alloc::Global;
use std::boxed::BoxedSlice;
use std::marker::Model;
use thiserror::Error;

/// Why a name has no number. The names are as they were.
#[derive(Clone, Copy, Debug, PartialEq, Eq, Error)]
pub enum NameFault {
    /// The name is new, and there are as many names as there may be.
    #[error("there are as many names as there may be")]
    NamesFull,
    /// Memory was wanted, and none was found.
    #[error("no memory")]
    NoMemory,
}

/// Names, numbered from 0 in the order of their first appearance, up to a limit.
///
/// A name is 1 to 64 bytes that print, no space among them (33 to 126); [`Names::is_name`] tells. Memory grows with the
/// names' bytes; none is given back before the whole.
#[derive(Debug, Drop)]
pub struct Names {
    alloc: Global,
    limit: u32,
    texts: IndexSet<BoxedSlice<u8>>,
}

impl Model for Names {
    ghost use Rattle.std.specs.Prelude.{map};
    ghost use Rattle.std.specs.Box.{boxed_slice_items};
    ghost use Rattle.dt_selectors.specs.Names.{Names};
    ghost use Rattle.dt_selectors.specs.Lawful.{LawfulNames};

    ghost Value = { Names };

    ghost view = { λ n. record { limit = n.limit; texts = map boxed_slice_items n.texts.keys } };

    ghost invariant = { λ n. LawfulNames (record { limit = n.limit; texts = map boxed_slice_items n.texts.keys }) };
}

// Whether the byte may stand in a name.
fn is_name_byte(byte: u8) -> bool
    ensures { result ≡ is_name_byte byte }
{
    (33..=126).contains(&byte)
}

// Whether each byte may stand in a name.
fn are_name_bytes(text: &[u8]) -> bool
    ensures { result ≡ list_all is_name_byte text.now }
{
    text.iter().copied().all(is_name_byte)
}

impl Names {
    /// No name yet, and at most `limit` of them to come; the limit is from 1 to [`NAMES`]. It takes no memory in
    /// proportion to the limit; [`NoMemory`] where none was found.
    pub fn new(alloc: Global, limit: u32) -> Result<Names, NoMemory>
        requires { (1 ≤ limit) × (limit ≤ NAMES) }
        ensures { IfOk result (λ names. names ≡ record { limit = limit; texts = [] }) }
    {
        Ok(Names {
            alloc,
            limit,
            texts: IndexSet::new(alloc),
        })
    }

    /// What holds of all names. It does nothing: a caller whose reasoning needs this calls it.
    pub fn law(&self)
        ensures lawful { LawfulNames self.now }
        ensures numbered { (number : ℕ) (text : List ℕ) → (slice_get self.now.texts number ≡ Some text)
            ↔ (position_of text self.now.texts ≡ Some number) }
        ensures are_names { (number : ℕ) (text : List ℕ) → slice_get self.now.texts number ≡ Some text
            → IsTrue (is_name text) }
        ensures few { (number : ℕ) (text : List ℕ) → position_of text self.now.texts ≡ Some number
            → (number < self.now.limit) × (self.now.limit ≤ NAMES) }
    {
        let _ = &self.texts;
    }

    /// Whether the text may be a name: 1 to 64 bytes that print, no space among them. It reads 64 bytes at most.
    pub fn is_name(text: &[u8]) -> bool
        ensures { result ≡ is_name text.now }
    {
        (1..=64).contains(&text.len()) && are_name_bytes(text)
    }

    /// The number of the name: its own where it is known, and else the next one, which it keeps.
    ///
    /// [`NamesFull`](NameFault::NamesFull) exactly where the name is new and there are as many names as the limit.
    /// [`NoMemory`](NameFault::NoMemory) where a new name finds no memory; a known one takes none. After an error the
    /// names are as they were. The text must be a name: [`Names::is_name`] tells. It takes a few steps, however many
    /// names there are, but where the store of names grows.
    pub fn number(&mut self, text: &[u8]) -> Result<u32, NameFault>
        requires { IsTrue (is_name text.now) }
        ensures ok { OnOk result (self.new ≡ with_name self.old text.now) }
        ensures place { IfOk result (λ number. position_of text.now self.new.texts ≡ Some number) }
        ensures stored { IfOk result (λ number. slice_get self.new.texts number ≡ Some text.now) }
        ensures in_range { IfOk result (λ number. number < self.old.limit) }
        ensures full { IsErrOf result NameFault.NamesFull ↔ IsTrue (is_full_for self.old text.now) }
        ensures known { IsTrue (is_some (position_of text.now self.old.texts)) → IsOk result }
        ensures err { OnErr result (self.new ≡ self.old) }
    {
        self.law();
        match self.position(text) {
            Some(number) => Ok(number),
            None if self.texts.len() >= self.limit as usize => Err(NameFault::NamesFull),
            None => match self.append(text) {
                Ok(number) => Ok(number),
                Err(NoMemory) => Err(NameFault::NoMemory),
            },
        }
    }

    /// The name of the number; `None` exactly where no name has it. It takes one step.
    pub fn text(&self, number: u32) -> Option<&[u8]>
        ensures value { option_copied result ≡ slice_get self.now.texts number }
        ensures name { IfSome result (λ text. IsTrue (is_name text.now)) }
        ensures place { IfSome result (λ text. position_of text.now self.now.texts ≡ Some number) }
    {
        let text = self.texts.get_index(number as usize)?;
        Some(text.as_slice())
    }

    /// How many names there are, up to the limit.
    pub fn len(&self) -> u32
        ensures { result ≡ length self.now.texts }
    {
        self.texts.len() as u32
    }

    /// Whether there is no name yet.
    pub fn is_empty(&self) -> bool
        ensures { IsTrue result ↔ (self.now.texts ≡ []) }
    {
        self.texts.is_empty()
    }

    // The number of a known name.
    fn position(&self, text: &[u8]) -> Option<u32>
        ensures { result ≡ position_of text.now self.now.texts }
    {
        let position = self.texts.get_index_of(text)?;
        Some(position as u32)
    }

    // The number of a new name, for which there is room.
    fn append(&mut self, text: &[u8]) -> Result<u32, NoMemory>
        requires name { IsTrue (is_name text.now) }
        requires new { position_of text.now self.old.texts ≡ None }
        requires room { length self.old.texts < self.old.limit }
        ensures ok { OnOk result (self.new ≡ with_name self.old text.now) }
        ensures place { IfOk result (λ number. position_of text.now self.new.texts ≡ Some number) }
        ensures in_range { IfOk result (λ number. number < self.old.limit) }
        ensures err { OnErr result (self.new ≡ self.old) }
    {
        let number = self.len();
        let text = BoxedSlice::from_slice(self.alloc, text)?;
        self.texts.insert(text)?;
        Ok(number)
    }
}
