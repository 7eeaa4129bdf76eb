ghost use Rattle.std.specs.Prelude.{◌≡◌, ◌==◌, ℕ, ◌<◌, ◌≤◌, ◌&&◌, ◌||◌, not, List, [], ◌∷◌, ◌++◌, length, IsTrue, All, IfSome, OnOk, OnErr};
ghost use Rattle.dt_graph.specs.Graph.{has_number, insert_number};
ghost use Rattle.dt_graph.specs.Lawful.{AscendingNumbers};
ghost use Rattle.dt_graph.specs.FirstFrom.{first_from};

use crate::class_no::ClassNo;
use crate::limits::CLASSES;
use crate::no_memory::NoMemory;
use arrayvec::ArrayVec;
use std::marker::Model;

// How many classes a word tells of.
const BITS: usize = 64;

// How many words tell of all classes.
const WORDS: usize = CLASSES as usize / BITS;

const PLACES: usize = CLASSES as usize;

/// A set of classes. It is seen as the list of its numbers in ascending order, which is all that two sets with the same
/// numbers can differ in: nothing ([`ClassSet::law`]).
///
/// A set takes 256 bytes, a bit for each class number, wherever it stands, and no other memory. A question about one
/// class reads one word; all other calls go through the 32 words at most once, but for those that name the classes one
/// by one.
#[derive(Clone, Debug, Drop)]
pub struct ClassSet {
    words: [u64; WORDS],
}

impl Model for ClassSet {
    ghost use Rattle.std.specs.Prelude.{ℕ, List};

    ghost Value = { List ℕ };

    ghost use Rattle.dt_graph.specs.ClassSet.{numbers_below};
    ghost use Rattle.dt_graph.specs.declared.limits.TheConstants.{CLASSES};

    ghost view = { λ s. numbers_below CLASSES s.words };
}

impl ClassSet {
    /// The set with no class.
    pub fn new() -> ClassSet
        ensures { result ≡ [] }
    {
        ClassSet { words: [0; WORDS] }
    }

    /// An equal set.
    pub fn copy(&self) -> ClassSet
        ensures { result ≡ self.now }
    {
        ClassSet { words: self.words }
    }

    /// What holds of every set of classes. It does nothing: a caller whose reasoning needs this calls it.
    pub fn law(&self)
        ensures ascend { AscendingNumbers self.now }
        ensures in_range { All (λ n. n < CLASSES) self.now }
        ensures below_limit { (n : ℕ) → IsTrue (has_number self.now n) → n < CLASSES }
        ensures determined { (numbers : List ℕ) → AscendingNumbers numbers
            → ((n : ℕ) → has_number numbers n ≡ has_number self.now n) → self.now ≡ numbers }
    {
        let _ = &self.words;
    }

    /// Whether the class is in the set.
    pub fn contains(&self, class: ClassNo) -> bool
        ensures { result ≡ has_number self.now class }
    {
        let number = class.number() as usize;
        (self.words[number / BITS] >> (number % BITS)) & 1 == 1
    }

    // Whether it is the other set; where it isn't, nothing is said.
    pub(crate) fn is_same(&self, other: &ClassSet) -> bool
        ensures { IsTrue result → self.now ≡ other.now }
    {
        self.words == other.words
    }

    /// How many classes are in the set, 2,048 at most.
    pub fn len(&self) -> usize
        ensures value { result ≡ length self.now }
        ensures in_range { result ≤ CLASSES }
    {
        let mut count = 0;
        for word in &self.words {
            count += word.count_ones() as usize;
        }
        count
    }

    /// The lowest class of the set whose number is `least` or more; `None` where there is none. It looks at the words
    /// up to that class.
    pub fn first_from(&self, least: usize) -> Option<ClassNo>
        ensures { result ≡ first_from least self.now }
    {
        let words = &self.words;
        let mut place = least / BITS;
        if place >= WORDS {
            return None;
        }
        // The bits of lower classes don't count.
        let mut word = words[place] >> (least % BITS) << (least % BITS);
        while word == 0 {
            place += 1;
            if place == WORDS {
                return None;
            }
            word = words[place];
        }
        Some(ClassNo::from_index(place * BITS + word.trailing_zeros() as usize))
    }

    // The class that is in the set alone; `None` where there is none or are more.
    pub(crate) fn only(&self) -> Option<ClassNo>
        ensures { IfSome result (λ class. self.now ≡ class ∷ []) }
    {
        self.law();
        let class = self.first_from(0)?;
        match self.first_from(class.number() as usize + 1) {
            Some(_) => None,
            None => Some(class),
        }
    }

    /// The class is in the set from now on.
    pub fn insert(&mut self, class: ClassNo)
        ensures list { self.new ≡ insert_number class self.old }
        ensures members { (n : ℕ) → has_number self.new n ≡ ((class == n) || has_number self.old n) }
    {
        let number = class.number() as usize;
        self.words[number / BITS] |= 1 << (number % BITS);
    }

    /// The class isn't in the set from now on.
    pub fn remove(&mut self, class: ClassNo)
        ensures { (n : ℕ) → has_number self.new n ≡ (has_number self.old n && not (n == class)) }
    {
        let number = class.number() as usize;
        self.words[number / BITS] &= !(1 << (number % BITS));
    }

    /// The classes of the other set are in the set from now on, too.
    pub fn insert_all(&mut self, other: &ClassSet)
        ensures { (n : ℕ) → has_number self.new n ≡ (has_number self.old n || has_number other.now n) }
    {
        for i in 0..WORDS {
            self.words[i] |= other.words[i];
        }
    }

    // The classes of the other set are in the set from now on, too; answers how many the set has then. The count costs
    // less here than in a pass of its own.
    pub(crate) fn insert_all_counting(&mut self, other: &ClassSet) -> usize
        ensures members { (n : ℕ) → has_number self.new n ≡ (has_number self.old n || has_number other.now n) }
        ensures count { result ≡ length self.new }
        ensures in_range { result ≤ CLASSES }
    {
        let mut count = 0;
        for i in 0..WORDS {
            let word = self.words[i] | other.words[i];
            self.words[i] = word;
            count += word.count_ones() as usize;
        }
        count
    }

    /// The classes of the other set aren't in the set from now on.
    pub fn remove_all(&mut self, other: &ClassSet)
        ensures { (n : ℕ) → has_number self.new n ≡ (has_number self.old n && not (has_number other.now n)) }
    {
        for i in 0..WORDS {
            self.words[i] &= !other.words[i];
        }
    }

    /// The classes that aren't in the other set.
    pub fn without(&self, other: &ClassSet) -> ClassSet
        ensures { (n : ℕ) → has_number result n ≡ (has_number self.now n && not (has_number other.now n)) }
    {
        let mut rest = self.copy();
        rest.remove_all(other);
        rest
    }

    /// The classes that are in the other set, too.
    pub fn intersection(&self, other: &ClassSet) -> ClassSet
        ensures { (n : ℕ) → has_number result n ≡ (has_number self.now n && has_number other.now n) }
    {
        self.without(&self.without(other))
    }

    /// Appends the classes, in ascending order. [`NoMemory`] where no memory was found; `out` is as it was
    /// then.
    pub fn push_into(&self, out: &mut Vec<ClassNo>) -> Result<(), NoMemory>
        ensures ok { OnOk result (out.new.items ≡ out.old.items ++ self.now) }
        ensures err { OnErr result (out.new.items ≡ out.old.items) }
    {
        out.extend_from_slice(self.classes().as_slice())?;
        Ok(())
    }

    /// The classes in ascending order, in a list that takes 4 KB where it stands and no other memory.
    pub fn classes(&self) -> ArrayVec<ClassNo, PLACES>
        ensures { result.items ≡ self.now }
    {
        self.law();
        let mut classes = ArrayVec::new();
        let mut least = 0;
        while let Some(class) = self.first_from(least) {
            classes.push(class);
            least = class.number() as usize + 1;
        }
        classes
    }
}
