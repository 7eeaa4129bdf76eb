ghost use Rattle.std.specs.Prelude.{◌≡◌, ◌==◌, ℕ, [], ◌∷◌, ◌&&◌, ◌||◌, not, IfSome, length};
ghost use Rattle.dt_graph.specs.Graph.{has_number};

use crate::class_no::ClassNo;
use crate::class_set::ClassSet;
use std::marker::Model;

// A set of classes that keeps how many they are. It is seen as the set is.
#[derive(Clone, Debug, Drop)]
pub(crate) struct CountedSet {
    classes: ClassSet,
    // How many classes are in the set.
    size: u16,
}

impl Model for CountedSet {
    ghost use Rattle.std.specs.Prelude.{◌≡◌, ℕ, List, length};

    ghost Value = { List ℕ };

    ghost view = { λ s. s.classes };

    ghost invariant = { λ s. s.size ≡ length s.classes };
}

impl CountedSet {
    // The set of this class alone.
    pub(crate) fn alone(class: ClassNo) -> CountedSet
        ensures { result ≡ class ∷ [] }
    {
        let mut classes = ClassSet::new();
        classes.insert(class);
        CountedSet { classes, size: 1 }
    }

    // The set without the number.
    pub(crate) fn as_set(&self) -> &ClassSet
        ensures { result.now ≡ self.now }
    {
        &self.classes
    }

    // How many classes are in the set. It reads a number.
    pub(crate) fn len(&self) -> usize
        ensures { result ≡ length self.now }
    {
        self.size as usize
    }

    // The class is in the set from now on. It takes one step.
    fn insert(&mut self, class: ClassNo)
        ensures { (n : ℕ) → has_number self.new n ≡ (has_number self.old n || (class == n)) }
    {
        self.classes.law();
        if !self.classes.contains(class) {
            self.classes.insert(class);
            self.size += 1;
        }
    }

    // The class isn't in the set from now on. It takes one step.
    fn remove(&mut self, class: ClassNo)
        ensures { (n : ℕ) → has_number self.new n ≡ (has_number self.old n && not (n == class)) }
    {
        self.classes.law();
        if self.classes.contains(class) {
            self.classes.remove(class);
            self.classes.law();
            self.size -= 1;
        }
    }

    // The classes of the other set are in the set from now on, too.
    fn insert_all(&mut self, other: &ClassSet)
        ensures { (n : ℕ) → has_number self.new n ≡ (has_number self.old n || has_number other.now n) }
    {
        self.size = self.classes.insert_all_counting(other) as u16;
    }

    // The classes of the other set aren't in the set from now on.
    fn remove_all(&mut self, other: &ClassSet)
        ensures { (n : ℕ) → has_number self.new n ≡ (has_number self.old n && not (has_number other.now n)) }
    {
        self.classes.remove_all(other);
        self.size = self.classes.len() as u16;
    }

    // The same as `insert_all`. Where the other set has one class, it takes one step.
    pub(crate) fn insert_these(&mut self, other: &ClassSet, only: &Option<ClassNo>)
        requires { IfSome only.now (λ class. other.now ≡ class ∷ []) }
        ensures { (n : ℕ) → has_number self.new n ≡ (has_number self.old n || has_number other.now n) }
    {
        match only {
            Some(class) => self.insert(*class),
            None => self.insert_all(other),
        }
    }

    // The same as `remove_all`. Where the other set has one class, it takes one step.
    pub(crate) fn remove_these(&mut self, other: &ClassSet, only: &Option<ClassNo>)
        requires { IfSome only.now (λ class. other.now ≡ class ∷ []) }
        ensures { (n : ℕ) → has_number self.new n ≡ (has_number self.old n && not (has_number other.now n)) }
    {
        match only {
            Some(class) => self.remove(*class),
            None => self.remove_all(other),
        }
    }
}
