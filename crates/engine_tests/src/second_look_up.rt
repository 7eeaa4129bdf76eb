//! Look-up from scratch beside a second look-up, which counts over sets of bits, on programs made by chance.
ghost use Rattle.std.specs.Prelude.{◌<◌};

use crate::chance::Chance;
use crate::edits::{class, is_applied, parents, selector, tuple};
use arrayvec::ArrayVec;
use dt_definitions::{Arity, BodyNo, Edit, Program};
use dt_scratch::{Answer, Query, Reply, resolve};
use std::alloc::Global;
use std::test::Fail;

// How many classes a program has.
const CLASSES: u16 = 12;

// How many definitions come to a program, some in the place of others.
const DEFINITIONS: u16 = 24;

// How many queries a program gets.
const QUERIES: u16 = 200;

// What the links of a program look like.
#[derive(Clone, Copy, Debug)]
enum Shape {
    Chain,
    Star,
    Diamonds,
    Dense,
}

// A definition of the selector that takes so many arguments, by the places of its classes. Places that it doesn't take
// are 0.
#[derive(Clone, Copy, Debug, Default)]
struct Placed {
    arity: u8,
    places: [u16; 4],
    body: u16,
}

// What the second look-up keeps of a program: of each class the set of those at or above it, as bits, and the
// definitions.
#[derive(Drop)]
struct Second {
    above: ArrayVec<u16, 16>,
    definitions: ArrayVec<Placed, 32>,
}

// How often each answer came: by a method, by none, and ambiguous.
#[derive(Clone, Copy, Debug)]
struct Met {
    methods: u32,
    none: u32,
    ambiguous: u32,
}

// The number of the class at this place.
fn number_of(place: u16) -> u16 {
    place.wrapping_mul(5).wrapping_add(3) % 16
}

// The set of this place alone.
fn bit(place: u16) -> u16 {
    1u16.checked_shl(u32::from(place)).unwrap_or(0)
}

// Whether the class at a place begins with the one at an earlier place as a parent.
fn is_parent(shape: Shape, place: u16, earlier: u16, chance: &mut Chance) -> bool {
    let gap = place.wrapping_sub(earlier);
    match shape {
        Shape::Chain => gap == 1,
        Shape::Star => earlier == 0,
        Shape::Diamonds => (gap == 1 && place % 3 != 2) || (gap == 2 && place % 3 != 1),
        Shape::Dense => chance.below(3) == 0,
    }
}

// The parents with which the class at a place begins, as a set.
fn parents_of(shape: Shape, place: u16, chance: &mut Chance) -> u16 {
    let mut set = 0;
    for earlier in 0..place {
        if is_parent(shape, place, earlier, chance) {
            set |= bit(earlier);
        }
    }
    set
}

impl Second {
    fn new() -> Second {
        Second {
            above: ArrayVec::new(),
            definitions: ArrayVec::new(),
        }
    }

    // A class comes with its parents: it is at or above itself, and at or below all that they are.
    fn add_class(&mut self, place: u16, parents: u16) {
        let mut above = bit(place);
        for (earlier, set) in (0..).zip(self.above.as_slice()) {
            if parents & bit(earlier) != 0 {
                above |= *set;
            }
        }
        let _ = self.above.try_push(above);
    }

    // A definition comes, in the place of one at the same classes.
    fn define(&mut self, kept: Placed) {
        for other in self.definitions.as_mut_slice() {
            if other.arity == kept.arity && other.places == kept.places {
                other.body = kept.body;
                return;
            }
        }
        let _ = self.definitions.try_push(kept);
    }

    fn is_at_or_below(&self, low: u16, high: u16) -> bool {
        match self.above.as_slice().get(usize::from(low)) {
            Some(set) => set & bit(high) != 0,
            None => false,
        }
    }

    fn are_at_or_below(&self, lows: &[u16; 4], highs: &[u16; 4]) -> bool {
        lows.iter()
            .zip(highs.iter())
            .all(|(low, high)| self.is_at_or_below(*low, *high))
    }

    fn applies(&self, kept: &Placed, arity: u8, places: &[u16; 4]) -> bool {
        kept.arity == arity && self.are_at_or_below(places, &kept.places)
    }

    // How many of the definitions that apply at these places are at or above the low ones.
    fn count_above(&self, low: &[u16; 4], arity: u8, places: &[u16; 4]) -> usize {
        self.definitions
            .as_slice()
            .iter()
            .filter(|kept| self.applies(kept, arity, places)
                && self.are_at_or_below(low, &kept.places))
            .count()
    }

    // The definition that applies and is at or below as many of those that apply as there are.
    fn lowest(&self, arity: u8, places: &[u16; 4], found: usize) -> Option<u16> {
        for kept in self.definitions.as_slice() {
            if self.applies(kept, arity, places)
                && self.count_above(&kept.places, arity, places) == found
            {
                return Some(kept.body);
            }
        }
        None
    }

    fn answer(&self, arity: u8, places: &[u16; 4]) -> Answer {
        let found = self.count_above(places, arity, places);
        match self.lowest(arity, places, found) {
            Some(body) => Answer::Method {
                body: BodyNo::new(body),
            },
            None if found == 0 => Answer::NotUnderstood,
            None => Answer::Ambiguous,
        }
    }
}

impl Met {
    fn count(&mut self, answer: Answer) {
        let counter = match answer {
            Answer::Method { .. } => &mut self.methods,
            Answer::NotUnderstood => &mut self.none,
            Answer::Ambiguous => &mut self.ambiguous,
        };
        *counter = counter.saturating_add(1);
    }
}

// So many places, by chance, the others 0: the lower ones where it is for a query, the higher ones where it is for a
// definition.
fn some_places(chance: &mut Chance, arity: u8, is_low: bool) -> [u16; 4] {
    let limit = if is_low {
        CLASSES
    } else {
        1 + CLASSES / u16::from(arity.max(1))
    };
    let mut places = [0; 4];
    for place in places.iter_mut().take(usize::from(arity)) {
        let one = chance.below(limit);
        let other = chance.below(limit);
        *place = if is_low {
            one.max(other)
        } else {
            one.min(other)
        };
    }
    places
}

// The numbers of the classes at so many of these places.
fn numbers(alloc: Global, places: &[u16; 4], arity: u8) -> Option<Vec<u16>> {
    let mut listed = Vec::new(alloc);
    for place in places.iter().take(usize::from(arity)) {
        listed.push(number_of(*place)).ok()?;
    }
    Some(listed)
}

// The numbers of the classes at the places of this set.
fn numbers_of_set(alloc: Global, set: u16) -> Option<Vec<u16>> {
    let mut listed = Vec::new(alloc);
    for place in 0..CLASSES {
        if set & bit(place) != 0 {
            listed.push(number_of(place)).ok()?;
        }
    }
    Some(listed)
}

fn class_edit(alloc: Global, place: u16, set: u16) -> Option<Edit> {
    let parents = parents(alloc, &numbers_of_set(alloc, set)?)?;
    let class = class(number_of(place));
    Some(Edit::AddClass { class, parents })
}

fn define_edit(alloc: Global, kept: &Placed) -> Option<Edit> {
    let classes = tuple(alloc, &numbers(alloc, &kept.places, kept.arity)?)?;
    Some(Edit::Define {
        selector: selector(u16::from(kept.arity)),
        classes,
        body: BodyNo::new(kept.body),
    })
}

fn apply(program: &mut Program, edit: &Edit) -> Option<()> {
    if is_applied(program, edit) {
        Some(())
    } else {
        None
    }
}

// Classes of this shape come to both.
fn add_classes(
    alloc: Global,
    program: &mut Program,
    second: &mut Second,
    shape: Shape,
    chance: &mut Chance,
) -> Option<()> {
    for place in 0..CLASSES {
        let set = parents_of(shape, place, chance);
        apply(program, &class_edit(alloc, place, set)?)?;
        second.add_class(place, set);
    }
    Some(())
}

// The selectors 1 to 4, each of which takes as many arguments as its number.
fn add_selectors(program: &mut Program) -> Option<()> {
    for number in 1..5u8 {
        let arity = Arity::new(number)?;
        let selector = selector(u16::from(number));
        apply(program, &Edit::AddSelector { selector, arity })?;
    }
    Some(())
}

// Definitions come to both.
fn define_some(
    alloc: Global,
    program: &mut Program,
    second: &mut Second,
    chance: &mut Chance,
) -> Option<()> {
    for body in 0..DEFINITIONS {
        let arity = 1 + chance.below(4) as u8;
        let places = some_places(chance, arity, false);
        let kept = Placed {
            arity,
            places,
            body,
        };
        apply(program, &define_edit(alloc, &kept)?)?;
        second.define(kept);
    }
    Some(())
}

// Whether both look-ups answer a query alike.
fn is_alike(
    alloc: Global,
    program: &Program,
    second: &Second,
    chance: &mut Chance,
    met: &mut Met,
) -> Option<bool> {
    let arity = 1 + chance.below(4) as u8;
    let places = some_places(chance, arity, true);
    let query = Query::new(u16::from(arity), &numbers(alloc, &places, arity)?)?;
    let answer = second.answer(arity, &places);
    met.count(answer);
    Some(resolve(program, &query) == Reply::Answered { answer })
}

// The number of the first query, from 1, that the two look-ups answer otherwise; 0 where there is none.
fn first_difference(
    alloc: Global,
    program: &Program,
    second: &Second,
    chance: &mut Chance,
    met: &mut Met,
) -> u16 {
    for number in 1..QUERIES {
        if is_alike(alloc, program, second, chance, met) != Some(true) {
            return number;
        }
    }
    0
}

fn fill(
    alloc: Global,
    program: &mut Program,
    second: &mut Second,
    shape: Shape,
    chance: &mut Chance,
) -> Option<()> {
    add_classes(alloc, program, second, shape, chance)?;
    add_selectors(program)?;
    define_some(alloc, program, second, chance)
}

// Whether both answer alike over this program, which has nothing yet, once it is filled.
fn agree_over(
    alloc: Global,
    program: &mut Program,
    shape: Shape,
    chance: &mut Chance,
    met: &mut Met,
) -> Option<bool> {
    let mut second = Second::new();
    fill(alloc, program, &mut second, shape, chance)?;
    Some(first_difference(alloc, program, &second, chance, met) == 0)
}

// Whether both answer alike over a program of this shape.
fn agree(alloc: Global, shape: Shape, chance: &mut Chance, met: &mut Met) -> Option<bool> {
    let mut program = Program::new(alloc).ok()?;
    agree_over(alloc, &mut program, shape, chance, met)
}

// The shape of the programs of this number.
fn shape_of(number: u16) -> Shape {
    match number % 4 {
        0 => Shape::Chain,
        1 => Shape::Star,
        2 => Shape::Diamonds,
        _ => Shape::Dense,
    }
}

// The number of the first program over which the two look-ups differ, and how often each answer came.
fn first_program(alloc: Global) -> (Option<u16>, Met) {
    let mut chance = Chance::new();
    let mut met = Met {
        methods: 0,
        none: 0,
        ambiguous: 0,
    };
    for number in 0..16 {
        if agree(alloc, shape_of(number), &mut chance, &mut met) != Some(true) {
            return (Some(number), met);
        }
    }
    (None, met)
}

#[test]
fn two_look_ups_agree(rt: HostRuntime) -> Result<(), Fail> {
    let (different, met) = first_program(rt.alloc());
    let is_met = met.methods >= 300 && met.none >= 300 && met.ambiguous >= 100;
    assert!(rt; different.is_none() && is_met, "{different:?} {met:?}");
    Ok(())
}
