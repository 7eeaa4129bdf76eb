use crate::graph_rounds::GraphPlan;
use crate::selector_rounds::MOST;
use crate::shape::Shape;
use crate::size::Size;

/// What the program is asked for.
#[derive(Clone, Copy)]
pub enum Command {
    /// Counts of a tiny program, with nothing timed.
    Count,
    /// The figures of the generated program of this number and size.
    Program { number: u32, size: Size },
    /// The occupancy of the tables of the generated program of this number and size.
    Occupancy { number: u32, size: Size },
    /// The figures of a graph.
    Graph { plan: GraphPlan },
    /// The figures of a selector with so many definitions, at most [`MOST`].
    Selector { definitions: u16 },
}

// The number that the word is in decimal digits.
fn number(word: &str) -> Option<u32> {
    if word.as_bytes().first() == Some(&b'+') {
        return None;
    }
    word.parse::<u32>().ok()
}

// The number that the word is, where 16 bits hold it.
fn small(word: &str) -> Option<u16> {
    u16::try_from(number(word)?).ok()
}

// The number and the size of a generated program.
fn generated(n: &str, classes: &str, selectors: &str) -> Option<(u32, Size)> {
    let size = Size::new(small(classes)?, small(selectors)?)?;
    Some((number(n)?, size))
}

// The shape of this word.
fn shape_of(word: &str) -> Option<Shape> {
    for shape in [Shape::Chain, Shape::Star, Shape::Diamonds] {
        if word == shape.word() {
            return Some(shape);
        }
    }
    None
}

// The command `graph SHAPE C`.
fn graph_command(shape: &str, classes: &str) -> Option<Command> {
    let shape = shape_of(shape)?;
    let plan = GraphPlan::new(shape, small(classes)?)?;
    Some(Command::Graph { plan })
}

// The command `selector D`.
fn selector_command(count: &str) -> Option<Command> {
    let definitions = small(count)?;
    if definitions > MOST {
        return None;
    }
    Some(Command::Selector { definitions })
}

// The command `bench N C S` or `occupancy N C S`.
fn program_command(word: &str, n: &str, classes: &str, selectors: &str) -> Option<Command> {
    let (number, size) = generated(n, classes, selectors)?;
    if word == "bench" {
        return Some(Command::Program { number, size });
    }
    if word == "occupancy" {
        return Some(Command::Occupancy { number, size });
    }
    None
}

/// The command that the words after the program's name are; `None` where they are none.
pub fn read_command(words: &[String]) -> Option<Command> {
    match words {
        [] => Some(Command::Count),
        [word, count] if word.as_str() == "selector" => selector_command(count.as_str()),
        [word, shape, classes] if word.as_str() == "graph" => {
            graph_command(shape.as_str(), classes.as_str())
        }
        [word, n, classes, selectors] => program_command(
            word.as_str(),
            n.as_str(),
            classes.as_str(),
            selectors.as_str(),
        ),
        _ => None,
    }
}
