ghost use Rattle.std.specs.Prelude.{◌≡◌, ◌↔◌, ℕ, List, ◌^◌, ◌<◌, ◌≤◌, [], ◌∷◌, ◌++◌, length, IsTrue, MatchOption, decimal};
ghost use Rattle.std.specs.Option.{option_copied};
ghost use Rattle.dt_script.specs.Cut.{parts_at};
ghost use Rattle.dt_script.specs.Keyword.{text_of_keyword};
ghost use Rattle.dt_script.specs.Line.{is_from_one_to};
ghost use Rattle.dt_script.specs.Words.{AreWords, words_left};
ghost use Rattle.dt_script.specs.Written.{IsWrittenOf, texts_of_classes};

use crate::keyword::Keyword;
use crate::limits::CALLERS;
use crate::words::{Words, cut_word, is_word, words_of};
use dt_definitions::Arity;
use itoa::Buffer;
use std::str;

/// The names of one to four classes.
#[derive(Clone, Copy)]
pub enum Classes<'a> {
    One(&'a [u8]),
    Two(&'a [u8], &'a [u8]),
    Three(&'a [u8], &'a [u8], &'a [u8]),
    Four(&'a [u8], &'a [u8], &'a [u8], &'a [u8]),
}

/// A line with its names as they stand in its bytes.
#[derive(Clone, Copy)]
pub enum Written<'a> {
    Header,
    AddClass {
        class: &'a [u8],
    },
    /// A class with parents: their names, with one space between two.
    AddSubclass {
        class: &'a [u8],
        parents: &'a [u8],
    },
    DropClass {
        class: &'a [u8],
    },
    Link {
        class: &'a [u8],
        parent: &'a [u8],
    },
    Unlink {
        class: &'a [u8],
        parent: &'a [u8],
    },
    AddSelector {
        selector: &'a [u8],
        arity: Arity,
    },
    DropSelector {
        selector: &'a [u8],
    },
    Define {
        selector: &'a [u8],
        classes: Classes<'a>,
        body: &'a [u8],
    },
    Undefine {
        selector: &'a [u8],
        classes: Classes<'a>,
    },
    Begin,
    Commit,
    Phase,
    Caller {
        caller: u16,
    },
    Call {
        selector: &'a [u8],
        classes: Classes<'a>,
    },
    Pin,
    Unpin,
    End,
}

/// The line that begins with this word, and whose further words are left; `None` exactly where there is none.
pub fn written_after<'a>(keyword: Keyword, rest: Option<&'a [u8]>) -> Option<Written<'a>>
    ensures { IsWrittenOf keyword (words_left (option_copied rest.entry)) result }
{
    match keyword {
        Keyword::Class => class_line(rest?),
        Keyword::Dispatch => header_line(words_of(rest)),
        Keyword::Drop => drop_line(words_of(rest)),
        Keyword::Link => link_line(words_of(rest)),
        Keyword::Unlink => unlink_line(words_of(rest)),
        Keyword::Selector => selector_line(words_of(rest)),
        Keyword::Forget => forget_line(words_of(rest)),
        Keyword::Define => define_line(rest?),
        Keyword::Undefine => undefine_line(rest?),
        Keyword::Caller => caller_line(words_of(rest)),
        Keyword::Call => call_line(rest?),
        Keyword::Begin => {
            nothing_left(rest)?;
            Some(Written::Begin)
        }
        Keyword::Commit => {
            nothing_left(rest)?;
            Some(Written::Commit)
        }
        Keyword::Phase => {
            nothing_left(rest)?;
            Some(Written::Phase)
        }
        Keyword::Pin => {
            nothing_left(rest)?;
            Some(Written::Pin)
        }
        Keyword::Unpin => {
            nothing_left(rest)?;
            Some(Written::Unpin)
        }
        Keyword::End => {
            nothing_left(rest)?;
            Some(Written::End)
        }
    }
}

// Something exactly where no word is left.
fn nothing_left(rest: Option<&[u8]>) -> Option<()>
    ensures { MatchOption result (words_left (option_copied rest.entry) ≡ [] → ⊥) (λ _. words_left (option_copied rest.entry) ≡ []) }
{
    match rest {
        None => Some(()),
        Some(_) => None,
    }
}

// The line of a class, after its first word.
fn class_line(rest: &[u8]) -> Option<Written<'_>>
    ensures { IsWrittenOf Keyword.Class (parts_at 32 rest.now) result }
{
    let (class, rest) = cut_word(rest);
    let Some(rest) = rest else {
        return Some(Written::AddClass { class });
    };
    let (less, parents) = cut_word(rest);
    let below = is_word(less, b"<");
    match parents {
        Some(parents) if below => Some(Written::AddSubclass { class, parents }),
        _ => None,
    }
}

// The first line of a script, after its first word.
fn header_line(words: Words<'_>) -> Option<Written<'_>>
    ensures { (texts : List (List ℕ)) → AreWords words.entry texts → IsWrittenOf Keyword.Dispatch texts result }
{
    match words {
        Words::One(version) if is_word(version, b"1") => Some(Written::Header),
        _ => None,
    }
}

// The line of a class that goes, after its first word.
fn drop_line(words: Words<'_>) -> Option<Written<'_>>
    ensures { (texts : List (List ℕ)) → AreWords words.entry texts → IsWrittenOf Keyword.Drop texts result }
{
    match words {
        Words::One(class) => Some(Written::DropClass { class }),
        _ => None,
    }
}

// The line of a new link, after its first word.
fn link_line(words: Words<'_>) -> Option<Written<'_>>
    ensures { (texts : List (List ℕ)) → AreWords words.entry texts → IsWrittenOf Keyword.Link texts result }
{
    match words {
        Words::Three(class, less, parent) if is_word(less, b"<") => Some(Written::Link {
            class,
            parent,
        }),
        _ => None,
    }
}

// The line of a link that goes, after its first word.
fn unlink_line(words: Words<'_>) -> Option<Written<'_>>
    ensures { (texts : List (List ℕ)) → AreWords words.entry texts → IsWrittenOf Keyword.Unlink texts result }
{
    match words {
        Words::Three(class, less, parent) if is_word(less, b"<") => Some(Written::Unlink {
            class,
            parent,
        }),
        _ => None,
    }
}

// The line of a new selector, after its first word.
fn selector_line(words: Words<'_>) -> Option<Written<'_>>
    ensures { (texts : List (List ℕ)) → AreWords words.entry texts → IsWrittenOf Keyword.Selector texts result }
{
    match words {
        Words::Two(selector, arity) => {
            let arity = arity_of(arity)?;
            Some(Written::AddSelector { selector, arity })
        }
        _ => None,
    }
}

// The line of a selector that goes, after its first word.
fn forget_line(words: Words<'_>) -> Option<Written<'_>>
    ensures { (texts : List (List ℕ)) → AreWords words.entry texts → IsWrittenOf Keyword.Forget texts result }
{
    match words {
        Words::One(selector) => Some(Written::DropSelector { selector }),
        _ => None,
    }
}

// The line of a definition, after its first word.
fn define_line(rest: &[u8]) -> Option<Written<'_>>
    ensures { IsWrittenOf Keyword.Define (parts_at 32 rest.now) result }
{
    let (selector, rest) = cut_word(rest);
    let (classes, arrow, body) = classes_and_body(words_of(rest))?;
    let leads = is_word(arrow, b"->");
    if !leads {
        return None;
    }
    Some(Written::Define {
        selector,
        classes,
        body,
    })
}

// The line of a definition that goes, after its first word.
fn undefine_line(rest: &[u8]) -> Option<Written<'_>>
    ensures { IsWrittenOf Keyword.Undefine (parts_at 32 rest.now) result }
{
    let (selector, rest) = cut_word(rest);
    let classes = classes_of(words_of(rest))?;
    Some(Written::Undefine { selector, classes })
}

// The line of a call, after its first word.
fn call_line(rest: &[u8]) -> Option<Written<'_>>
    ensures { IsWrittenOf Keyword.Call (parts_at 32 rest.now) result }
{
    let (selector, rest) = cut_word(rest);
    let classes = classes_of(words_of(rest))?;
    Some(Written::Call { selector, classes })
}

// The line of a caller, after its first word.
fn caller_line(words: Words<'_>) -> Option<Written<'_>>
    ensures { (texts : List (List ℕ)) → AreWords words.entry texts → IsWrittenOf Keyword.Caller texts result }
{
    match words {
        Words::One(caller) => {
            let caller = caller_of(caller)?;
            Some(Written::Caller { caller })
        }
        _ => None,
    }
}

// One to four classes; `None` exactly where there are no or more words.
fn classes_of(words: Words<'_>) -> Option<Classes<'_>>
    ensures { (texts : List (List ℕ)) → AreWords words.entry texts →
        MatchOption result (IsTrue (is_from_one_to 4 (length texts)) → ⊥) (λ classes. texts_of_classes classes ≡ texts) }
{
    match words {
        Words::One(a) => Some(Classes::One(a)),
        Words::Two(a, b) => Some(Classes::Two(a, b)),
        Words::Three(a, b, c) => Some(Classes::Three(a, b, c)),
        Words::Four(a, b, c, d) => Some(Classes::Four(a, b, c, d)),
        _ => None,
    }
}

// One to four classes and two words more; `None` exactly where there are fewer or more words.
fn classes_and_body(words: Words<'_>) -> Option<(Classes<'_>, &[u8], &[u8])>
    ensures { (texts : List (List ℕ)) → AreWords words.entry texts →
        MatchOption result ((2 < length texts) × (length texts ≤ 6) → ⊥)
        (λ found. texts ≡ texts_of_classes found.0 ++ found.1.now ∷ found.2.now ∷ []) }
{
    match words {
        Words::Three(a, arrow, body) => Some((Classes::One(a), arrow, body)),
        Words::Four(a, b, arrow, body) => Some((Classes::Two(a, b), arrow, body)),
        Words::Five(a, b, c, arrow, body) => Some((Classes::Three(a, b, c), arrow, body)),
        Words::Six(a, b, c, d, arrow, body) => Some((Classes::Four(a, b, c, d), arrow, body)),
        _ => None,
    }
}

// The arity that is spelled so; `None` exactly where there is none.
fn arity_of(word: &[u8]) -> Option<Arity>
    ensures { MatchOption result ((arity : ℕ) → IsTrue (is_from_one_to 4 arity) → decimal arity ≡ word.now → ⊥)
        (λ arity. (decimal arity ≡ word.now) × IsTrue (is_from_one_to 4 arity)) }
{
    if word.len() != 1 {
        return None;
    }
    let digit = word[0];
    Arity::new(digit.checked_sub(b'0')?)
}

// The caller that is spelled so; `None` exactly where there is none.
fn caller_of(word: &[u8]) -> Option<u16>
    ensures { MatchOption result ((caller : ℕ) → IsTrue (is_from_one_to CALLERS caller) → decimal caller ≡ word.now → ⊥)
        (λ caller. (decimal caller ≡ word.now) × IsTrue (is_from_one_to CALLERS caller)) }
{
    let caller = number_of(word)?;
    let is_caller = 1 <= caller && caller <= CALLERS && is_number(word, caller);
    if is_caller { Some(caller) } else { None }
}

// The one number that may be spelled so: it is read more freely than numbers are spelled.
fn number_of(word: &[u8]) -> Option<u16>
    ensures { MatchOption result ((number : ℕ) → number < 2 ^ 16 → decimal number ≡ word.now → ⊥)
        (λ read. (number : ℕ) → number < 2 ^ 16 → decimal number ≡ word.now → number ≡ read) }
{
    match str::from_utf8(word) {
        Ok(text) => match text.parse::<u16>() {
            Ok(number) => Some(number),
            Err(_) => None,
        },
        Err(_) => None,
    }
}

// Whether the word spells the number.
fn is_number(word: &[u8], number: u16) -> bool
    ensures { IsTrue result ↔ (decimal number ≡ word.now) }
{
    let mut buffer = Buffer::new();
    buffer.format(number).as_bytes() == word
}
