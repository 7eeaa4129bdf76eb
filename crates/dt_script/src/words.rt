ghost use Rattle.std.specs.Prelude.{◌≡◌, ◌<◌, ◌↔◌, [], ◌∷◌, IsTrue, MatchOption, length};
ghost use Rattle.std.specs.Option.{option_copied};
ghost use Rattle.dt_script.specs.Cut.{parts_at};
ghost use Rattle.dt_script.specs.Words.{AreWords, words_left};

use crate::cut::cut;

/// The words that are left of a line, where there are at most six.
#[derive(Clone, Copy)]
pub enum Words<'a> {
    None,
    One(&'a [u8]),
    Two(&'a [u8], &'a [u8]),
    Three(&'a [u8], &'a [u8], &'a [u8]),
    Four(&'a [u8], &'a [u8], &'a [u8], &'a [u8]),
    Five(&'a [u8], &'a [u8], &'a [u8], &'a [u8], &'a [u8]),
    Six(&'a [u8], &'a [u8], &'a [u8], &'a [u8], &'a [u8], &'a [u8]),
    More,
}

/// The words that are left of a line.
pub fn words_of(rest: Option<&[u8]>) -> Words<'_>
    ensures { AreWords result (words_left (option_copied rest.entry)) }
{
    match rest {
        None => Words::None,
        Some(bytes) => words_between_spaces(bytes),
    }
}

// The words between the spaces of the bytes.
fn words_between_spaces(bytes: &[u8]) -> Words<'_>
    ensures { AreWords result (parts_at 32 bytes.now) }
{
    let (first, rest) = cut_word(bytes);
    let Some(rest) = rest else {
        return Words::One(first);
    };
    let (second, rest) = cut_word(rest);
    let Some(rest) = rest else {
        return Words::Two(first, second);
    };
    let (third, rest) = cut_word(rest);
    let Some(rest) = rest else {
        return Words::Three(first, second, third);
    };
    let (fourth, rest) = cut_word(rest);
    let Some(rest) = rest else {
        return Words::Four(first, second, third, fourth);
    };
    let (fifth, rest) = cut_word(rest);
    let Some(rest) = rest else {
        return Words::Five(first, second, third, fourth, fifth);
    };
    let (sixth, rest) = cut_word(rest);
    match rest {
        None => Words::Six(first, second, third, fourth, fifth, sixth),
        Some(_) => Words::More,
    }
}

/// The first word of the bytes, and what follows the space after it.
pub fn cut_word(bytes: &[u8]) -> (&[u8], Option<&[u8]>)
    ensures { MatchOption result.1 (parts_at 32 bytes.now ≡ result.0.now ∷ [])
        (λ rest. parts_at 32 bytes.now ≡ result.0.now ∷ parts_at 32 rest.now) }
{
    cut(bytes, b' ')
}

/// Whether the word is this text.
pub fn is_word(word: &[u8], text: &[u8]) -> bool
    ensures { IsTrue result ↔ (word.now ≡ text.now) }
{
    word == text
}
