ghost use Rattle.std.specs.Prelude.{◌≡◌, ◌<◌, ◌^◌};
ghost use Rattle.dt_cells.specs.Cell.{cell_word, answer_of_code, answer_of_word};

use dt_scratch::Answer;
use dt_selectors::BodyNo;

// By how many bits a tag stands above the code.
const TAG: u32 = 32;

// The code of an ambiguous answer.
const AMBIGUOUS: u64 = 1;

// The code of the body with number 0.
const FIRST_BODY: u64 = 2;

/// The word of a cell that answers so under this tag, or 0 for what isn't understood.
pub fn word_of_answer(tag: u32, answer: Answer) -> u64
    ensures { result ≡ cell_word tag answer }
{
    let tag = u64::from(tag) << TAG;
    match answer {
        Answer::NotUnderstood => 0,
        Answer::Ambiguous => tag + AMBIGUOUS,
        Answer::Method { body } => tag + (u64::from(body.number()) + FIRST_BODY),
    }
}

// The answer of a code. A code that stands for nothing is not understood.
fn answer_by_code(code: u64) -> Answer
    ensures { result ≡ answer_of_code code }
{
    match code {
        0 => Answer::NotUnderstood,
        AMBIGUOUS => Answer::Ambiguous,
        FIRST_BODY..=65537 => Answer::Method {
            body: BodyNo::new((code - FIRST_BODY) as u16),
        },
        _ => Answer::NotUnderstood,
    }
}

/// The answer that the word of a cell gives to a look-up with this tag.
pub fn answer_by_word(tag: u32, word: u64) -> Answer
    ensures { result ≡ answer_of_word tag word }
{
    if word >> TAG == u64::from(tag) {
        answer_by_code(word % (1 << TAG))
    } else {
        Answer::NotUnderstood
    }
}
