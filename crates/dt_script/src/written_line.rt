ghost use Rattle.std.specs.Prelude.{◌≡◌};
ghost use Rattle.std.specs.List.{list_all};
ghost use Rattle.dt_selectors.specs.Names.{is_name};
ghost use Rattle.dt_script.specs.Cut.{parts_at};
ghost use Rattle.dt_script.specs.WrittenLine.{IsWrittenLine};

use crate::keyword::keyword_of;
use crate::words::cut_word;
use crate::written::{Written, written_after};
use dt_selectors::Names;

/// The line that the bytes are, with its names as they stand there; `None` exactly where there is none.
pub fn written_line(bytes: &[u8]) -> Option<Written<'_>>
    ensures { IsWrittenLine bytes.now result }
{
    if !are_words(bytes) {
        return None;
    }
    let (first, rest) = cut_word(bytes);
    written_after(keyword_of(first)?, rest)
}

// Whether each part between the spaces is a word.
fn are_words(bytes: &[u8]) -> bool
    ensures { result ≡ list_all is_name (parts_at 32 bytes.now) }
{
    let mut left = bytes;
    loop {
        let (word, rest) = cut_word(left);
        if !Names::is_name(word) {
            return false;
        }
        match rest {
            None => return true,
            Some(more) => left = more,
        }
    }
}
