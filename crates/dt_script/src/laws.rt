ghost use Rattle.dt_script.specs.NameBook.{empty_book};
ghost use Rattle.dt_script.specs.LawfulBook.{LawfulBook};
ghost use Rattle.dt_script.specs.Laws.{OneSpelling, ReadFromSpelling, WrittenAsRead, NoTwoLines, OneMeaning, StaysLawful, ReadAsWritten, GrowsByLine, GrowsOn, SpellingStays};

use dt_selectors::names_keep_their_numbers;

/// A line has one spelling in a book, and what a line was read from is its spelling in the book after it, so that it is
/// written as it was read. It does nothing: its contract is the law.
pub fn lines_have_one_spelling()
    ensures one { OneSpelling }
    ensures read { ReadFromSpelling }
    ensures written { WrittenAsRead }
{}

/// No two lines have one spelling in a book, and bytes mean one line at most after given names. It does nothing: its
/// contract is the law.
pub fn spellings_have_one_line()
    ensures line { NoTwoLines }
    ensures meaning { OneMeaning }
{
    names_keep_their_numbers();
}

/// What a line is spelled as in a book is this line again, and the book stays; the book without names is lawful, and a
/// lawful book is so after any line. It does nothing: its contract is the law.
pub fn written_lines_are_read_again()
    ensures again { ReadAsWritten }
    ensures empty { LawfulBook empty_book }
    ensures lawful { StaysLawful }
{
    names_keep_their_numbers();
}

/// A line adds names at the end of a book, and in a book that grew so each line is spelled as before. It does nothing: its
/// contract is the law.
pub fn names_keep_their_spellings()
    ensures line { GrowsByLine }
    ensures on { GrowsOn }
    ensures spelling { SpellingStays }
{}
