ghost use Rattle.std.specs.Prelude.{◌≡◌, MatchOption};
ghost use Rattle.dt_script.specs.Keyword.{text_of_keyword};

/// The first word of a line.
#[derive(Clone, Copy)]
pub enum Keyword {
    Dispatch,
    Class,
    Drop,
    Link,
    Unlink,
    Selector,
    Forget,
    Define,
    Undefine,
    Begin,
    Commit,
    Phase,
    Caller,
    Call,
    Pin,
    Unpin,
    End,
}

/// The first word of a line that is spelled so; `None` exactly where there is none.
pub fn keyword_of(word: &[u8]) -> Option<Keyword>
    ensures { MatchOption result ((keyword : Keyword) → text_of_keyword keyword ≡ word.now → ⊥)
        (λ keyword. text_of_keyword keyword ≡ word.now) }
{
    match word {
        b"dispatch" => Some(Keyword::Dispatch),
        b"class" => Some(Keyword::Class),
        b"drop" => Some(Keyword::Drop),
        b"link" => Some(Keyword::Link),
        b"unlink" => Some(Keyword::Unlink),
        b"selector" => Some(Keyword::Selector),
        b"forget" => Some(Keyword::Forget),
        b"define" => Some(Keyword::Define),
        b"undefine" => Some(Keyword::Undefine),
        b"begin" => Some(Keyword::Begin),
        b"commit" => Some(Keyword::Commit),
        b"phase" => Some(Keyword::Phase),
        b"caller" => Some(Keyword::Caller),
        b"call" => Some(Keyword::Call),
        b"pin" => Some(Keyword::Pin),
        b"unpin" => Some(Keyword::Unpin),
        b"end" => Some(Keyword::End),
        _ => None,
    }
}
