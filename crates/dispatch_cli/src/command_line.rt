ghost use Rattle.std.specs.Prelude.{◌≡◌, ◌≢◌, [], IfOk, MatchResult, map, drop, string_bytes};
ghost use Rattle.std.specs.Vec.Iter.{into_iter_items};
ghost use Rattle.std.specs.IoError.{error_kind};

use dt_graph::NoMemory;
use dt_words::ArgWords;
use std::alloc::Global;
use std::env::Args;
use std::io;
use std::io::ErrorKind;

// The words of these arguments: all but the first, which is the program's name.
fn words_after_name(alloc: Global, mut args: Args) -> Result<ArgWords, NoMemory>
    ensures { IfOk result (λ words. words ≡ drop 1 (map string_bytes (into_iter_items args))) }
{
    let mut words = ArgWords::new(alloc);
    let _name = args.next();
    for word in args {
        words.push(word.as_str())?;
    }
    Ok(words)
}

/// The words of the command line that the machine gave. Where one of its arguments is no text, no word is handed on,
/// since no command is without words either.
///
/// # Errors
///
/// [`NoMemory`] where memory was wanting, here or while the arguments were copied.
pub fn words_of(alloc: Global, args: io::Result<Args>) -> Result<ArgWords, NoMemory>
    ensures { MatchResult args
        (λ all. IfOk result (λ words. words ≡ drop 1 (map string_bytes (into_iter_items all))))
        (λ error. MatchResult result (λ words. (words ≡ []) × (error_kind error ≢ ErrorKind.OutOfMemory)) (λ _. error_kind error ≡ ErrorKind.OutOfMemory)) }
{
    match args {
        Ok(args) => words_after_name(alloc, args),
        Err(error) if error.kind() == ErrorKind::OutOfMemory => Err(NoMemory),
        Err(_) => Ok(ArgWords::new(alloc)),
    }
}
