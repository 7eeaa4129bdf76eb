ghost use Rattle.std.specs.Prelude.{◌≡◌, ℕ, List, [], IfOk, codes, drop, string_bytes, true, false};
ghost use Rattle.std.specs.List.{list_any};
ghost use Rattle.clap.specs.Words.{app_of, is_simple_and_free, kind_of};
ghost use Rattle.clap.specs.declared.error.kind.ErrorKind.TheVariants.{OutOfMemory};
ghost use Rattle.dt_words.specs.CommandOf.{gen_names, run_names};
ghost use Rattle.dt_words.specs.Parsed.{ParsedBy, is_stray, option_rule, options_app};
ghost use Rattle.dt_words.specs.declared.words_fault.WordsFault.TheVariants.{Usage};
ghost use Rattle.clap.specs.Simple.{with_rule};

use crate::arg_words::ArgWords;
use crate::words_fault::WordsFault;
use clap::error::ErrorKind;
use clap::{Arg, ArgMatches, Command as Parser, Error};
use std::alloc::{AllocError, Global};

// Whether the parser would read `--`, `-` or short options in the word.
fn is_stray(word: &str) -> bool
    ensures { result ≡ is_stray word.now }
{
    match word.as_bytes() {
        [b'-', b'-', _, ..] => false,
        [b'-', ..] => true,
        _ => false,
    }
}

// Whether one of the texts is such a word.
fn is_any_stray(texts: &[String]) -> bool
    ensures { result ≡ list_any (λ text. is_stray (string_bytes text)) texts.now }
{
    texts.iter().any(|text| is_stray(text.as_str()))
}

// Whether one of the words is no option's word, but begins with a hyphen.
pub(crate) fn has_stray(words: &ArgWords) -> bool
    ensures { result ≡ list_any is_stray words.now }
{
    is_any_stray(words.texts())
}

// The parser with one option more.
fn with_option<'a>(
    parser: Parser<'a>,
    alloc: Global,
    name: &'a str,
) -> Result<Parser<'a>, AllocError>
    ensures { IfOk result (λ r. app_of r ≡ with_rule (app_of parser.entry) (option_rule name.entry.now)) }
{
    parser.arg(Arg::new(alloc, name).long(name))
}

// A parser without options, and without help.
fn no_options<'a>(alloc: Global, command: &'a str) -> Parser<'a>
    ensures { app_of result ≡ options_app command.entry.now [] }
{
    Parser::new(alloc, command).disable_help_flag(true)
}

// The parser of the options of `run`.
pub(crate) fn run_options<'a>(alloc: Global) -> Result<Parser<'a>, AllocError>
    ensures { IfOk result (λ r. app_of r ≡ options_app (codes "run") run_names) }
{
    let parser = with_option(no_options(alloc, "run"), alloc, "table")?;
    let parser = with_option(parser, alloc, "readers")?;
    let parser = with_option(parser, alloc, "pages")?;
    with_option(parser, alloc, "limit")
}

// The parser of the options of `gen`.
pub(crate) fn gen_options<'a>(alloc: Global) -> Result<Parser<'a>, AllocError>
    ensures { IfOk result (λ r. app_of r ≡ options_app (codes "gen") gen_names) }
{
    let parser = with_option(no_options(alloc, "gen"), alloc, "table")?;
    let parser = with_option(parser, alloc, "number")?;
    let parser = with_option(parser, alloc, "classes")?;
    with_option(parser, alloc, "selectors")
}

// What the parser's error says of the words.
fn fault_of(error: &Error) -> WordsFault
    ensures { result ≡ Usage → kind_of error.now ≡ OutOfMemory → ⊥ }
{
    match error.kind() {
        ErrorKind::OutOfMemory => WordsFault::NoMemory,
        _ => WordsFault::Usage,
    }
}

// The values of the options that the words write after the first word.
pub(crate) fn parse<'a>(
    parser: Parser<'a>,
    words: &'a ArgWords,
) -> Result<ArgMatches<'a>, WordsFault>
    requires { list_any is_stray (drop 1 words.now) ≡ false }
    ensures { (command : List ℕ) (names : List (List ℕ)) → app_of parser.entry ≡ options_app command names
        → is_simple_and_free (options_app command names) ≡ true
        → ParsedBy names (drop 1 words.entry.now) result }
{
    match parser.try_get_matches_from(words.texts()) {
        Ok(matches) => Ok(matches),
        Err(error) => Err(fault_of(&error)),
    }
}
