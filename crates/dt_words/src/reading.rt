ghost use Rattle.std.specs.Prelude.{◌≡◌, ◌≤◌, ℕ, List, Some, None, IfOk, IfErr, MatchResult, codes, drop, option_and_then, option_map, false, IfSome};
ghost use Rattle.std.specs.List.{list_any};
ghost use Rattle.dt_words.specs.CommandOf.{command_of, gen_names, gen_of, given_number, limits_of, number_or, run_names, run_of, table_of, IsSized};
ghost use Rattle.dt_words.specs.Options.{Given, options_of, value_of};
ghost use Rattle.dt_words.specs.Parsed.{HasGiven, is_stray};
ghost use Rattle.dt_words.specs.declared.words_fault.WordsFault.TheVariants.{Usage};

use crate::arg_words::ArgWords;
use crate::command::{
    Command, GENERATED_CLASSES, GENERATED_SELECTORS, LEAST_GENERATED_CLASSES, Table,
};
use crate::limits::{
    ENTRIES, ENTRIES_UNLESS_GIVEN, LEAST_PAGES, Limits, PAGES, PAGES_UNLESS_GIVEN, READERS,
    READERS_UNLESS_GIVEN, VERSIONS,
};
use crate::number::number_in;
use crate::options::{gen_options, has_stray, parse, run_options};
use crate::words_fault::WordsFault;
use clap::ArgMatches;
use std::alloc::Global;

// The kind of table of this name.
fn table_of(name: &str) -> Option<Table>
    ensures { result ≡ table_of name.now }
{
    if name == "sti" {
        return Some(Table::Sti);
    }
    if name == "colour" {
        return Some(Table::Colour);
    }
    if name == "row" {
        return Some(Table::Row);
    }
    if name == "mrd" {
        return Some(Table::Mrd);
    }
    None
}

// The number that the option has, or the one that stands where it isn't given.
fn number_or(value: Option<&str>, least: u64, most: u64, unless_given: u64) -> Option<u64>
    requires most { unless_given ≤ most }
    requires least { least ≤ unless_given }
    ensures value { result ≡ number_or least most unless_given (option_map (λ s. s.now) value.entry) }
    ensures in_range { IfSome result (λ n. (least ≤ n) × (n ≤ most)) }
{
    match value {
        Some(text) => number_in(text, least, most),
        None => Some(unless_given),
    }
}

// The number that the option has.
fn given_number(value: Option<&str>, least: u64, most: u64) -> Option<u64>
    ensures value { result ≡ given_number least most (option_map (λ s. s.now) value.entry) }
    ensures in_range { IfSome result (λ n. (least ≤ n) × (n ≤ most)) }
{
    number_in(value?, least, most)
}

// The limits that the options give.
fn limits_of(matches: &ArgMatches<'_>) -> Option<Limits>
    ensures { (given : List Given) → HasGiven matches.now given → result ≡ limits_of given }
{
    let readers = number_or(
        matches.get_str("readers"),
        1,
        READERS as u64,
        READERS_UNLESS_GIVEN as u64,
    )?;
    let pages = number_or(
        matches.get_str("pages"),
        LEAST_PAGES as u64,
        PAGES as u64,
        PAGES_UNLESS_GIVEN as u64,
    )?;
    let entries = number_or(
        matches.get_str("limit"),
        1,
        ENTRIES as u64,
        ENTRIES_UNLESS_GIVEN as u64,
    )?;
    Some(Limits::in_range(readers as u16, pages as u32, entries as u32, VERSIONS))
}

// The table that the options give.
fn given_table(matches: &ArgMatches<'_>) -> Option<Table>
    ensures { (given : List Given) → HasGiven matches.now given → result ≡ option_and_then table_of (value_of (codes "table") given) }
{
    table_of(matches.get_str("table")?)
}

// The command `run` with these options.
fn run_of(matches: &ArgMatches<'_>) -> Option<Command>
    ensures value { (given : List Given) → HasGiven matches.now given → result ≡ run_of given }
    ensures sized { IfSome result IsSized }
{
    let table = given_table(matches)?;
    let limits = limits_of(matches)?;
    Some(Command::Run { table, limits })
}

// The command `gen` with these options.
fn gen_of(matches: &ArgMatches<'_>) -> Option<Command>
    ensures value { (given : List Given) → HasGiven matches.now given → result ≡ gen_of given }
    ensures sized { IfSome result IsSized }
{
    let table = given_table(matches)?;
    let number = given_number(matches.get_str("number"), 0, u32::MAX as u64)?;
    let classes = given_number(
        matches.get_str("classes"),
        LEAST_GENERATED_CLASSES as u64,
        GENERATED_CLASSES as u64,
    )?;
    let selectors = given_number(matches.get_str("selectors"), 1, GENERATED_SELECTORS as u64)?;
    Some(Command::Gen {
        table,
        number: number as u32,
        classes: classes as u16,
        selectors: selectors as u16,
    })
}

// The command `run` with the options of the words after the first.
fn read_run(alloc: Global, words: &ArgWords) -> Result<Command, WordsFault>
    requires { list_any is_stray (drop 1 words.now) ≡ false }
    ensures sized { IfOk result IsSized }
    ensures command { MatchResult result
        (λ command. option_and_then run_of (options_of run_names (drop 1 words.now)) ≡ Some command)
        (λ fault. fault ≡ Usage → option_and_then run_of (options_of run_names (drop 1 words.now)) ≡ None) }
{
    let parser = run_options(alloc)?;
    let matches = parse(parser, words)?;
    match run_of(&matches) {
        Some(command) => Ok(command),
        None => Err(WordsFault::Usage),
    }
}

// The command `gen` with the options of the words after the first.
fn read_gen(alloc: Global, words: &ArgWords) -> Result<Command, WordsFault>
    requires { list_any is_stray (drop 1 words.now) ≡ false }
    ensures sized { IfOk result IsSized }
    ensures command { MatchResult result
        (λ command. option_and_then gen_of (options_of gen_names (drop 1 words.now)) ≡ Some command)
        (λ fault. fault ≡ Usage → option_and_then gen_of (options_of gen_names (drop 1 words.now)) ≡ None) }
{
    let parser = gen_options(alloc)?;
    let matches = parse(parser, words)?;
    match gen_of(&matches) {
        Some(command) => Ok(command),
        None => Err(WordsFault::Usage),
    }
}

/// The command that the words write.
///
/// # Errors
///
/// [`WordsFault::Usage`] exactly where the words write no command and memory was found; [`WordsFault::NoMemory`] where
/// none was found to read them, which says nothing of the words.
///
/// # Cost
///
/// Linear in the bytes of the words; memory for a parser of four options and what they were given, which is given back.
pub fn read_words(alloc: Global, words: &ArgWords) -> Result<Command, WordsFault>
    ensures command { IfOk result (λ command. command_of words.now ≡ Some command) }
    ensures sized { IfOk result IsSized }
    ensures usage { IfErr result (λ fault. fault ≡ Usage → command_of words.now ≡ None) }
{
    if has_stray(words) {
        return Err(WordsFault::Usage);
    }
    let Some(first) = words.word(1) else {
        return Err(WordsFault::Usage);
    };
    if first == "run" {
        return read_run(alloc, words);
    }
    if first == "gen" {
        return read_gen(alloc, words);
    }
    Err(WordsFault::Usage)
}
