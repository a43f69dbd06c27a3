//! The words of the command line, and what they ask for.

ghost use Rattle.std.specs.Prelude.{◌≡◌, ◌≢◌, ◌↔◌, ◌||◌, is_some, None, codes, string_bytes, IfOk, MatchOption};
ghost use Rattle.std.specs.List.{list_any};
ghost use Rattle.std.specs.Str.{bytes_eq};
ghost use Rattle.clap.specs.Simple.{app_of, with_rule};
ghost use Rattle.clap.specs.declared.error.kind.ErrorKind.TheVariants.{OutOfMemory};
ghost use Rattle.cb_script.specs.Found.{Finds};
ghost use Rattle.cb_cli.specs.Given.{AreFound, GivenAsks, GivesPlan, IsCount, IsPlanOf};
ghost use Rattle.cb_cli.specs.Reader.{option_rule, reader, word_reader};
ghost use Rattle.cb_cli.specs.Words.{command_word, WordsAsk, NameNone};
ghost use Rattle.cb_cli.specs.declared.words.Asked.{Asked};
ghost use Rattle.cb_cli.specs.declared.words.Command.{Command};

use cb_script::number_of;
use cb_types::NoMemory;
use clap::error::ErrorKind;
use clap::{Arg, ArgAction, ArgMatches};
use std::alloc::Global;

/// A drawn script has so many lines at the most, and so many lanes.
const MOST_LINES: u32 = 4000;

const MOST_LANES: u32 = 15;

/// What takes the bytes of a source.
#[derive(Clone, Copy, Debug, PartialEq, Eq)]
pub enum Command {
    /// Answer the lines of a script, in order, on one thread.
    Seq,
    /// Answer the lines of each lane in a thread of its own, beside the four workers.
    Threads,
    /// Answer them, with parities made by the compute side where two sets become one, and tell how
    /// many rows the nodes gave out.
    Local,
    /// Read a script, and tell how many lines and lanes it has.
    Check,
    /// Run a schedule of remote orders, and tell what is said to each event.
    Rma,
    /// Examine the rows of a span-set, and make one wrong row right.
    Scrub,
    /// Answer commands on one far array and one far map of numbers.
    Map,
}

/// A script that is to be drawn: from this seed, of 1 to 4,000 lines on 1 to 15 lanes.
#[derive(Clone, Copy, Debug, PartialEq, Eq)]
pub struct Plan {
    pub seed: u32,
    pub lines: u32,
    pub lanes: u32,
}

/// What the words of the command line ask for.
#[derive(Clone, Copy, Debug, PartialEq, Eq)]
pub enum Asked {
    /// Run a command on the bytes of the source.
    Run(Command),
    /// Draw a script, answer its lines, and tell a summary.
    Draw(Plan),
}

/// The word and the values of options that a command line has.
#[derive(Clone, Copy)]
struct Given<'a> {
    word: Option<&'a str>,
    seed: Option<&'a str>,
    lines: Option<&'a str>,
    lanes: Option<&'a str>,
}

/// What the words ask for, and None exactly where they ask for nothing.
pub fn asked_of(alloc: Global, words: &[String]) -> Result<Option<Asked>, NoMemory>
    ensures { IfOk result (λ found. MatchOption found (NameNone words.now) (WordsAsk words.now)) }
{
    match given_of(alloc, words) {
        Ok(Some(given)) => Ok(asked_by(given)),
        Ok(None) => Ok(None),
        Err(refused) => Err(refused),
    }
}

/// What is given by words that are a word and options. Words that ask for something are.
fn given_of<'a>(alloc: Global, words: &'a [String]) -> Result<Option<Given<'a>>, NoMemory>
    ensures { IfOk result (λ found. MatchOption found (NameNone words.entry.now)
        (λ given. (asked : Asked) → (WordsAsk words.entry.now asked ↔ GivenAsks given asked))) }
{
    // clap would pass over this word.
    if has_two_dashes(words) {
        return Ok(None);
    }
    let reader = reader(alloc)?;
    match reader.try_get_matches_from(words) {
        Ok(matches) => Ok(Some(given_in(&matches))),
        Err(error) => nothing_given(error.kind()),
    }
}

/// What was given, by what clap found.
fn given_in<'a>(matches: &ArgMatches<'a>) -> Given<'a>
    ensures { AreFound matches.now result }
{
    Given {
        word: matches.get_str("command"),
        seed: matches.get_str("seed"),
        lines: matches.get_str("lines"),
        lanes: matches.get_str("lanes"),
    }
}

/// Nothing was given, where this is why clap refused the words.
fn nothing_given<'a>(kind: ErrorKind) -> Result<Option<Given<'a>>, NoMemory>
    ensures { IfOk result (λ found. (found ≡ None) × (kind ≢ OutOfMemory)) }
{
    if kind == ErrorKind::OutOfMemory {
        return Err(NoMemory);
    }
    Ok(None)
}

/// The reader of one word, and of each of the options of `gen` once at the most.
fn reader<'a>(alloc: Global) -> Result<clap::Command<'a>, NoMemory>
    ensures { IfOk result (λ made. app_of made ≡ reader) }
{
    let word = word_reader(alloc)?;
    let seed = with_option(alloc, word, "seed")?;
    let lines = with_option(alloc, seed, "lines")?;
    with_option(alloc, lines, "lanes")
}

/// The reader with one option more.
fn with_option<'a>(
    alloc: Global,
    reader: clap::Command<'a>,
    name: &'a str,
) -> Result<clap::Command<'a>, NoMemory>
    ensures { IfOk result (λ made. app_of made
        ≡ with_rule (app_of reader.entry) (option_rule name.entry.now)) }
{
    let option = Arg::new(alloc, name).long(name).action(ArgAction::Set);
    Ok(reader.arg(option)?)
}

/// The reader of one word that has to be there, and of no option.
fn word_reader<'a>(alloc: Global) -> Result<clap::Command<'a>, NoMemory>
    ensures { IfOk result (λ made. app_of made ≡ word_reader) }
{
    let word = Arg::new(alloc, "command")
        .required(true)
        .action(ArgAction::Set);
    let reader = clap::Command::new(alloc, "carbink")
        .no_binary_name(true)
        .disable_help_flag(true)
        .disable_version_flag(true)
        .arg(word)?;
    Ok(reader)
}

/// Whether one of the words is two dashes.
fn has_two_dashes(words: &[String]) -> bool
    ensures { result ≡ list_any (λ word. bytes_eq (string_bytes word) (codes "--")) words.now }
{
    words.iter().any(|word| word.as_str() == "--")
}

/// What is asked for by what was given.
fn asked_by(given: Given) -> Option<Asked>
    ensures { Finds result (GivenAsks given.entry) }
{
    let word = given.word?;
    if word == "gen" {
        return Some(Asked::Draw(plan_in(&given)?));
    }
    if has_option(&given) {
        return None;
    }
    Some(Asked::Run(named(word)?))
}

/// Whether one of the options was given.
fn has_option(given: &Given) -> bool
    ensures { result ≡ (is_some given.now.seed || is_some given.now.lines || is_some given.now.lanes) }
{
    given.seed.is_some() || given.lines.is_some() || given.lanes.is_some()
}

/// The plan of the options that were given, where all three were.
fn plan_in(given: &Given) -> Option<Plan>
    ensures { Finds result (GivesPlan given.now) }
{
    plan_of(given.seed?, given.lines?, given.lanes?)
}

/// The plan of these values, where each is a number in its range.
fn plan_of(seed: &str, lines: &str, lanes: &str) -> Option<Plan>
    ensures { Finds result (IsPlanOf seed.now lines.now lanes.now) }
{
    let seed = number_of(seed.as_bytes())?;
    let lines = count_of(lines, MOST_LINES)?;
    let lanes = count_of(lanes, MOST_LANES)?;
    Some(Plan { seed, lines, lanes })
}

/// The number that the text spells, from 1 on and at the most this.
fn count_of(text: &str, most: u32) -> Option<u32>
    ensures { Finds result (IsCount text.now most) }
{
    let count = number_of(text.as_bytes())?;
    if count < 1 {
        return None;
    }
    if count > most {
        return None;
    }
    Some(count)
}

/// The command of a word.
fn named(word: &str) -> Option<Command>
    ensures { MatchOption result
        ((command : Command) → word.now ≡ command_word command → ⊥)
        (λ command. word.now ≡ command_word command) }
{
    match word {
        "seq" => Some(Command::Seq),
        "threads" => Some(Command::Threads),
        "local" => Some(Command::Local),
        "check" => Some(Command::Check),
        "rma" => Some(Command::Rma),
        "scrub" => Some(Command::Scrub),
        "map" => Some(Command::Map),
        _ => None,
    }
}
