//! The words of the command line: SCRIPT [--workers N] [--cache N] [--journal N].

ghost use Rattle.std.specs.Prelude.{◌≡◌, ◌≤◌, IfOk, IfSome, map, string_bytes, false};
ghost use Rattle.clap.specs.Walk.{rows_of};
ghost use Rattle.clap.specs.Words.{app_of, found_of, one_of, rule_of};
ghost use Rattle.work_gen.specs.Answer.{IsCount};
ghost use Rattle.timeline_app.specs.Words.{script_rule, number_rule, command, begins_with, made_frames, is_name, IsNumber, AsksBy, ReadsWords, WantsThreads};

use clap::builder::ValueParser;
use clap::error::ErrorKind;
use clap::{Arg, ArgAction, ArgMatches, Command};
use std::alloc::{AllocError, Global};
use text_words::number;
use tl_limits::{
    MAX_CACHE, MAX_JOURNAL, MAX_WORKERS, MIN_JOURNAL, USUAL_CACHE, USUAL_JOURNAL, USUAL_WORKERS,
};

/// What the words ask for: the name of the script, how many workers there are, how many results are kept, and how many
/// entries the journal may have.
#[derive(Clone, Copy, Debug, PartialEq, Eq)]
pub struct Asked<'a> {
    pub script: &'a str,
    pub workers: u32,
    pub cache: u32,
    pub journal: u64,
}

/// The least and the most number that an option takes, and the one where it isn't given.
#[derive(Clone, Copy, Debug, PartialEq, Eq)]
struct Bounds {
    least: u64,
    most: u64,
    usual: u64,
}

const WORKERS: Bounds = Bounds {
    least: 0,
    most: MAX_WORKERS as u64,
    usual: USUAL_WORKERS as u64,
};

const CACHE: Bounds = Bounds {
    least: 1,
    most: MAX_CACHE as u64,
    usual: USUAL_CACHE as u64,
};

const JOURNAL: Bounds = Bounds {
    least: MIN_JOURNAL,
    most: MAX_JOURNAL,
    usual: USUAL_JOURNAL,
};

/// The most frames of a clip that is made.
const MOST_FRAMES: u32 = 1000;

/// SCRIPT.
fn script_argument<'a>(alloc: Global) -> Arg<'a>
    ensures rule { rule_of result ≡ script_rule }
    ensures global { result.global ≡ false }
{
    Arg::new(alloc, "SCRIPT")
        .required(true)
        .action(ArgAction::Set)
}

/// An option with a number.
fn number_argument<'a>(alloc: Global, id: &'a str, bounds: Bounds) -> Arg<'a>
    ensures rule { rule_of result ≡ number_rule id.now bounds }
    ensures global { result.global ≡ false }
{
    Arg::new(alloc, id)
        .long(id)
        .action(ArgAction::Set)
        .value_parser(ValueParser::unsigned(bounds.least, bounds.most))
}

/// The command.
fn command<'a>(alloc: Global) -> Result<Command<'a>, AllocError>
    ensures { IfOk result (λ made. app_of made ≡ command) }
{
    let script = Command::new(alloc, "timeline")
        .no_binary_name(true)
        .arg(script_argument(alloc))?;
    let workers = script.arg(number_argument(alloc, "workers", WORKERS))?;
    let cache = workers.arg(number_argument(alloc, "cache", CACHE))?;
    let journal = cache.arg(number_argument(alloc, "journal", JOURNAL))?;
    Ok(journal)
}

/// The number of an option. The command accepts no other than those within the bounds.
fn number_of(matches: &ArgMatches, id: &str, bounds: Bounds) -> u64
    requires least { bounds.least ≤ bounds.usual }
    requires most { bounds.usual ≤ bounds.most }
    ensures { IsNumber bounds (one_of id.now (rows_of (found_of matches.now))) result }
{
    match matches.get_one::<u64>(id) {
        None => bounds.usual,
        Some(n) => within(n, bounds),
    }
}

/// The number, or the usual one where it isn't within the bounds.
fn within(n: u64, bounds: Bounds) -> u64
    requires least { bounds.least ≤ bounds.usual }
    requires most { bounds.usual ≤ bounds.most }
    ensures same { bounds.least ≤ n → n ≤ bounds.most → result ≡ n }
    ensures least { bounds.least ≤ result }
    ensures most { result ≤ bounds.most }
{
    if n < bounds.least {
        return bounds.usual;
    }
    if bounds.most < n {
        return bounds.usual;
    }
    n
}

/// Whether a text begins with another.
fn begins_with(front: &str, text: &str) -> bool
    ensures { result ≡ begins_with front.now text.now }
{
    let count = front.len();
    let bytes = text.as_bytes();
    let first = if bytes.len() < count {
        bytes
    } else {
        &bytes[..count]
    };
    first == front.as_bytes()
}

/// How many frames the clip has that is made for a script of this name: N for `gen:N`, where N is from 1 to 1,000 and has no zeros before
/// it. Other names have none.
#[tactic(auto, unfolding(crate::specs::Words::made_frames))]
pub fn made_frames(script: &str) -> Option<u32>
    ensures exact { result ≡ made_frames script.now }
    ensures count { IfSome result IsCount }
{
    if begins_with("gen:", script) && !begins_with("gen:0", script) {
        number(4, 1, MOST_FRAMES, &script.as_bytes()[4..])
    } else {
        None
    }
}

/// Whether a script may have this name: one that begins with `gen:` has to go on with a number.
fn is_name(script: &str) -> bool
    ensures { result ≡ is_name script.now }
{
    if begins_with("gen:", script) {
        made_frames(script).is_some()
    } else {
        true
    }
}

/// What the matches of the command ask for. None comes where the script's name is wrong.
fn asked_by<'a>(matches: &ArgMatches<'a>) -> Option<Asked<'a>>
    ensures { AsksBy (rows_of (found_of matches.now)) result }
{
    let Some(script) = matches.get_str("SCRIPT") else {
        return None;
    };
    if !is_name(script) {
        return None;
    }
    Some(Asked {
        script,
        workers: number_of(matches, "workers", WORKERS) as u32,
        cache: number_of(matches, "cache", CACHE) as u32,
        journal: number_of(matches, "journal", JOURNAL),
    })
}

/// Reads the words after the program's name. None comes exactly where they aren't of the form: the command doesn't accept them, or
/// SCRIPT begins with `gen:` and doesn't go on with a number from 1 to 1,000 without zeros before it.
pub fn read_words<'a>(alloc: Global, words: &'a [String]) -> Result<Option<Asked<'a>>, AllocError>
    ensures { ReadsWords (map string_bytes words.now) result }
{
    let command = command(alloc)?;
    match command.try_get_matches_from(words) {
        Ok(matches) => Ok(asked_by(&matches)),
        Err(error) => {
            if error.kind() == ErrorKind::OutOfMemory {
                Err(AllocError)
            } else {
                Ok(None)
            }
        }
    }
}

/// Whether the words ask for a session with workers: true exactly where they are of the form and the number of workers is at
/// least 1.
pub fn wants_threads(alloc: Global, words: &[String]) -> Result<bool, AllocError>
    ensures { WantsThreads (map string_bytes words.now) result }
{
    match read_words(alloc, words)? {
        None => Ok(false),
        Some(asked) => Ok(asked.workers >= 1),
    }
}
