//! The stop line: why a script stopped at one of its lines.

ghost use Rattle.std.specs.Prelude.{◌≡◌, ◌≢◌, ◌≤◌, ◌∷◌, [], Err, IfOk, IfSome, IsTrue};
ghost use Rattle.tl_ports.specs.declared.fault.FetchFault.TheVariants as fetching;
ghost use Rattle.script_lang.specs.Line.{is_listed};
ghost use Rattle.play_head.specs.declared.halt.Halt.TheVariants as halt;
ghost use Rattle.play_head.specs.PlayingLine.{file_wanted};
ghost use Rattle.play_head.specs.PlayingScript.{StopsBy, list_of, stop_lines, store_word};

use crate::halt::Halt;
use crate::say::say;
use crate::stop::{Stop, stop_of};
use script_lang::{Call, OutLine};
use std::alloc::{AllocError, Global};
use tl_model::Name;
use tl_ports::{FetchFault, PutFault, Sink};

/// How playing a script ended: why it stopped, if it did, and whether a put to `out` failed or memory for a line ran out,
/// after which nothing more is put there.
#[derive(Clone, Copy, Debug, PartialEq, Eq)]
pub struct Playback {
    pub result: Result<(), Stop>,
    pub is_silenced: bool,
}

/// The word for a file that wasn't fetched.
pub fn store_word(fault: FetchFault) -> &'static str
    ensures { result.now ≡ store_word fault }
{
    match fault {
        FetchFault::Failed => "Failed",
        FetchFault::Missing => "Missing",
        FetchFault::TooLarge { limit: _ } => "TooLarge",
        FetchFault::NoMemory => "NoMemory",
    }
}

fn store_kind(alloc: Global, fault: FetchFault) -> Result<Name, AllocError>
    ensures { IfOk result (λ name. name ≡ store_word fault) }
{
    let text = String::from_str(alloc, store_word(fault))?;
    Ok(Name::from_text(text))
}

/// The name of the file that a line reads, empty for a line that reads none.
fn file_read(alloc: Global, call: &Call) -> Result<Name, AllocError>
    ensures { IfOk result (λ name. name ≡ (file_wanted call.now).name) }
{
    match call {
        Call::Edl { file } => file.copy(alloc),
        _ => Ok(Name::from_text(String::new(alloc))),
    }
}

/// The line of a file that wasn't fetched.
fn store_line(alloc: Global, call: &Call, fault: FetchFault) -> Result<OutLine, AllocError>
    requires { fault ≢ fetching.NoMemory }
    ensures line { IfOk result (λ line. (line ∷ []) ≡ stop_lines call.now (halt.Store fault)) }
    ensures listed { IfOk result (λ line. IsTrue (is_listed line)) }
{
    let name = file_read(alloc, call)?;
    let kind = store_kind(alloc, fault)?;
    Ok(OutLine::Store { name, kind })
}

/// The stop line, or none where a line couldn't be put.
fn stop_line(alloc: Global, call: &Call, why: Halt) -> Result<Option<OutLine>, AllocError>
    requires { why ≢ halt.Store fetching.NoMemory }
    ensures line { IfOk result (λ line. list_of line ≡ stop_lines call.now why) }
    ensures listed { IfOk result (λ line. IfSome line (λ l. IsTrue (is_listed l))) }
{
    match why {
        Halt::Store { fault } => match store_line(alloc, call, fault) {
            Ok(line) => Ok(Some(line)),
            Err(wanting) => Err(wanting),
        },
        Halt::Screen => Ok(Some(OutLine::ScreenFailed)),
        Halt::Out => Ok(None),
        Halt::NoMemory => Ok(Some(OutLine::NoMemory)),
        Halt::OutMemory => Ok(None),
        Halt::JournalFull { len, owed } => Ok(Some(OutLine::JournalFull { len, owed })),
    }
}

/// A script that was stopped.
fn stopped(what: Stop, is_silenced: bool) -> Playback
    ensures { result ≡ record { result = Err what; is_silenced = is_silenced } }
{
    Playback {
        result: Err(what),
        is_silenced,
    }
}

/// Puts the stop line.
pub(crate) fn stop_script<O: Sink>(alloc: Global, out: &mut O, call: &Call, why: Halt) -> Playback
    requires { why ≢ halt.Store fetching.NoMemory }
    ensures stops { StopsBy O.tells (O.seen out.old) (O.seen out.new) (call.now, why) (result.result, result.is_silenced) }
    ensures later { (O.seen out.old).faults ≤ (O.seen out.new).faults }
{
    match stop_line(alloc, call, why) {
        Ok(None) => stopped(stop_of(why), true),
        Ok(Some(line)) => match say(alloc, out, &line) {
            Ok(()) => stopped(stop_of(why), false),
            Err(PutFault::Failed) => stopped(stop_of(why), true),
            Err(PutFault::NoMemory) => stopped(Stop::OutMemory, true),
        },
        Err(_) => stopped(Stop::OutMemory, true),
    }
}
