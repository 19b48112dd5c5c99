//! The text of the script.
ghost use Rattle.std.specs.Prelude.{◌≡◌, ◌≤◌, ◌<◌, ◌++◌, IfOk, OnOk, string_bytes};
ghost use Rattle.work_gen.specs.Script.{middle, dissolved, wanted, header, insert_line, split_line, dissolve_line, edits, want_line, work_and_play, show_line, plays, ending, script};

use std::alloc::{AllocError, Global};

/// The script for a clip of so many frames.
#[tactic(auto, unfolding(crate::specs::Script::script), using(std::proofs::Common::append_assoc))]
pub(crate) fn script_text(alloc: Global, frames: u32) -> Result<Vec<u8>, AllocError>
    ensures { IfOk result (λ text. text.items ≡ script frames) }
{
    let mut text = Vec::from_slice(alloc, header().as_bytes())?;
    put_edits(alloc, &mut text, frames)?;
    put_plays(alloc, &mut text, frames)?;
    text.extend_from_slice(ending().as_bytes())?;
    Ok(text)
}

// Puts the edits.
#[tactic(auto, using(std::proofs::Common::append_assoc))]
fn put_edits(alloc: Global, text: &mut Vec<u8>, frames: u32) -> Result<(), AllocError>
    ensures { OnOk result (text.new.items ≡ text.old.items ++ edits frames) }
{
    let half = frames / 2;
    let insert = insert_line(alloc, frames)?;
    let split = split_line(alloc, half)?;
    let dissolve = dissolve_line(alloc, half, dissolved(frames))?;
    text.extend_from_slice(insert.as_bytes())?;
    text.extend_from_slice(split.as_bytes())?;
    text.extend_from_slice(dissolve.as_bytes())?;
    Ok(())
}

// Puts what is asked for, rendered, played and shown.
#[tactic(auto, using(std::proofs::Common::append_assoc))]
fn put_plays(alloc: Global, text: &mut Vec<u8>, frames: u32) -> Result<(), AllocError>
    ensures { OnOk result (text.new.items ≡ text.old.items ++ plays frames) }
{
    let want = want_line(alloc, frames.min(64))?;
    let show = show_line(alloc, frames / 2)?;
    text.extend_from_slice(want.as_bytes())?;
    text.extend_from_slice(work_and_play().as_bytes())?;
    text.extend_from_slice(show.as_bytes())?;
    Ok(())
}

// How many frames the dissolve takes.
fn dissolved(frames: u32) -> u32
    ensures { result ≡ dissolved frames }
{
    (frames - frames / 2).min(10)
}

#[tactic(auto, unfolding(crate::specs::Script::header))]
fn header() -> &'static str
    ensures { result.now ≡ header }
{
    "rate 25\nclip G g.mkv\nformat as G\n"
}

#[tactic(auto, unfolding(crate::specs::Script::insert_line))]
fn insert_line(alloc: Global, frames: u32) -> Result<String, AllocError>
    ensures { IfOk result (λ text. string_bytes text ≡ insert_line frames) }
{
    format!(in alloc; "insert 0 G 0 {frames}\n")
}

#[tactic(auto, unfolding(crate::specs::Script::split_line))]
fn split_line(alloc: Global, at: u32) -> Result<String, AllocError>
    ensures { IfOk result (λ text. string_bytes text ≡ split_line at) }
{
    format!(in alloc; "split {at}\n")
}

#[tactic(auto, unfolding(crate::specs::Script::dissolve_line))]
fn dissolve_line(alloc: Global, at: u32, frames: u32) -> Result<String, AllocError>
    ensures { IfOk result (λ text. string_bytes text ≡ dissolve_line at frames) }
{
    format!(in alloc; "dissolve {at} {frames}\n")
}

#[tactic(auto, unfolding(crate::specs::Script::want_line))]
fn want_line(alloc: Global, frames: u32) -> Result<String, AllocError>
    ensures { IfOk result (λ text. string_bytes text ≡ want_line frames) }
{
    format!(in alloc; "want 0 {frames}\n")
}

#[tactic(auto, unfolding(crate::specs::Script::work_and_play))]
fn work_and_play() -> &'static str
    ensures { result.now ≡ work_and_play }
{
    "work 64\nplay 0\n"
}

#[tactic(auto, unfolding(crate::specs::Script::show_line))]
fn show_line(alloc: Global, at: u32) -> Result<String, AllocError>
    ensures { IfOk result (λ text. string_bytes text ≡ show_line at) }
{
    format!(in alloc; "show {at}\n")
}

#[tactic(auto, unfolding(crate::specs::Script::ending))]
fn ending() -> &'static str
    ensures { result.now ≡ ending }
{
    "undo\nredo\nexport gen.mkv\n"
}
