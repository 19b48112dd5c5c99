//! The line of each call, by what it was told.

ghost use Rattle.std.specs.Prelude.{◌≡◌, Err, IfOk, IsTrue, codes};
ghost use Rattle.std.specs.Str.{IsUtf8};
ghost use Rattle.script_lang.specs.declared.out_line.OutLine.TheVariants as out;
ghost use Rattle.script_lang.specs.Line.{is_listed};
ghost use Rattle.play_head.specs.Told.{refusal_word, fault_word, edit_line, want_line, cancel_line, ask_line};
ghost use Rattle.play_head.specs.Giving.{play_line};
ghost use Rattle.play_head.specs.Playing.{list_line};
ghost use Rattle.edl_text.specs.declared.fault.EdlFault.TheVariants as faults;

use edl_text::EdlWhy;
use render_core::{AskReply, CancelReply, PlayReply, WantReply};
use script_lang::OutLine;
use std::alloc::{AllocError, Global};
use tl_model::{EditRefusal, EditReply, FrameFault, Name, RenderFault};

/// The word for a refusal.
fn refusal_word(why: EditRefusal) -> &'static str
    ensures { result.now ≡ refusal_word why }
{
    match why {
        EditRefusal::PastEnd => "PastEnd",
        EditRefusal::NoCut => "NoCut",
        EditRefusal::NoClip => "NoClip",
        EditRefusal::ShapeDiffers => "ShapeDiffers",
        EditRefusal::OutsideClip => "OutsideClip",
        EditRefusal::MixTooLong => "MixTooLong",
        EditRefusal::TooManyFrames => "TooManyFrames",
        EditRefusal::TooManySegments => "TooManySegments",
    }
}

/// The line of a refusal.
fn refused(alloc: Global, word: &str) -> Result<OutLine, AllocError>
    ensures { IfOk result (λ line. line ≡ out.Refused word.now) }
{
    let text = String::from_str(alloc, word)?;
    Ok(OutLine::Refused {
        why: Name::from_text(text),
    })
}

/// The line of an edit, an undo or a redo.
pub(crate) fn edit_line(alloc: Global, told: EditReply) -> Result<OutLine, AllocError>
    ensures { IfOk result (λ line. line ≡ edit_line told) }
{
    match told {
        EditReply::Ok { len } => Ok(OutLine::Ok { len }),
        EditReply::Refused(why) => refused(alloc, refusal_word(why)),
        EditReply::NothingToUndo => refused(alloc, "NothingToUndo"),
        EditReply::NothingToRedo => refused(alloc, "NothingToRedo"),
    }
}

/// The line of an export that was asked for.
pub(crate) fn ask_line(alloc: Global, told: AskReply) -> Result<OutLine, AllocError>
    ensures { IfOk result (λ line. line ≡ ask_line told) }
{
    match told {
        AskReply::Asked { export } => Ok(OutLine::Asked { export }),
        AskReply::EmptyTimeline => refused(alloc, "EmptyTimeline"),
    }
}

/// The line of a want.
pub(crate) fn want_line(told: WantReply) -> OutLine
    ensures { result ≡ want_line told }
{
    match told {
        WantReply::Wanted { count } => OutLine::Wanted { count },
        WantReply::PastEnd { len } => OutLine::Past { len },
    }
}

/// The line of a cancellation.
pub(crate) fn cancel_line(told: CancelReply) -> OutLine
    ensures { result ≡ cancel_line told }
{
    match told {
        CancelReply::Cancelled { count } => OutLine::Cancelled { count },
        CancelReply::PastEnd { len } => OutLine::Past { len },
    }
}

/// The word for what is wrong with a frame.
pub fn fault_word(kind: FrameFault) -> &'static str
    ensures { result.now ≡ fault_word kind }
{
    match kind {
        FrameFault::Empty => "Empty",
        FrameFault::Chain => "Chain",
        FrameFault::Parity { slice: _ } => "Parity",
        FrameFault::NotKey => "NotKey",
        FrameFault::Header { slice: _ } => "Header",
        FrameFault::TableIndex { slice: _ } => "TableIndex",
        FrameFault::Cover { cell: _ } => "Cover",
        FrameFault::Symbol { slice: _ } => "Symbol",
        FrameFault::Overrun { slice: _ } => "Overrun",
    }
}

/// The line of frame `n`, which couldn't be rendered.
fn fault_line(alloc: Global, n: u32, why: RenderFault) -> Result<OutLine, AllocError>
    ensures { IfOk result (λ line. line ≡ out.Fault n (fault_word why.kind)) }
{
    let text = String::from_str(alloc, fault_word(why.kind))?;
    Ok(OutLine::Fault {
        n,
        kind: Name::from_text(text),
    })
}

/// The line of frame `n` that was played.
pub(crate) fn play_line<F>(
    alloc: Global,
    n: u32,
    told: &PlayReply<F>,
) -> Result<OutLine, AllocError>
    ensures { IfOk result (λ line. line ≡ play_line n told.now) }
{
    match told {
        PlayReply::Frame(_) => Ok(OutLine::Frame { n }),
        PlayReply::Fault(why) => fault_line(alloc, n, *why),
        PlayReply::Pending { recipe: _ } => Ok(OutLine::Pending { n }),
        PlayReply::PastEnd { len } => Ok(OutLine::Past { len: *len }),
    }
}

/// The line of an edit list that is faulty at its line `n`.
pub(crate) fn list_line(alloc: Global, n: u32, why: EdlWhy) -> Result<OutLine, AllocError>
    ensures { IfOk result (λ line. line ≡ list_line (Err (faults.Line n why))) }
{
    let text = String::from_str(alloc, why.word())?;
    Ok(OutLine::EdlLine {
        n,
        why: Name::from_text(text),
    })
}
