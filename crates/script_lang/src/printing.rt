//! Putting a line out.

ghost use Rattle.std.specs.Prelude.{◌≡◌, ◌++◌, decimal, IsTrue, OnOk, OnErr};
ghost use Rattle.script_lang.specs.Line.{is_listed, line_text, words_of, joined};
ghost use Rattle.script_lang.specs.Word.{spelled, shape_words};

use crate::out_line::OutLine;
use crate::words::{Shape, Word, name, put_shape};
use std::alloc::AllocError;

const USAGE: &str = "usage: timeline SCRIPT [--workers N] [--cache N] [--journal N]";

fn number(n: u32) -> Word<'static>
    ensures { spelled result ≡ decimal n }
{
    Word::Number(u64::from(n))
}

#[tactic(auto, unfolding(crate::specs::Line::fields, crate::specs::Line::joined))]
fn shape_of<'a>(line: &'a OutLine) -> Shape<'a>
    ensures { joined (shape_words result) ≡ joined (words_of line.now) }
{
    match line {
        OutLine::Ok { len } => Shape::One("ok", number(*len)),
        OutLine::Refused { why } => Shape::One("refused", name(why)),
        OutLine::EdlLine { n, why } => Shape::Two("edl line", number(*n), name(why)),
        OutLine::Wanted { count } => Shape::One("wanted", number(*count)),
        OutLine::Cancelled { count } => Shape::One("cancelled", number(*count)),
        OutLine::Past { len } => Shape::One("past", number(*len)),
        OutLine::Frame { n } => Shape::One("frame", number(*n)),
        OutLine::Pending { n } => Shape::One("pending", number(*n)),
        OutLine::Fault { n, kind } => Shape::Two("fault", number(*n), name(kind)),
        OutLine::Worked { count } => Shape::One("worked", number(*count)),
        OutLine::Asked { export } => Shape::One("asked", Word::Number(*export)),
        OutLine::FaultLine { n, why } => Shape::Two("fault line", number(*n), name(why)),
        OutLine::FaultClip { n, kind } => Shape::Three(
            "fault line",
            number(*n),
            Word::Text("clip"),
            name(kind),
        ),
        OutLine::FaultRecord { n, kind } => Shape::Three(
            "fault line",
            number(*n),
            Word::Text("record"),
            name(kind),
        ),
        OutLine::Store { name: file, kind } => Shape::Two("store", name(file), name(kind)),
        OutLine::ScreenFailed => Shape::Plain("screen failed"),
        OutLine::NoMemory => Shape::Plain("no memory"),
        OutLine::JournalFull { len, owed } => Shape::Two(
            "journal full",
            Word::Number(*len),
            Word::Number(*owed),
        ),
        OutLine::Usage => Shape::Plain(USAGE),
        OutLine::Done { export, frames } => Shape::Three(
            "export",
            Word::Number(*export),
            Word::Text("done"),
            number(*frames),
        ),
        OutLine::ExportFault {
            export,
            at,
            clip,
            frame,
            kind,
        } => {
            Shape::Six(
                "export",
                Word::Number(*export),
                Word::Text("fault"),
                number(*at),
                name(clip),
                number(*frame),
                name(kind),
            )
        }
        OutLine::Long { export, at } => Shape::Three(
            "export",
            Word::Number(*export),
            Word::Text("long"),
            number(*at),
        ),
        OutLine::Sink { export } => Shape::Two("export", Word::Number(*export), Word::Text("sink")),
        OutLine::Memory { export } => Shape::Two(
            "export",
            Word::Number(*export),
            Word::Text("memory"),
        ),
    }
}

/// Puts a line and its line feed at the end. Each word of it that says why or of what kind has to be of its list. After a refusal of memory
/// `into` is as before.
#[tactic(auto, using(crate::proofs::Spelling::take_before))]
pub fn put_line(line: &OutLine, into: &mut Vec<u8>) -> Result<(), AllocError>
    requires { IsTrue (is_listed line.now) }
    ensures ok { OnOk result (into.new.items ≡ into.old.items ++ line_text line.now) }
    ensures err { OnErr result (into.new.items ≡ into.old.items) }
{
    let before = into.len();
    match put_shape(into, shape_of(line)) {
        Ok(()) => Ok(()),
        Err(refused) => {
            into.truncate(before);
            Err(refused)
        }
    }
}
