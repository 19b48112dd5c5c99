//! Plays and shows: each is made, its line put, and then the rows of its picture.

ghost use Rattle.std.specs.Prelude.{◌≡◌, [], ◌∷◌};
ghost use Rattle.tl_model.specs.declared.journal.Act.TheVariants as act;
ghost use Rattle.render_core.specs.Board.{AtRender, of_play, of_show};
ghost use Rattle.play_head.specs.Giving.{play_line, play_rows, Screens};
ghost use Rattle.play_head.specs.PlayingActs.{image_rows, PlaysActs};
ghost use Rattle.play_head.specs.Saying.{Speaks};

use crate::calls::speak;
use crate::halt::{Halt, halt_for};
use crate::say::put_picture;
use crate::told::play_line;
use edit_desk::Desk;
use pic_planes::Picture;
use render_core::{PlayReply, ShowReply};
use std::alloc::Global;
use tl_model::Media;
use tl_ports::{Gate, Point, PutFault, Sink};

/// Puts the line of frame `n`.
fn speak_play<F, O: Sink>(
    alloc: Global,
    out: &mut O,
    n: u32,
    told: &PlayReply<F>,
) -> Result<(), Halt>
    ensures { Speaks O.tells (O.seen out.old) (O.seen out.new) (play_line n told.now) result }
{
    match play_line(alloc, n, told) {
        Ok(line) => speak(alloc, out, &line),
        Err(_) => Err(Halt::OutMemory),
    }
}

/// Puts the rows of a picture to the screen.
fn screen_picture<S: Sink>(screen: &mut S, picture: &Picture) -> Result<(), Halt>
    ensures { Screens S.tells (S.seen screen.old) (S.seen screen.new) (image_rows picture.now) result }
{
    match put_picture(screen, picture) {
        Ok(()) => Ok(()),
        Err(PutFault::Failed) => Err(Halt::Screen),
        Err(PutFault::NoMemory) => Err(Halt::NoMemory),
    }
}

/// Puts the rows of the picture of a frame, where there is one.
fn screen_play<S: Sink>(screen: &mut S, told: &PlayReply<Picture>) -> Result<(), Halt>
    ensures { Screens S.tells (S.seen screen.old) (S.seen screen.new) (play_rows told.now) result }
{
    match told {
        PlayReply::Frame(frame) => screen_picture(screen, frame),
        PlayReply::Fault(_) => Ok(()),
        PlayReply::Pending { recipe: _ } => Ok(()),
        PlayReply::PastEnd { len: _ } => Ok(()),
    }
}

/// The answer of a show that has been rendered, as that of a play.
fn as_play<F: Drop>(told: ShowReply<F>) -> PlayReply<F>
    requires { AtRender told (λ recipe. ⊥) }
    ensures { of_play result ≡ of_show told }
{
    match told {
        ShowReply::Frame(frame) => PlayReply::Frame(frame),
        ShowReply::Fault(why) => PlayReply::Fault(why),
        ShowReply::Render { recipe } => PlayReply::Pending { recipe },
        ShowReply::PastEnd { len } => PlayReply::PastEnd { len },
    }
}

/// Plays frame `n`.
pub(crate) fn play<D: Desk, S: Sink, O: Sink, G: Gate>(
    alloc: Global,
    desk: &mut D,
    screen: &mut S,
    out: &mut O,
    gate: &G,
    n: u32,
) -> Result<(), Halt>
where
    D::Lib: Media<Frame = Picture>,
    ensures { PlaysActs (record { library = D.Lib.library; rows = image_rows; screen = S.tells; out = O.tells })
        (record { desk = D.desk desk.old; screen = S.seen screen.old; out = O.seen out.old })
        (record { desk = D.desk desk.new; screen = S.seen screen.new; out = O.seen out.new }) (act.Play n ∷ []) result }
{
    match desk.play(n) {
        Ok(told) => {
            gate.at(Point::Played, n as u64);
            match speak_play(alloc, out, n, &told) {
                Ok(()) => screen_play(screen, &told),
                Err(why) => Err(why),
            }
        }
        Err(why) => Err(halt_for(why)),
    }
}

/// Shows frame `n`.
pub(crate) fn show<D: Desk, S: Sink, O: Sink>(
    alloc: Global,
    desk: &mut D,
    screen: &mut S,
    out: &mut O,
    n: u32,
) -> Result<(), Halt>
where
    D::Lib: Media<Frame = Picture>,
    ensures { PlaysActs (record { library = D.Lib.library; rows = image_rows; screen = S.tells; out = O.tells })
        (record { desk = D.desk desk.old; screen = S.seen screen.old; out = O.seen out.old })
        (record { desk = D.desk desk.new; screen = S.seen screen.new; out = O.seen out.new }) (act.Show n ∷ []) result }
{
    match desk.show(alloc, n) {
        Ok(told) => {
            let told = as_play(told);
            match speak_play(alloc, out, n, &told) {
                Ok(()) => screen_play(screen, &told),
                Err(why) => Err(why),
            }
        }
        Err(why) => Err(halt_for(why)),
    }
}
