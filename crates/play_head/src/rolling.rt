//! Rolls: their calls are made one after another.

ghost use Rattle.std.specs.Prelude.{◌≡◌, [], ◌∷◌};
ghost use Rattle.tl_limits.specs.Limits.{IsSmall, IsFrameCount};
ghost use Rattle.play_head.specs.PlayingActs.{image_rows, PlaysActs};
ghost use Rattle.play_head.specs.Roll.{roll_calls, IsRollCall};

use crate::calls::want;
use crate::halt::Halt;
use crate::pictures::play;
use crate::roll::Roll;
use edit_desk::Desk;
use pic_planes::Picture;
use std::alloc::Global;
use tl_model::{Act, Media};
use tl_ports::{Gate, Sink};

/// Makes a call of a roll.
fn roll_call<D: Desk, S: Sink, O: Sink, G: Gate>(
    alloc: Global,
    desk: &mut D,
    screen: &mut S,
    out: &mut O,
    gate: &G,
    act: &Act,
) -> Result<(), Halt>
where
    D::Lib: Media<Frame = Picture>,
    requires { IsRollCall act.now }
    ensures { PlaysActs (record { library = D.Lib.library; rows = image_rows; screen = S.tells; out = O.tells })
        (record { desk = D.desk desk.old; screen = S.seen screen.old; out = O.seen out.old })
        (record { desk = D.desk desk.new; screen = S.seen screen.new; out = O.seen out.new }) (act.now ∷ []) result }
{
    match act {
        Act::Want { first, len } => want(alloc, desk, out, *first, *len),
        Act::Play { n } => play(alloc, desk, screen, out, gate, *n),
        _ => unreachable!(),
    }
}

/// Makes the calls of a roll over `len` frames from `first` on.
pub(crate) fn roll<D: Desk, S: Sink, O: Sink, G: Gate>(
    alloc: Global,
    desk: &mut D,
    screen: &mut S,
    out: &mut O,
    gate: &G,
    first: u32,
    len: u32,
) -> Result<(), Halt>
where
    D::Lib: Media<Frame = Picture>,
    requires first { IsSmall first }
    requires len { IsFrameCount len }
    ensures { PlaysActs (record { library = D.Lib.library; rows = image_rows; screen = S.tells; out = O.tells })
        (record { desk = D.desk desk.old; screen = S.seen screen.old; out = O.seen out.old })
        (record { desk = D.desk desk.new; screen = S.seen screen.new; out = O.seen out.new }) (roll_calls first len) result }
{
    let mut calls = Roll::over(first, len);
    while let Some(act) = calls.next() {
        match roll_call(alloc, desk, screen, out, gate, &act) {
            Ok(()) => {}
            Err(why) => return Err(why),
        }
    }
    Ok(())
}
