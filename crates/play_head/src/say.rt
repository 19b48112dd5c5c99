//! Lines and rows, put out.

ghost use Rattle.std.specs.Prelude.{◌≡◌, ◌≤◌, ◌<◌, ◌∷◌, [], IsTrue};
ghost use Rattle.std.specs.List.{flat_map};
ghost use Rattle.pic_planes.specs.Shape.{plane_count};
ghost use Rattle.pic_planes.specs.Picture.{plane_of};
ghost use Rattle.tl_ports.specs.Outside.{PutHasCause};
ghost use Rattle.script_lang.specs.Line.{is_listed, line_text};
ghost use Rattle.play_head.specs.Putting.{Gets};

use pic_planes::Picture;
use script_lang::{OutLine, put_line};
use std::alloc::Global;
use tl_ports::{PutFault, Sink};

/// Puts a line, as one piece.
pub fn say<O: Sink>(alloc: Global, out: &mut O, line: &OutLine) -> Result<(), PutFault>
    requires { IsTrue (is_listed line.now) }
    ensures got { Gets O.tells (O.seen out.old) (O.seen out.new) (line_text line.now ∷ []) result }
    ensures cause { PutHasCause (O.seen out.old).faults (O.seen out.new).faults result }
    ensures later { (O.seen out.old).faults ≤ (O.seen out.new).faults }
{
    let mut text = Vec::new(alloc);
    match put_line(line, &mut text) {
        Ok(()) => {
            out.put(text.as_slice())?;
            Ok(())
        }
        Err(_) => Err(PutFault::NoMemory),
    }
}

/// Puts the rows of a plane, each as one piece.
fn put_plane<S: Sink>(screen: &mut S, picture: &Picture, plane: u32) -> Result<(), PutFault>
    requires { plane < plane_count picture.now.shape }
    ensures got { Gets S.tells (S.seen screen.old) (S.seen screen.new) (plane_of picture.now plane) result }
    ensures cause { PutHasCause (S.seen screen.old).faults (S.seen screen.new).faults result }
    ensures later { (S.seen screen.old).faults ≤ (S.seen screen.new).faults }
{
    let height = picture.shape().plane_height(plane);
    for y in 0..height {
        match screen.put(picture.row(plane, y)) {
            Ok(()) => {}
            Err(fault) => return Err(fault),
        }
    }
    Ok(())
}

/// Puts a picture, plane after plane and row after row.
pub(crate) fn put_picture<S: Sink>(screen: &mut S, picture: &Picture) -> Result<(), PutFault>
    ensures got { Gets S.tells (S.seen screen.old) (S.seen screen.new) (flat_map (λ rows. rows) picture.now.planes) result }
    ensures cause { PutHasCause (S.seen screen.old).faults (S.seen screen.new).faults result }
    ensures later { (S.seen screen.old).faults ≤ (S.seen screen.new).faults }
{
    let count = picture.shape().plane_count();
    for plane in 0..count {
        match put_plane(screen, picture, plane) {
            Ok(()) => {}
            Err(fault) => return Err(fault),
        }
    }
    Ok(())
}
