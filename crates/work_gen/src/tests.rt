//! Scripts and samples that were worked by hand.

use crate::{Generated, generate};
use ffv1_frame::decode_frame;
use ffv1_record::Record;
use mkv_read::{Place, read_clip};
use pic_planes::Picture;
use std::alloc::Global;
use std::test::Fail;

const SCRIPT_1: &[u8] =
    b"rate 25\nclip G g.mkv\nformat as G\ninsert 0 G 0 1\nsplit 0\ndissolve 0 1\n\
    want 0 1\nwork 64\nplay 0\nshow 0\nundo\nredo\nexport gen.mkv\n";

const SCRIPT_10: &[u8] =
    b"rate 25\nclip G g.mkv\nformat as G\ninsert 0 G 0 10\nsplit 5\ndissolve 5 5\n\
    want 0 10\nwork 64\nplay 0\nshow 5\nundo\nredo\nexport gen.mkv\n";

const SCRIPT_1000: &[u8] =
    b"rate 25\nclip G g.mkv\nformat as G\ninsert 0 G 0 1000\nsplit 500\ndissolve 500 10\n\
    want 0 64\nwork 64\nplay 0\nshow 500\nundo\nredo\nexport gen.mkv\n";

// A sample of a frame: the frame, the plane, the column, the row, and what is there.
type Sample = (usize, u32, usize, u32, u8);

// What is made of a number of frames that may be asked for.
fn made(alloc: Global, frames: u32) -> Option<Generated> {
    if frames < 1 || frames > 1000 {
        return None;
    }
    generate(alloc, frames).ok()
}

fn bytes_at(bytes: &[u8], place: Place) -> Option<&[u8]> {
    let from = bytes.get(place.from as usize..)?;
    from.get(..place.len as usize)
}

// The picture of a frame, as the clip's own record decodes it.
fn picture(alloc: Global, clip: &[u8], frame: usize) -> Option<Picture> {
    let index = read_clip(alloc, clip).ok()?;
    let coding = Record::read(alloc, bytes_at(clip, index.private)?).ok()?;
    let shape = coding.shape(index.width, index.height)?;
    let place = *index.packets.as_slice().get(frame)?;
    let packet = bytes_at(clip, place)?;
    if !coding.suits(shape) || packet.len() > 100_000 {
        return None;
    }
    decode_frame(alloc, &coding, shape, packet).ok()
}

fn sample(picture: &Picture, plane: u32, x: usize, y: u32) -> Option<u8> {
    let shape = picture.shape();
    if plane >= shape.plane_count() {
        return None;
    }
    if y >= shape.plane_height(plane) {
        return None;
    }
    picture.row(plane, y).get(x).copied()
}

fn has_samples(alloc: Global, clip: &[u8], samples: &[Sample]) -> bool {
    samples.iter().all(|(frame, plane, x, y, value)| match picture(alloc, clip, *frame) {
        Some(picture) => sample(&picture, *plane, *x, *y) == Some(*value),
        None => false,
    })
}

#[test]
#[rattlefmt::skip]
fn worked_by_hand(rt: HostRuntime) -> Result<(), Fail> {
    let a = rt.alloc();
    for (frames, script, samples) in [
        (1, SCRIPT_1, [(0, 0, 0, 0, 0), (0, 0, 63, 47, 164), (0, 1, 31, 5, 159), (0, 2, 5, 23, 151)]),
        (10, SCRIPT_10, [(9, 0, 1, 2, 39), (9, 0, 63, 47, 184), (9, 1, 31, 5, 168), (9, 2, 5, 23, 169)]),
        (1000, SCRIPT_1000, [(500, 0, 10, 20, 14), (999, 0, 63, 47, 82), (999, 1, 31, 0, 134), (999, 2, 0, 23, 101)]),
    ] {
        let made = made(a, frames).ok_or("no memory")?;
        assert!(rt; made.script.as_slice() == script);
        assert!(rt; has_samples(a, made.clip.as_slice(), &samples));
        assert!(rt; picture(a, made.clip.as_slice(), frames as usize).is_none());
    }
    Ok(())
}
