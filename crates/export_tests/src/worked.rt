//! Exports of a clip of three frames, its record without parities: as it is, with a damaged third packet, and in another format.

ghost use Rattle.clip_store.specs.Readying.{IsGridFor};

use crate::clips::library_of;
use crate::damaged::HEAD;
use crate::exporting::{exported, frames};
use crate::tables::CODED;
use clip_store::{Format, Library, Shelf};
use ffv1_record::Coder;
use pic_planes::{Chroma, Shape};
use std::alloc::Global;
use std::test::Fail;
use test_runs::{grey, is_whole};
use tl_model::{Ending, FrameFault, Media, RenderFault};

/// The library of the clip in a format of its own.
fn library_in(alloc: Global, shape: Shape) -> Result<Library, Fail>
    requires { IsGridFor shape 1 1 }
{
    let format = Format::Own {
        shape,
        coder: Coder::Range,
        h: 1,
        v: 1,
    };
    let mut shelf = Shelf::start(alloc);
    shelf.load(alloc, "a", 0, grey(alloc, 0x02)?)?;
    match shelf.ready(alloc, format) {
        Ok(library) => Ok(library),
        Err(_) => Err("memory")?,
    }
}

#[test]
fn three_frames(rt: HostRuntime) -> Result<(), Fail> {
    let alloc = rt.alloc();
    let library = library_of(alloc, grey(alloc, 0x02)?)?;
    let (ending, file) = exported(alloc, &library, &[frames(0, 3)], 0)?;
    assert_eq!(rt; ending, Ending::Done { frames: 3 });
    assert!(rt; is_whole(&file));
    let damaged = library_of(alloc, grey(alloc, 0x03)?)?;
    let (ending, file) = exported(alloc, &damaged, &[frames(0, 3)], 0)?;
    let fault = RenderFault {
        clip: 0,
        frame: 2,
        kind: FrameFault::Chain,
    };
    assert_eq!(rt; ending, Ending::ClipFault { at: 2, fault });
    assert_eq!(rt; file.len(), HEAD);
    Ok(())
}

/// The default record has parities: so each packet is coded anew, in ten bytes. A clip of 2x2 doesn't fit in 4x2.
#[test]
fn another_format(rt: HostRuntime) -> Result<(), Fail> {
    let alloc = rt.alloc();
    let library = library_in(alloc, Shape::of(2, 2, Chroma::Grey).unwrap())?;
    let (ending, file) = exported(alloc, &library, &[frames(0, 3)], 0)?;
    assert_eq!(rt; ending, Ending::Done { frames: 3 });
    assert_eq!(rt; file.len(), HEAD + 22 + 3 * 23 + 39);
    for at in [204, 227, 250] {
        assert!(rt; file.get(at..at + 10) == Some(CODED.as_slice()), "at {at}");
    }
    let wide = library_in(alloc, Shape::of(4, 2, Chroma::Grey).unwrap())?;
    assert!(rt; wide.clips() == 1 && !wide.fits(0));
    Ok(())
}
