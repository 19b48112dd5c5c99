//! A list that is read, written and read again.

ghost use Rattle.tl_limits.specs.Limits.{IsRate};

use edl_text::{Edl, EdlFault, EdlWhy, Event, read_edl, write_edl};
use std::alloc::Global;
use std::test::Fail;

#[rattlefmt::skip]
const LIST: &str = "TITLE: REEL ONE\n\
    FCM: NON-DROP FRAME\n\
    001  AX       V     C        00:00:00:00 00:00:04:00 01:00:00:00 01:00:04:00\n\
    * FROM CLIP NAME: a.mov\n\
    002  AX       V     C        00:00:04:00 00:00:04:00 01:00:04:00 01:00:04:00\n\
    002  AX       V     D    025 00:00:01:00 00:00:06:00 01:00:04:00 01:00:09:00\n\
    * EFFECT NAME: CROSS DISSOLVE\n\
    * FROM CLIP NAME: a.mov\n\
    * TO CLIP NAME: b.mov\n";

#[rattlefmt::skip]
const WRITTEN: &str = "TITLE: REEL ONE\n\
    FCM: NON-DROP FRAME\n\
    001  AX       V     C        00:00:00:00 00:00:04:00 01:00:00:00 01:00:04:00\n\
    * FROM CLIP NAME: a.mov\n\
    002  AX       V     C        00:00:04:00 00:00:04:00 01:00:04:00 01:00:04:00\n\
    * FROM CLIP NAME: a.mov\n\
    * TO CLIP NAME: b.mov\n\
    002  AX       V     D    025 00:00:01:00 00:00:06:00 01:00:04:00 01:00:09:00\n\
    * FROM CLIP NAME: a.mov\n\
    * TO CLIP NAME: b.mov\n";

/// Lines that are passed over, or have a fault, each alone at 24 frames a second.
#[rattlefmt::skip]
const LINES: [(&str, Option<EdlWhy>); 22] = [
    ("  \t ", None),
    ("TITLE", None),
    ("FCM: NON-DROP FRAME", None),
    ("FCM: DROP FRAME", Some(EdlWhy::Drop)),
    ("* FROM CLIP NAME: before any event", None),
    ("*DROP FRAME", None),
    ("AUDIO 1 2", None),
    ("M2   AX       025.0      00:00:00:00", Some(EdlWhy::Speed)),
    (" M2 AX 025.0 00:00:00:00", None),
    ("SPLIT:    VIDEO DELAY= 00:00:00:05", None),
    ("1 AX A C 00:00:00:23 00:00:01:00 00:00:00:00 00:00:01:00", None),
    ("1 AX A C 00:00:00:24 00:00:01:00 00:00:00:00 00:00:01:00", Some(EdlWhy::Timecode)),
    ("1 AX A C 00:00:00:5 00:00:01;00 00:00:00:00 00:00:01:00", Some(EdlWhy::Timecode)),
    ("1 AX A C 00:00:00;00 00:00:01:99 00:00:00:00 00:00:01:00", Some(EdlWhy::Drop)),
    ("1 AX V D 1000 00:00:00:00 00:00:01:00 00:00:00:00 00:00:01:00", Some(EdlWhy::Unknown)),
    ("1234567 AX V C 00:00:00:00 00:00:01:00 00:00:00:00 00:00:01:00", Some(EdlWhy::Unknown)),
    ("1 AX V C 00:00:00:00 00:00:01:00 00:00:00:00 00:00:01:00 more", Some(EdlWhy::Unknown)),
    ("1 AX V W001 025 00:00:00:00", Some(EdlWhy::Wipe)),
    ("1 AX V KB", Some(EdlWhy::Key)),
    ("1 AX V X", Some(EdlWhy::Unknown)),
    ("1", Some(EdlWhy::Unknown)),
    ("1st", Some(EdlWhy::Unknown)),
];

/// The number, the duration and the times of an event.
fn numbers(event: &Event) -> (u32, Option<u32>, [u32; 4]) {
    let times = [
        event.source_in,
        event.source_out,
        event.record_in,
        event.record_out,
    ];
    (event.number, event.duration, times)
}

/// A list of few lines.
#[tactic(auto, using(text_words::proofs::Lining::few_lines))]
fn list_of(alloc: Global, text: &[u8], rate: u32) -> Result<Edl, EdlFault>
    requires { IsRate rate }
{
    if text.len() > 10_000 {
        return Err(EdlFault::NoMemory);
    }
    read_edl(alloc, text, rate)
}

/// The text that a list is written as once it is read.
fn rewritten(alloc: Global, text: &[u8]) -> Result<Vec<u8>, EdlFault> {
    let list = list_of(alloc, text, 25)?;
    Ok(write_edl(alloc, &list, 25)?)
}

fn is_text(written: &Result<Vec<u8>, EdlFault>, text: &str) -> bool {
    match written {
        Ok(bytes) => bytes.as_slice() == text.as_bytes(),
        Err(_) => false,
    }
}

fn third(alloc: Global, text: &[u8]) -> Result<(u32, Option<u32>, [u32; 4]), EdlFault> {
    let list = list_of(alloc, text, 25)?;
    match list.events.as_slice() {
        [_, _, event] => Ok(numbers(event)),
        _ => Err(EdlFault::NoMemory),
    }
}

#[test]
fn a_list_is_written_and_read_back(rt: HostRuntime) -> Result<(), Fail> {
    assert_eq!(rt;
        third(rt.alloc(), LIST.as_bytes()),
        Ok((2, Some(25), [25, 150, 90_100, 90_225]))
    );
    assert!(rt; is_text(&rewritten(rt.alloc(), LIST.as_bytes()), WRITTEN));
    assert!(rt; is_text(&rewritten(rt.alloc(), WRITTEN.as_bytes()), WRITTEN));
    Ok(())
}

#[test]
fn lines_are_passed_over_or_faulty(rt: HostRuntime) -> Result<(), Fail> {
    for (line, fault) in &LINES {
        let given = match list_of(rt.alloc(), line.as_bytes(), 24) {
            Err(EdlFault::Line { why, .. }) => Some(why),
            _ => None,
        };
        assert_eq!(rt; given, *fault);
    }
    Ok(())
}
