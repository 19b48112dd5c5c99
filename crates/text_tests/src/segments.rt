//! Edit lists in the manner of editing programs, and the segments that they are.

use edl_build::build;
use edl_text::{Edl, EdlFault, EdlWhy, read_edl};
use std::alloc::{AllocError, Global};
use std::test::Fail;
use tl_model::{Clips, Mix, Name, Segment, Segments, Side};

/// The clips: a name and a start each.
const CLIPS: [(&str, u32); 5] = [
    ("a.mov", 0),
    ("b.mov", 0),
    ("Tape 7 take 2.v1.mxf", 90_000),
    ("TAPE0007", 50),
    ("a.mov", 7),
];

/// A side by its clip and frame, black by none.
type Shown = Option<(u32, u32)>;

/// A segment: its first side, its length, and the outgoing side and the steps of its dissolve.
type Row = (Shown, u32, Option<(Shown, u32)>);

enum Answer {
    Gives(&'static [Row]),
    Faulty(u32, EdlWhy),
}

#[rattlefmt::skip]
const LISTS: [(&str, Answer); 28] = [
    // a title, a cut and a dissolve
    ("TITLE: REEL ONE\nFCM: NON-DROP FRAME\n\
      001  AX       V     C        00:00:00:00 00:00:04:00 01:00:00:00 01:00:04:00\n* FROM CLIP NAME: a.mov\n\
      002  AX       V     C        00:00:04:00 00:00:04:00 01:00:04:00 01:00:04:00\n\
      002  AX       V     D    025 00:00:01:00 00:00:06:00 01:00:04:00 01:00:09:00\n\
      * EFFECT NAME: CROSS DISSOLVE\n* FROM CLIP NAME: a.mov\n* TO CLIP NAME: b.mov\n",
     Answer::Gives(&[(Some((0, 0)), 100, None), (Some((1, 25)), 125, Some((Some((0, 100)), 25)))])),
    // black between two cuts
    ("001 BL V C 00:00:00:00 00:00:01:00 01:00:00:00 01:00:01:00\n002 a.mov V C 00:00:00:00 00:00:01:00 01:00:02:00 01:00:03:00\n",
     Answer::Gives(&[(None, 25, None), (None, 25, None), (Some((0, 0)), 25, None)])),
    // an overlap by one frame
    ("001 a.mov V C 00:00:00:00 00:00:01:00 01:00:00:00 01:00:01:00\n002 a.mov V C 00:00:00:00 00:00:01:00 01:00:00:24 01:00:01:24\n",
     Answer::Faulty(2, EdlWhy::Overlap)),
    // the order is that of the record, and a name has blanks and dots
    ("000002\tAX\tV\tC\t00:00:00:00\t00:00:01:00\t01:00:01:00\t01:00:02:00\r\n* FROM CLIP NAME:\ta.mov \r\n\
      01 AX B C 01:00:00:10 01:00:01:10 01:00:00:00 01:00:01:00\r\n* FROM CLIP NAME: Tape 7 take 2.v1.mxf\r\n",
     Answer::Gives(&[(Some((2, 10)), 25, None), (Some((0, 0)), 25, None)])),
    // sound alone, both, and neither; a reel of eight characters
    ("TITLE:\n001 a.mov A C 00:00:00:00 00:00:01:00 00:00:00:00 00:00:01:00\n\
      002 TAPE0007 AA/V C 00:00:02:00 00:00:03:00 00:00:00:00 00:00:01:00\n\
      003 gone NONE C 00:00:00:00 00:00:05:00 00:00:00:00 00:00:01:00",
     Answer::Gives(&[(Some((3, 0)), 25, None)])),
    // comments of each kind
    ("* a comment\n*\n   \nSPLIT:    AUDIO DELAY= 00:00:00:05\nAUD  3 4\nFINAL CUT PRO REEL\n* FROM CLIP NAME: gone\n\
      001 AX V C 00:00:00:00 00:00:01:00 00:00:00:00 00:00:01:00\n* FROM CLIP NAME: a.mov\n* FROM CLIP NAME: gone\n",
     Answer::Gives(&[(Some((0, 0)), 25, None)])),
    // a dissolve from black, and one to black
    ("001 BL V C 00:00:00:00 00:00:00:00 00:00:00:00 00:00:00:00\n001 b.mov V D 010 00:00:00:00 00:00:01:00 00:00:00:00 00:00:01:00\n\
      002 b.mov V C 00:00:01:00 00:00:01:00 00:00:01:00 00:00:01:00\n002 BL V D 010 00:00:00:00 00:00:01:00 00:00:01:00 00:00:02:00\n",
     Answer::Gives(&[(Some((1, 0)), 25, Some((None, 10))), (None, 25, Some((Some((1, 25)), 10)))])),
    // a dissolve of duration 0 is a cut
    ("001 BL V C 00:00:00:00 00:00:00:00 00:00:00:00 00:00:00:00\n001 b.mov V D 000 00:00:00:00 00:00:01:00 00:00:00:00 00:00:01:00\n",
     Answer::Gives(&[(Some((1, 0)), 25, None)])),
    // sound between the two lines of a dissolve
    ("001 BL V C 00:00:00:00 00:00:00:00 00:00:00:00 00:00:00:00\n001 b.mov A C 00:00:00:00 00:00:01:00 00:00:00:00 00:00:01:00\n\
      001 b.mov V D 005 00:00:00:00 00:00:01:00 00:00:00:00 00:00:01:00\n",
     Answer::Gives(&[(Some((1, 0)), 25, Some((None, 5)))])),
    // nothing
    ("", Answer::Gives(&[])),
    ("TITLE: NOTHING\nFCM: NON-DROP FRAME\n\n", Answer::Gives(&[])),
    // faults of pairs
    ("001 a.mov V C 00:00:00:00 00:00:00:00 00:00:00:00 00:00:00:00\n", Answer::Faulty(1, EdlWhy::PairMissing)),
    ("001 a.mov V C 00:00:00:00 00:00:00:00 00:00:00:00 00:00:00:00\n002 b.mov V D 005 00:00:00:00 00:00:01:00 00:00:00:00 00:00:01:00\n",
     Answer::Faulty(1, EdlWhy::PairMissing)),
    ("001 b.mov V D 000 00:00:00:00 00:00:01:00 00:00:00:00 00:00:01:00\n", Answer::Faulty(1, EdlWhy::PairMissing)),
    // faults of names: none, another case, only the other one, and no clip's
    ("001 AX V C 00:00:00:00 00:00:01:00 00:00:00:00 00:00:01:00\n", Answer::Faulty(1, EdlWhy::UnknownClip)),
    ("\n001 A.MOV V C 00:00:00:00 00:00:01:00 00:00:00:00 00:00:01:00\n", Answer::Faulty(2, EdlWhy::UnknownClip)),
    ("001 AX V C 00:00:00:00 00:00:01:00 00:00:00:00 00:00:01:00\n* TO CLIP NAME: a.mov\n", Answer::Faulty(1, EdlWhy::UnknownClip)),
    // faults of lengths
    ("001 a.mov V C 00:00:00:00 00:00:01:00 00:00:00:00 00:00:01:01\n", Answer::Faulty(1, EdlWhy::Span)),
    ("001 a.mov V C 00:00:01:00 00:00:00:00 00:00:01:00 00:00:00:00\n", Answer::Faulty(1, EdlWhy::Span)),
    ("001 BL V C 00:00:00:00 00:00:00:00 00:00:00:00 00:00:00:00\n001 b.mov V D 005 00:00:00:00 00:00:00:00 00:00:00:00 00:00:00:00\n",
     Answer::Faulty(2, EdlWhy::Span)),
    // before the clip's start
    ("001 TAPE0007 V C 00:00:01:24 00:00:02:24 00:00:00:00 00:00:01:00\n", Answer::Faulty(1, EdlWhy::OutsideClip)),
    // faults of the text come first
    ("001 gone V C 00:00:00:00 00:00:01:00 00:00:00:00 00:00:01:00\nM2 AX 025.0 00:00:00:00\n", Answer::Faulty(2, EdlWhy::Speed)),
    ("001 a.mov V C 00:00:00;00 00:00:01:00 00:00:00:00 00:00:01:00\n", Answer::Faulty(1, EdlWhy::Drop)),
    ("001 a.mov V C 00:00:00:25 00:00:01:00 00:00:00:00 00:00:01:00\n", Answer::Faulty(1, EdlWhy::Timecode)),
    ("001 a.mov V W001 025 00:00:00:00 00:00:01:00 00:00:00:00 00:00:01:00\n", Answer::Faulty(1, EdlWhy::Wipe)),
    ("001 a.mov V K B 00:00:00:00 00:00:01:00 00:00:00:00 00:00:01:00\n", Answer::Faulty(1, EdlWhy::Key)),
    ("001 a.mov V C 00:00:00:00 00:00:01:00 00:00:00:00\n", Answer::Faulty(1, EdlWhy::Unknown)),
    ("FCM:  DROP FRAME \n", Answer::Faulty(1, EdlWhy::Drop)),
];

fn clips(alloc: Global) -> Result<Clips, AllocError> {
    let mut items = Vec::new(alloc);
    for (name, start) in &CLIPS {
        let name = Name::from_text(String::from_str(alloc, name)?);
        items.push((name, *start))?;
    }
    Ok(Clips::from_vec(items))
}

fn side(shown: Shown) -> Side {
    match shown {
        None => Side::Black,
        Some((clip, frame)) => Side::Clip { clip, frame },
    }
}

fn is_row(segment: &Segment, row: &Row) -> bool {
    let mix = match row.2 {
        None => None,
        Some((from, steps)) => Some(Mix {
            from: side(from),
            done: 0,
            steps,
            total: steps,
        }),
    };
    segment.first == side(row.0) && segment.len == row.1 && segment.mix == mix
}

fn are_rows(segments: &[Segment], rows: &[Row]) -> bool {
    segments.len() == rows.len()
        && segments
            .iter()
            .zip(rows)
            .all(|(segment, row)| is_row(segment, row))
}

/// A list of few lines.
#[tactic(auto, using(text_words::proofs::Lining::few_lines))]
fn list_of(alloc: Global, text: &[u8]) -> Result<Edl, EdlFault> {
    if text.len() > 10_000 {
        return Err(EdlFault::NoMemory);
    }
    read_edl(alloc, text, 25)
}

/// The segments of a list over few clips.
fn segments_of(alloc: Global, clips: &Clips, text: &str) -> Result<Segments, EdlFault> {
    if clips.as_slice().len() > 1_000 {
        return Err(EdlFault::NoMemory);
    }
    let list = list_of(alloc, text.as_bytes())?;
    build(alloc, &list, clips)
}

fn is_answer(given: &Result<Segments, EdlFault>, answer: &Answer) -> bool {
    match (given, answer) {
        (Ok(segments), Answer::Gives(rows)) => are_rows(segments.as_slice(), rows),
        (Err(EdlFault::Line { n, why }), Answer::Faulty(line, fault)) => n == line && why == fault,
        _ => false,
    }
}

#[test]
fn lists_give_segments_or_a_fault(rt: HostRuntime) -> Result<(), Fail> {
    let clips = clips(rt.alloc())?;
    for (i, (text, answer)) in LISTS.iter().enumerate() {
        let given = segments_of(rt.alloc(), &clips, text);
        assert!(rt; is_answer(&given, answer), "list {i}");
    }
    Ok(())
}
