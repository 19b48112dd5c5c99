use super::*;
use std::test::*;

fn crosses_threads<T: Send + Sync>(_value: &T) {}

fn rendered_crosses<M: Media>(rendered: &Rendered<M>)
where
    M::Frame: Send + Sync,
{
    crosses_threads(rendered)
}

#[test]
fn copies_equal_their_sources(rt: HostRuntime) -> Result<(), Fail> {
    let mix = Mix {
        from: Side::Black,
        done: 1,
        steps: 2,
        total: 3,
    };
    let segment = Segment {
        first: Side::Clip { clip: 4, frame: 5 },
        len: 6,
        mix: Some(mix),
    };
    let segments = Segments::from_vec(vec![in rt.alloc(); segment, segment]?);
    let again = segments.copy(rt.alloc())?;
    assert_eq!(rt; again.as_slice(), [segment, segment].as_slice());

    let name = Name::from_text(String::from_str(rt.alloc(), "a.mkv")?);
    assert_eq!(rt; name.copy(rt.alloc())?.as_str(), "a.mkv");

    let mut entries = Vec::new(rt.alloc());
    let take = Side::Clip { clip: 1, frame: 2 };
    for act in [
        Act::Edit(Edit::Insert {
            at: 3,
            take,
            len: 4,
        }),
        Act::Edit(Edit::Extract { at: 5, len: 6 }),
        Act::Want { first: 7, len: 8 },
        Act::Cancel { first: 9, len: 10 },
        Act::Claim,
        Act::File { job: 11 },
        Act::Release { job: 12 },
        Act::Play { n: 13 },
        Act::Stop,
    ] {
        entries.push(Entry { pass: 14, act })?;
    }
    let copy = Journal::from_vec(entries).copy(rt.alloc())?;
    let acts = copy.as_slice();
    assert_eq!(rt; acts.len(), 9);
    assert_eq!(rt; acts[0].pass, 14);
    assert!(rt; matches!(&acts[1].act, Act::Edit(Edit::Extract { at: 5, len: 6 })));
    assert!(rt; matches!(&acts[5].act, Act::File { job: 11 }));
    assert!(rt; matches!(&acts[8].act, Act::Stop));
    Ok(())
}

#[test]
fn edits_of_no_frames_or_too_many_are_ill_formed(rt: HostRuntime) {
    let take = Side::Black;
    for (at, len, is_well_formed) in [
        (0, 1, true),
        (1_000_000, 1_000_000, true),
        (0, 0, false),
        (1_000_001, 1, false),
        (0, 1_000_001, false),
    ] {
        assert_eq!(rt;
            Edit::Insert { at, take, len }.is_well_formed(),
            is_well_formed
        );
        assert_eq!(rt; Edit::Extract { at, len }.is_well_formed(), is_well_formed);
    }
    let far = Side::Clip {
        clip: 0,
        frame: 1_000_001,
    };
    let insert = Edit::Insert {
        at: 0,
        take: far,
        len: 1,
    };
    assert!(rt; !insert.is_well_formed());
}
