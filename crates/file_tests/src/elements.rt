use ebml_core::*;
use std::test::*;

#[test]
fn sizes_and_ids(rt: HostRuntime) {
    let sizes: [(&[u8], Result<(Size, u8), VintFault>); 10] = [
        (&[0x81], Ok((Size::Known(1), 1))),
        (&[0x40, 0x01], Ok((Size::Known(1), 2))),
        (&[0x80], Ok((Size::Known(0), 1))),
        (&[0xFF], Ok((Size::Unknown, 1))),
        (
            &[0x01, 0xFF, 0xFF, 0xFF, 0xFF, 0xFF, 0xFF, 0xFF],
            Ok((Size::Unknown, 8)),
        ),
        (
            &[0x01, 0xFF, 0xFF, 0xFF, 0xFF, 0xFF, 0xFF, 0xFE, 0],
            Ok((Size::Known(72_057_594_037_927_934), 8)),
        ),
        (&[0x00], Err(VintFault::BadVint)),
        (&[0x40], Err(VintFault::Short)),
        (&[0x7F, 0xFF], Ok((Size::Unknown, 2))),
        (&[], Err(VintFault::Short)),
    ];
    for (bytes, want) in sizes {
        assert!(rt; vint_size(bytes) == want, "size {bytes:?}");
    }
    let ids: [(&[u8], Result<(u32, u8), VintFault>); 4] = [
        (&[0x1A, 0x45, 0xDF, 0xA3, 0x80], Ok((0x1A45_DFA3, 4))),
        (&[0xEC], Ok((0xEC, 1))),
        (&[0x0F, 0xFF], Err(VintFault::BadVint)),
        (&[0x1A, 0x45], Err(VintFault::Short)),
    ];
    for (bytes, want) in ids {
        assert!(rt; vint_id(bytes) == want, "id {bytes:?}");
    }
}

#[test]
fn walks(rt: HostRuntime) {
    // A Void of two bytes, one of none whose size has two octets, and one that passes the end.
    let bytes = [0xEC, 0x82, 7, 7, 0xEC, 0x40, 0x00, 0xEC, 0x82, 7];
    let mut walker = Walker::over(&bytes, 0, 10);
    let void = Element {
        id: 0xEC,
        start: 0,
        content: 2,
        end: 4,
        unknown: false,
    };
    let empty = Element {
        id: 0xEC,
        start: 4,
        content: 7,
        end: 7,
        unknown: false,
    };
    let overrun = EbmlFault {
        at: 7,
        why: EbmlWhy::Overrun,
    };
    assert!(rt; walker.next() == Ok(Some(void)));
    assert!(rt; walker.next() == Ok(Some(empty)));
    assert!(rt; walker.next() == Err(overrun));
    assert!(rt; walker.next() == Err(overrun));
    let mut walker = Walker::over(&bytes, 4, 7);
    assert!(rt; walker.next() == Ok(Some(empty)));
    assert!(rt; walker.next() == Ok(None));
}

#[test]
fn ends_of_unknown_sizes(rt: HostRuntime) {
    // An element of no bytes, one of one byte, and one of unknown size with the first once more in it.
    let bytes = [0x81, 0x80, 0x82, 0x81, 7, 0x40, 0x03, 0xFF, 0x81, 0x80];
    assert!(rt; Walker::over(&bytes, 0, 10).end_before(&[0x84, 0x4003]) == 5);
    assert!(rt; Walker::over(&bytes, 0, 10).end_before(&[0x84]) == 10);
    assert!(rt; Walker::over(&bytes, 0, 4).end_before(&[0x4003]) == 4);
}
