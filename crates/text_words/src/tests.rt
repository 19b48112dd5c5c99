//! Worked values.

use super::{
    Blanks, is_text, next_line, number, put_number, put_timecode, signed_number, timecode, trim,
    words,
};
use std::alloc::{AllocError, Global};
use std::test::Fail;

#[rattlefmt::skip]
const NUMBERS: [(&str, Option<u32>); 8] = [
    ("7", Some(7)),
    ("007", Some(7)),
    ("1000000", Some(1_000_000)),
    ("1000001", None),
    ("12345678", None),
    ("", None),
    ("1x", None),
    ("-1", None),
];

#[rattlefmt::skip]
const TIMECODES: [(&str, u32, Option<u32>); 8] = [
    ("01:00:00:00", 25, Some(90_000)),
    ("00:00:04:00", 25, Some(100)),
    ("00:00:00:24", 25, Some(24)),
    ("00:00:00:24", 24, None),
    ("23:59:59:239", 240, Some(20_735_999)),
    ("24:00:00:00", 25, None),
    ("00:60:00:00", 25, None),
    ("00:00:00:5", 25, None),
];

fn written(alloc: Global) -> Result<Vec<u8>, AllocError> {
    let mut out = Vec::new(alloc);
    put_number(&mut out, 3, 7)?;
    put_number(&mut out, 1, 0)?;
    put_timecode(&mut out, 25, 90_024)?;
    Ok(out)
}

#[test]
fn worked_values(rt: HostRuntime) -> Result<(), Fail> {
    for (word, value) in &NUMBERS {
        assert_eq!(rt; number(7, 0, 1_000_000, word.as_bytes()), *value);
    }
    for (word, rate, value) in &TIMECODES {
        assert_eq!(rt; timecode(*rate, word.as_bytes()), *value);
    }
    assert_eq!(rt; signed_number(7, 1_000_000, b"-12"), Some(-12));
    assert_eq!(rt; signed_number(7, 1_000_000, b"12"), Some(12));
    assert_eq!(rt;
        written(rt.alloc())?.as_slice(),
        b"007001:00:00:24".as_slice()
    );
    Ok(())
}

#[test]
fn lines_and_words(rt: HostRuntime) -> Result<(), Fail> {
    assert_eq!(rt;
        next_line(b"one\r\n\ntwo"),
        Some((b"one".as_slice(), b"\ntwo".as_slice()))
    );
    assert_eq!(rt;
        next_line(b"two\r"),
        Some((b"two\r".as_slice(), b"".as_slice()))
    );
    assert_eq!(rt; next_line(b""), None);
    assert_eq!(rt; trim(Blanks::SpaceTab, b" \ta b\r "), b"a b\r".as_slice());
    assert_eq!(rt;
        words(rt.alloc(), Blanks::SpaceTab, b" a\tb\r ")?.as_slice(),
        [b"a".as_slice(), b"b\r".as_slice()].as_slice()
    );
    assert_eq!(rt;
        words(rt.alloc(), Blanks::SpaceTabReturn, b"a\rb")?.len(),
        2
    );
    assert_eq!(rt; is_text(b"\xC3\xA9"), true);
    assert_eq!(rt; is_text(b"\xC3"), false);
    Ok(())
}
