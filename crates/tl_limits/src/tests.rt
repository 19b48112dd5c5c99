use super::*;
use std::test::*;

#[test]
fn powers_of_two_are_written_right(rt: HostRuntime) {
    assert_eq!(rt; MAX_CLIP_BYTES, 1 << 31);
    assert_eq!(rt; MAX_TOTAL_BYTES, 1 << 32);
    assert_eq!(rt; MAX_PACKET_BYTES, 1 << 40);
    assert_eq!(rt; MAX_ENTRIES, 1 << 40);
    assert_eq!(rt; MAX_TEXT_BYTES, 16 << 20);
    assert_eq!(rt; MAX_SLICE_BYTES, (1 << 24) - 1);
    assert_eq!(rt; TIMECODE_FRAMES, 1 << 25);
}
