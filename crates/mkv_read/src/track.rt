ghost use Rattle.std.specs.Prelude.{◌≡◌, ◌+◌, ◌≤◌, length, Some, IfSome, IfOk};
ghost use Rattle.mkv_read.specs.Plain.{LiesBefore};
ghost use Rattle.mkv_read.specs.Elements.{LiesWithin, elements, first_where};
ghost use Rattle.mkv_read.specs.Taking.{Gives};
ghost use Rattle.mkv_read.specs.Tracks.{private_place, bi_size, len_behind, fourcc_place, record_place, is_video, is_ffv1, is_wanted, side_of, is_side, track_within, track_with, track_in, track_of};

use crate::clip::{MAX_PRIVATE, MAX_SIDE, Place};
use crate::element::{child, content, element_at, is_text, number_of};
use crate::fault::{ClipFault, Which};
use ebml_core::{Element, unsigned};
use mkv_elements::{
    CODEC_ID, CODEC_PRIVATE, CONTENT_ENCODINGS, PIXEL_HEIGHT, PIXEL_WIDTH, TRACK_ENTRY,
    TRACK_NUMBER, TRACK_TYPE, TRACKS, VIDEO,
};

/// The TrackType of video (RFC 9559 section 5.1.4.1.3).
pub const VIDEO_TYPE: u64 = 1;

/// How many bytes a BITMAPINFOHEADER has.
const HEADER_LEN: u64 = 40;

/// What is read of a track.
#[derive(Clone, Copy)]
pub struct Track {
    pub number: u64,
    pub width: u32,
    pub height: u32,
    pub private: Place,
}

/// Where the bytes of a CodecPrivate lie; a missing one has none.
fn private_place(bytes: &[u8], private: Option<Element>) -> Place
    requires { IfSome private (LiesWithin (length bytes.now)) }
    ensures exact { result ≡ private_place private }
    ensures lies { LiesBefore (length bytes.now) result }
{
    match private {
        None => Place { from: 0, len: 0 },
        Some(private) => Place {
            from: private.content,
            len: private.end - private.content,
        },
    }
}

/// A BITMAPINFOHEADER's biSize, which is little-endian.
fn bi_size(content: &[u8]) -> u64
    ensures { result ≡ bi_size content.now }
{
    match content {
        [a, b, c, d, ..] => unsigned(&[*d, *c, *b, *a]),
        _ => 0,
    }
}

/// How many bytes follow the header in so many bytes: up to biSize, where it passes the header, else all.
fn len_behind(size: u64, len: u64) -> u64
    requires { 40 ≤ len }
    ensures exact { result ≡ len_behind size len }
    ensures lies { result + 40 ≤ len }
{
    if HEADER_LEN < size {
        return size.min(len) - HEADER_LEN;
    }
    len - HEADER_LEN
}

/// Where the record behind the BITMAPINFOHEADER of a CodecPrivate lies, if its biCompression is FFV1.
#[tactic(auto, unfolding(crate::specs::Tracks::fourcc_place))]
fn fourcc_place(bytes: &[u8], private: Option<Element>) -> Option<Place>
    requires { IfSome private (LiesWithin (length bytes.now)) }
    ensures exact { result ≡ fourcc_place bytes.now private }
    ensures lies { IfSome result (LiesBefore (length bytes.now)) }
{
    let Some(private) = private else {
        return None;
    };
    let content = content(bytes, private);
    let len = content.len() as u64;
    if len < HEADER_LEN {
        return None;
    }
    if &content[16..20] != b"FFV1".as_slice() {
        return None;
    }
    Some(Place {
        from: private.content + HEADER_LEN,
        len: len_behind(bi_size(content), len),
    })
}

/// Where the configuration record of an entry's codec lies, if that is FFV1.
#[tactic(auto, unfolding(crate::specs::Tracks::record_place))]
fn record_place(bytes: &[u8], entry: Element) -> Option<Place>
    requires { LiesWithin (length bytes.now) entry }
    ensures exact { result ≡ record_place bytes.now entry }
    ensures lies { IfSome result (LiesBefore (length bytes.now)) }
{
    let codec = child(bytes, entry, CODEC_ID);
    if is_text(bytes, codec, b"V_FFV1") {
        return Some(private_place(bytes, child(bytes, entry, CODEC_PRIVATE)));
    }
    if is_text(bytes, codec, b"V_MS/VFW/FOURCC") {
        return fourcc_place(bytes, child(bytes, entry, CODEC_PRIVATE));
    }
    None
}

/// Whether an element is a TrackEntry of video.
#[tactic(auto, unfolding(crate::specs::Tracks::is_video))]
fn is_video(bytes: &[u8], element: Element) -> bool
    requires { LiesWithin (length bytes.now) element }
    ensures { result ≡ is_video bytes.now element }
{
    if element.id != TRACK_ENTRY {
        return false;
    }
    number_of(bytes, child(bytes, element, TRACK_TYPE)) == VIDEO_TYPE
}

/// Whether an element is a TrackEntry of video of FFV1.
#[tactic(auto, unfolding(crate::specs::Tracks::is_ffv1))]
fn is_ffv1(bytes: &[u8], element: Element) -> bool
    requires { LiesWithin (length bytes.now) element }
    ensures { result ≡ is_ffv1 bytes.now element }
{
    is_video(bytes, element) && record_place(bytes, element).is_some()
}

/// Whether an element is a TrackEntry of video, and where that is asked for, of FFV1.
fn is_wanted(bytes: &[u8], ffv1: bool, element: Element) -> bool
    requires { LiesWithin (length bytes.now) element }
    ensures { result ≡ is_wanted bytes.now ffv1 element }
{
    if ffv1 {
        is_ffv1(bytes, element)
    } else {
        is_video(bytes, element)
    }
}

/// The first TrackEntry of video in a Tracks, and where that is asked for, of FFV1.
fn first_entry(bytes: &[u8], tracks: Element, ffv1: bool) -> Option<Element>
    requires { LiesWithin (length bytes.now) tracks }
    ensures exact { result ≡ first_where (is_wanted bytes.now ffv1) (elements bytes.now tracks.content tracks.end) }
    ensures lies { IfSome result (LiesWithin (length bytes.now)) }
{
    let mut place = tracks.content;
    loop {
        match element_at(bytes, place, tracks.end) {
            Ok(None) => return None,
            Ok(Some(element)) => {
                if is_wanted(bytes, ffv1, element) {
                    return Some(element);
                }
                place = element.end;
            }
            Err(_) => return None,
        }
    }
}

/// A picture's width or height; without Video it is missing too.
#[tactic(auto, unfolding(crate::specs::Tracks::side_of))]
fn side_of(bytes: &[u8], id: u32, video: Option<Element>) -> u64
    requires { IfSome video (LiesWithin (length bytes.now)) }
    ensures { result ≡ side_of bytes.now id video }
{
    match video {
        None => 0,
        Some(video) => number_of(bytes, child(bytes, video, id)),
    }
}

/// Whether a picture may be so wide or high.
fn is_side(side: u64) -> bool
    ensures { result ≡ is_side side }
{
    0 < side && side <= MAX_SIDE
}

/// A track, if it is within the limits.
#[tactic(auto, unfolding(crate::specs::Tracks::track_within))]
fn track_within(
    number: u64,
    width: u64,
    height: u64,
    private: Place,
    encoded: bool,
) -> Result<Track, ClipFault>
    ensures exact { Gives (λ track. track) result
        (track_within (record { number = number; width = width; height = height; private = private }) encoded) }
    ensures private { IfOk result (λ track. track.private ≡ private) }
{
    if private.len == 0 {
        return Err(ClipFault::NoPrivate);
    }
    if encoded {
        return Err(ClipFault::Encoded);
    }
    if !is_side(width) {
        return Err(ClipFault::Limit {
            which: Which::Width,
        });
    }
    if !is_side(height) {
        return Err(ClipFault::Limit {
            which: Which::Height,
        });
    }
    if private.len > MAX_PRIVATE {
        return Err(ClipFault::Limit {
            which: Which::Private,
        });
    }
    Ok(Track {
        number,
        width: width as u32,
        height: height as u32,
        private,
    })
}

/// The track of a TrackEntry whose record lies at a place.
fn track_with(bytes: &[u8], entry: Element, private: Place) -> Result<Track, ClipFault>
    requires { LiesWithin (length bytes.now) entry }
    ensures exact { Gives (λ track. track) result (track_with bytes.now entry (Some private)) }
    ensures private { IfOk result (λ track. track.private ≡ private) }
{
    let number = number_of(bytes, child(bytes, entry, TRACK_NUMBER));
    let video = child(bytes, entry, VIDEO);
    let width = side_of(bytes, PIXEL_WIDTH, video);
    let height = side_of(bytes, PIXEL_HEIGHT, video);
    let encoded = child(bytes, entry, CONTENT_ENCODINGS).is_some();
    let track = track_within(number, width, height, private, encoded)?;
    Ok(track)
}

/// The first track of video of FFV1 in a Tracks.
#[tactic(auto, unfolding(crate::specs::Tracks::track_in))]
fn track_in(bytes: &[u8], tracks: Option<Element>) -> Result<Track, ClipFault>
    requires { IfSome tracks (LiesWithin (length bytes.now)) }
    ensures exact { Gives (λ track. track) result (track_in bytes.now tracks) }
    ensures lies { IfOk result (λ track. LiesBefore (length bytes.now) track.private) }
{
    let Some(tracks) = tracks else {
        return Err(ClipFault::NoTrack);
    };
    let Some(entry) = first_entry(bytes, tracks, true) else {
        if first_entry(bytes, tracks, false).is_some() {
            return Err(ClipFault::Codec);
        }
        return Err(ClipFault::NoTrack);
    };
    let Some(private) = record_place(bytes, entry) else {
        return Err(ClipFault::Codec);
    };
    let track = track_with(bytes, entry, private)?;
    Ok(track)
}

/// The first track of video of FFV1 in a Segment.
#[tactic(auto, unfolding(crate::specs::Tracks::track_of))]
pub fn track_of(bytes: &[u8], segment: Option<Element>) -> Result<Track, ClipFault>
    requires { IfSome segment (LiesWithin (length bytes.now)) }
    ensures exact { Gives (λ track. track) result (track_of bytes.now segment) }
    ensures lies { IfOk result (λ track. LiesBefore (length bytes.now) track.private) }
{
    let Some(segment) = segment else {
        return Err(ClipFault::NoTrack);
    };
    let track = track_in(bytes, child(bytes, segment, TRACKS))?;
    Ok(track)
}
