//! Timecodes `HH:MM:SS:FF`.

ghost use Rattle.std.specs.Prelude.{◌≡◌, ◌≤◌, ◌<◌, ◌^◌, ℕ, [], ◌∷◌, ◌++◌, OnOk, OnErr, IfSome};
ghost use Rattle.tl_limits.specs.Limits.{IsRate, timecode_frames};
ghost use Rattle.text_words.specs.Number.{number_text, Extends};
ghost use Rattle.text_words.specs.Timecode.{timecode, timecode_text, pair_of, frames_of, frame_number};

use crate::numbers::{number, put_number};
use std::alloc::AllocError;

/// The frame number of a timecode at a rate: hours to 23, minutes and seconds to 59, two or three digits of frames below the rate.
#[tactic(auto, unfolding(crate::specs::Timecode::timecode))]
pub fn timecode(rate: u32, word: &[u8]) -> Option<u32>
    requires { IsRate rate }
    ensures exact { result ≡ timecode rate word.now }
    ensures bound { IfSome result (λ n. n < timecode_frames) }
{
    let [h, o, b':', m, i, b':', s, e, b':', digits @ ..] = word else {
        return None;
    };
    let hours = pair_of(23, *h, *o)?;
    let minutes = pair_of(59, *m, *i)?;
    let seconds = pair_of(59, *s, *e)?;
    let frames = frames_of(rate, digits)?;
    Some((3600 * hours + 60 * minutes + seconds) * rate + frames)
}

fn pair_of(high: u32, tens: u8, ones: u8) -> Option<u32>
    ensures exact { result ≡ pair_of high tens ones }
    ensures bound { IfSome result (λ n. n ≤ high) }
{
    number(2, 0, high, &[tens, ones])
}

fn frames_of(rate: u32, digits: &[u8]) -> Option<u32>
    requires { IsRate rate }
    ensures exact { result ≡ frames_of rate digits.now }
    ensures bound { IfSome result (λ n. n < rate) }
{
    if digits.len() >= 2 {
        number(3, 0, rate - 1, digits)
    } else {
        None
    }
}

/// Puts the timecode of a frame number at the end, each part in at least two digits. After a refusal the list begins as before.
#[tactic(auto, unfolding(crate::specs::Timecode::timecode_text))]
pub fn put_timecode(out: &mut Vec<u8>, rate: u32, frame: u32) -> Result<(), AllocError>
    requires { IsRate rate }
    ensures ok { OnOk result (out.new.items ≡ out.old.items ++ timecode_text rate frame) }
    ensures err { OnErr result (Extends out.old.items out.new.items) }
{
    let seconds = frame / rate;
    put_part(out, seconds / 3600)?;
    put_part(out, seconds / 60 % 60)?;
    put_part(out, seconds % 60)?;
    put_number(out, 2, frame % rate)?;
    Ok(())
}

fn put_part(out: &mut Vec<u8>, number: u32) -> Result<(), AllocError>
    ensures ok { OnOk result (out.new.items ≡ out.old.items ++ (number_text 2 number ++ 58 ∷ [])) }
    ensures err { OnErr result (Extends out.old.items out.new.items) }
{
    put_number(out, 2, number)?;
    out.push(b':')?;
    Ok(())
}
