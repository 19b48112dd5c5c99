//! Sizes of subsampled chroma.
ghost use Rattle.std.specs.Prelude.{◌≡◌, ◌+◌, ◌-◌, ◌/◌, ◌^◌, ◌≤◌};
ghost use Rattle.tl_limits.specs.Limits.{max_side};
ghost use Rattle.pic_planes.specs.Shape.{shifted_down, shifted_up};

/// A size or a place divided by 2 to the power of a shift, rounded down.
#[inline]
pub fn shifted_down(size: u32, shift: u8) -> u32
    requires shift { shift ≤ 2 }
    ensures value { result ≡ shifted_down size shift }
    ensures within { result ≤ size }
{
    size / step_of(shift)
}

/// A size divided by 2 to the power of a shift, rounded up: the size of a chroma plane by that of luma.
#[inline]
pub fn shifted_up(size: u32, shift: u8) -> u32
    requires shift { shift ≤ 2 }
    requires size { size ≤ max_side }
    ensures value { result ≡ shifted_up size shift }
    ensures within { result ≤ size }
    ensures some { 1 ≤ size → 1 ≤ result }
{
    let step = step_of(shift);
    (size + (step - 1)) / step
}

// The luma samples of a chroma sample in one direction.
#[inline]
fn step_of(shift: u8) -> u32
    requires { shift ≤ 2 }
    ensures step { result ≡ 2 ^ shift }
    ensures some { 1 ≤ result }
    ensures few { result ≤ 4 }
{
    match shift {
        0 => 1,
        1 => 2,
        _ => 4,
    }
}
