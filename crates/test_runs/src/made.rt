//! Scripts that are made from a number.

ghost use Rattle.std.specs.Prelude.{◌≡◌, length};

/// How a run is to end: its lines, and how many bytes `gen.mkv` and the screen have, with their sums.
#[derive(Clone, Copy)]
pub struct Made {
    pub name: &'static str,
    pub lines: &'static str,
    pub exported: (usize, u32),
    pub shown: (usize, u32),
}

/// The bytes were written by a model in Python. A frame that is dissolved into itself is as it was, so the export has the clip's own
/// bytes, and the screen has the frames 0 and N / 2 of the clip.
#[rattlefmt::skip]
pub const MADE: [Made; 3] = [
    Made { name: "gen:1", lines: "ok 1\nok 1\nrefused NoCut\nwanted 1\nworked 1\nframe 0\nframe 0\nok 1\nok 1\nasked 1\nexport 1 done 1\n",
        exported: (1_797, 191_816_832), shown: (9_216, 4_138_903_006) },
    Made { name: "gen:10", lines: "ok 10\nok 10\nok 10\nwanted 10\nworked 10\nframe 0\nframe 5\nok 10\nok 10\nasked 1\nexport 1 done 10\n",
        exported: (16_617, 153_448_143), shown: (9_216, 4_287_862_366) },
    // The first 64 frames are wanted.
    Made { name: "gen:1000",
        lines: "ok 1000\nok 1000\nok 1000\nwanted 64\nworked 64\nframe 0\nframe 500\nok 1000\nok 1000\nasked 1\nexport 1 done 1000\n",
        exported: (1_732_366, 4_209_675_218), shown: (9_216, 4_006_152_414) },
];

/// How many bytes there are, and the sum of the sums of their fronts, in 32 bits.
pub(crate) fn summed(bytes: &[u8]) -> (usize, u32)
    ensures { result.0 ≡ length bytes.now }
{
    let mut sum: u32 = 0;
    let mut sums: u32 = 0;
    for byte in bytes {
        sum = sum.wrapping_add(u32::from(*byte));
        sums = sums.wrapping_add(sum);
    }
    (bytes.len(), sums)
}
