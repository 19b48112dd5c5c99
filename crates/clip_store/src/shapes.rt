//! Whether two shapes are the same.
ghost use Rattle.std.specs.Prelude.{◌≡◌};
ghost use Rattle.clip_store.specs.Pictures.{same_chroma, same_shape};

use pic_planes::{Chroma, Shape};

/// Whether two shapes are the same, as a comparison that clauses can name.
pub(crate) fn same_shape(a: Shape, b: Shape) -> bool
    ensures { result ≡ same_shape a b }
{
    a.width() == b.width() && a.height() == b.height() && same_chroma(a.chroma(), b.chroma())
}

fn same_chroma(a: Chroma, b: Chroma) -> bool
    ensures { result ≡ same_chroma a b }
{
    a == b
}
