//! The laws of what is written, about the definitions alone.
ghost use Rattle.std.specs.Prelude.{◌≡◌, List, ℕ, Option};
ghost use Rattle.pic_planes.specs.Picture.{Image};
ghost use Rattle.ffv1_record.specs.Parameters.{Parameters};
ghost use Rattle.ffv1_frame.specs.Written.{Writes, IsReadBack};

use tl_base::numbers_read_back;

/// Each picture is written as exactly one thing: a packet, or none since a slice is too long.
pub fn writes_one_packet()
    ensures exists { (p : Parameters) (image : Image) → (packet : Option (List ℕ)) × Writes p image packet }
    ensures one { (p : Parameters) (image : Image) (packet other : Option (List ℕ)) → Writes p image packet → Writes p image other
        → packet ≡ other }
{}

/// The packet that a picture is written as decodes to the picture, by each record that the picture suits.
pub fn written_is_read_back()
    ensures { IsReadBack }
{
    numbers_read_back();
}
