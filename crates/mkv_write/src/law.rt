//! The law of writing and reading back, about definitions alone.

ghost use Rattle.mkv_write.specs.Law.{IsWritable, IsReadBack};
ghost use Rattle.mkv_write.specs.Writing.{Writing, file_of};

/// What is written within the limits is read back: the clip of the file has the size of the pictures, the
/// bytes of the configuration record, and the bytes of each packet, in order.
pub fn written_is_read_back()
    ensures { (w : Writing) → IsWritable w → IsReadBack w (file_of w) }
{}
