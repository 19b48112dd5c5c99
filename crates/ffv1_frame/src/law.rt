//! The law of decoding, about its definitions alone.
ghost use Rattle.std.specs.Prelude.{◌≡◌, ℕ, List, Result};
ghost use Rattle.pic_planes.specs.Shape.{Layout};
ghost use Rattle.pic_planes.specs.Picture.{Image};
ghost use Rattle.ffv1_record.specs.Parameters.{Parameters};
ghost use Rattle.tl_model.specs.declared.fault.FrameFault.{FrameFault};
ghost use Rattle.ffv1_frame.specs.Frame.{Gives};
ghost use Rattle.ffv1_frame.specs.Law.{told};

/// Tells, in a proof, that each packet decodes to exactly one picture or fault, whatever the record, the shape and the bytes are.
/// It does nothing.
pub fn one_decoding()
    ensures some { (p : Parameters) (shape : Layout) (packet : List ℕ)
        → (result : Result Image FrameFault) × Gives p shape packet (told result) }
    ensures one { (p : Parameters) (shape : Layout) (packet : List ℕ) (a b : Result Image FrameFault)
        → Gives p shape packet (told a) → Gives p shape packet (told b) → a ≡ b }
{}
