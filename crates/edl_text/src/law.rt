//! What is written is read back.

ghost use Rattle.edl_text.specs.Law.{ReadBack};

/// Tells, in a proof, that a writable list which was written is read back but for its line numbers. It does nothing.
#[tactic(auto, using(crate::proofs::Again::read_back))]
pub fn lists_read_back()
    ensures { ReadBack }
{}
