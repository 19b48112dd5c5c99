//! The law of prediction.
ghost use Rattle.std.specs.Prelude.{ℕ, ℤ, ◌<◌};
ghost use Rattle.ffv1_predict.specs.declared.near.Near.{Near};
ghost use Rattle.ffv1_predict.specs.Near.{coded, IsRestored, IsNear};

/// Tells, in a proof, that the difference that is coded for a sample gives the sample back. It does nothing.
pub fn coded_is_restored()
    ensures { (context : ℤ) (n : Near) (sample : ℕ) → IsNear n → sample < 256 → IsRestored context n (coded context n sample) sample }
{}
