//! The laws of Golomb-Rice mode, about its definitions alone.
ghost use Rattle.ffv1_rice.specs.Law.{ReadsDifferences, ReadsLines, StepsAreSamples, ParameterIsLeast};

/// A difference is read back with the state that it was written with, and leaves the same state.
pub fn reads_differences()
    ensures { ReadsDifferences }
{}

/// The parameter of a state is the least k with error_sum ≤ count * 2^k.
pub fn parameter_is_least()
    ensures { ParameterIsLeast }
{}

/// A line that was written is read back, at the ends of lines too.
pub fn reads_lines()
    ensures { ReadsLines }
{}

/// Steps that take all that a run has in the line give the samples of the standard, which goes one by one.
pub fn steps_are_samples()
    ensures { StepsAreSamples }
{}
