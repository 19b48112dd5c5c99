//! What is written is read back.

ghost use Rattle.script_lang.specs.Law.{ScriptsReadBack};

/// Tells, in a proof, that a script of single words which was written is read back, by its own line numbers. It does nothing.
#[tactic(auto, using(crate::proofs::Written::scripts_read_back))]
pub fn scripts_read_back()
    ensures { ScriptsReadBack }
{}
