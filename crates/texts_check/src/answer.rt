//! What is printed of a text.

ghost use Rattle.std.specs.Prelude.{◌≡◌, ◌<◌, ◌^◌, length, IfOk};
ghost use Rattle.std.specs.Str.Lines.{lines};
ghost use Rattle.tl_limits.specs.Limits.{IsRate};
ghost use Rattle.edl_text.specs.List.{edl};
ghost use Rattle.script_lang.specs.ScriptText.{script};
ghost use Rattle.texts_check.specs.Answer.{list_answer, script_answer};

use crate::event::put_events;
use crate::fault::put_fault;
use edl_text::{EdlFault, read_edl};
use script_lang::{ScriptRefusal, read_script, write_script};
use std::alloc::{AllocError, Global};

/// The events of an edit list, a line each, or its first fault.
pub fn list_answer(alloc: Global, text: &[u8], rate: u32) -> Result<Vec<u8>, AllocError>
    requires rate { IsRate rate }
    requires lines { length (lines text.now) < 2 ^ 32 }
    ensures { IfOk result (λ v. v.items ≡ list_answer (edl rate text.now)) }
{
    let mut out = Vec::new(alloc);
    match read_edl(alloc, text, rate) {
        Ok(list) => put_events(&mut out, list.events.as_slice())?,
        Err(EdlFault::Line { n, why }) => put_fault(&mut out, n, why.word())?,
        Err(EdlFault::NoMemory) => return Err(AllocError),
    }
    Ok(out)
}

/// A script as it is written, or its first fault.
pub fn script_answer(alloc: Global, text: &[u8]) -> Result<Vec<u8>, AllocError>
    ensures { IfOk result (λ v. v.items ≡ script_answer (script text.now)) }
{
    match read_script(alloc, text) {
        Ok(script) => Ok(write_script(alloc, &script)?),
        Err(ScriptRefusal::Fault { n, why }) => {
            let mut out = Vec::new(alloc);
            put_fault(&mut out, n, why.word())?;
            Ok(out)
        }
        Err(ScriptRefusal::NoMemory) => Err(AllocError),
    }
}
