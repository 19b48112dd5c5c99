//! The language of the editor: scripts, and the lines that a session answers, both read and written.
//!
//! A script's line goes by its first word: `header.rt` reads the words of the header's lines, `calls.rt` those of the body's, `state.rt`
//! keeps what stands before a line, and `script_reading.rt` tests each line's faults in their order.
#![tactic(auto)]

mod calls;
mod fields;
mod header;
mod law;
mod out_line;
mod parsing;
mod printing;
mod reading;
mod script;
mod script_reading;
mod state;
mod words;
mod writing;

pub use header::chroma_planes;
pub use law::scripts_read_back;
pub use out_line::OutLine;
pub use printing::put_line;
pub use reading::read_line;
pub use script::{
    BodyLine, BodyLines, Call, ChromaWord, ClipLine, ClipLines, CoderWord, FormatLine, Script,
    ScriptFault, ScriptRefusal,
};
pub use script_reading::read_script;
pub use writing::write_script;
