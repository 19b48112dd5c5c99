//! Scripts: a header of a rate, clips and a format, and a body of calls.

ghost use Rattle.std.specs.Prelude.{◌≡◌};
ghost use Rattle.script_lang.specs.Fault.{script_word};

use std::marker::Model;
use tl_model::Name;

/// A clip: its line, from 1, its name, its file, and the frame number that the timecode of its first frame is.
#[derive(Drop)]
pub struct ClipLine {
    pub n: u32,
    pub name: Name,
    pub file: Name,
    pub start: u32,
}

/// How chroma is subsampled.
#[derive(Clone, Copy, Debug, PartialEq, Eq)]
pub enum ChromaWord {
    Grey,
    C444,
    C440,
    C422,
    C420,
    C411,
    C410,
}

/// How samples are coded.
#[derive(Clone, Copy, Debug, PartialEq, Eq)]
pub enum CoderWord {
    Range,
    Rice,
}

/// The format of the timeline: that of a clip, or one of its own with a grid of slices.
#[derive(Drop)]
pub enum FormatLine {
    As {
        name: Name,
    },
    Own {
        width: u32,
        height: u32,
        chroma: ChromaWord,
        coder: CoderWord,
        columns: u32,
        rows: u32,
    },
}

/// A call of the body. Places and lengths are counted in frames.
#[derive(Drop)]
pub enum Call {
    Insert {
        at: u32,
        name: Name,
        first: u32,
        len: u32,
    },
    Overwrite {
        at: u32,
        name: Name,
        first: u32,
        len: u32,
    },
    Extract {
        at: u32,
        len: u32,
    },
    Lift {
        at: u32,
        len: u32,
    },
    Split {
        at: u32,
    },
    TrimIn {
        at: u32,
        by: i32,
    },
    TrimOut {
        at: u32,
        by: i32,
    },
    Slip {
        at: u32,
        by: i32,
    },
    Dissolve {
        at: u32,
        len: u32,
    },
    Relink {
        at: u32,
        name: Name,
        first: u32,
    },
    Edl {
        file: Name,
    },
    Undo,
    Redo,
    Want {
        first: u32,
        len: u32,
    },
    Cancel {
        first: u32,
        len: u32,
    },
    Play {
        n: u32,
    },
    Show {
        n: u32,
    },
    Roll {
        first: u32,
        len: u32,
    },
    Work {
        turns: u32,
    },
    Export {
        file: Name,
    },
}

/// A call and its line, from 1.
#[derive(Drop)]
pub struct BodyLine {
    pub n: u32,
    pub call: Call,
}

/// The clips of a header in the order of its lines.
#[derive(Drop)]
pub struct ClipLines {
    items: Vec<ClipLine>,
}

impl Model for ClipLines {
    ghost use Rattle.std.specs.Prelude.{List};
    ghost use Rattle.script_lang.specs.declared.script.ClipLine.{ClipLine};

    ghost Value = { List ClipLine };

    ghost view = { λ lines. lines.items.items };
}

impl ClipLines {
    pub fn from_vec(items: Vec<ClipLine>) -> ClipLines
        ensures { result ≡ items.items }
    {
        ClipLines { items }
    }

    pub fn as_slice(&self) -> &[ClipLine]
        ensures { result.now ≡ self.now }
    {
        self.items.as_slice()
    }
}

/// The calls of a body in the order of its lines.
#[derive(Drop)]
pub struct BodyLines {
    items: Vec<BodyLine>,
}

impl Model for BodyLines {
    ghost use Rattle.std.specs.Prelude.{List};
    ghost use Rattle.script_lang.specs.declared.script.BodyLine.{BodyLine};

    ghost Value = { List BodyLine };

    ghost view = { λ lines. lines.items.items };
}

impl BodyLines {
    pub fn from_vec(items: Vec<BodyLine>) -> BodyLines
        ensures { result ≡ items.items }
    {
        BodyLines { items }
    }

    pub fn as_slice(&self) -> &[BodyLine]
        ensures { result.now ≡ self.now }
    {
        self.items.as_slice()
    }
}

/// A script: how many frames a second has, and its lines.
#[derive(Drop)]
pub struct Script {
    pub rate: u32,
    pub clips: ClipLines,
    pub format: FormatLine,
    pub body: BodyLines,
}

/// What is wrong with a line: the first fault in this order.
#[derive(Clone, Copy, Debug, PartialEq, Eq)]
pub enum ScriptFault {
    /// The line is past the 100,000th, or its clip is past the 1,000th.
    Limit,
    /// The line isn't UTF-8.
    Utf8,
    /// There is no such line.
    Word,
    /// The line may not stand at its place, or the script ends before its format.
    Order,
    /// The number of words is wrong.
    Count,
    /// A number isn't of its form or range.
    Number,
    /// A timecode isn't of its form.
    Timecode,
    /// A size, chroma, coder or grid is out of its limits, or the grid doesn't reach the planes' ends.
    Format,
    /// A clip before it has the name, or the name is `black`.
    SameName,
    /// No clip has the name.
    UnknownClip,
    /// A file is exported that is named before, or a list is read that is exported before.
    SameExport,
}

impl ScriptFault {
    /// Its name, as a session tells it.
    pub fn word(self) -> &'static str
        ensures { result.now ≡ script_word self }
    {
        match self {
            ScriptFault::Limit => "Limit",
            ScriptFault::Utf8 => "Utf8",
            ScriptFault::Word => "Word",
            ScriptFault::Order => "Order",
            ScriptFault::Count => "Count",
            ScriptFault::Number => "Number",
            ScriptFault::Timecode => "Timecode",
            ScriptFault::Format => "Format",
            ScriptFault::SameName => "SameName",
            ScriptFault::UnknownClip => "UnknownClip",
            ScriptFault::SameExport => "SameExport",
        }
    }
}

/// The first faulty line, counted from 1, or want of memory.
#[derive(Clone, Copy, Debug, PartialEq, Eq)]
pub enum ScriptRefusal {
    Fault { n: u32, why: ScriptFault },
    NoMemory,
}
