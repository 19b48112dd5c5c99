//! Lines of sessions, put and read, and scripts.

use pic_planes::Chroma;
use script_lang::{
    ChromaWord, OutLine, ScriptFault, ScriptRefusal, chroma_planes, put_line, read_line,
    read_script, write_script,
};
use std::alloc::{AllocError, Global};
use std::test::Fail;

/// Texts, and whether each is a line.
#[rattlefmt::skip]
const TEXTS: [(&str, bool); 20] = [
    ("ok 3\n", true),
    ("refused OutsideClip\n", true),
    ("refused EmptyTimeline\n", true),
    ("wanted 3\n", true),
    ("frame 1\n", true),
    ("frame 2\n", true),
    ("pending 0\n", true),
    ("pending 1\n", true),
    ("pending 2\n", true),
    ("worked 3\n", true),
    ("asked 1\n", true),
    ("fault line 4 Number\n", true),
    ("usage: timeline SCRIPT [--workers N] [--cache N] [--journal N]\n", true),
    ("export 1 done 3\n", true),
    ("export 1 fault 2 A 0 Chain\n", true),
    ("ok 3", false),
    ("ok  3\n", false),
    ("ok 03\n", false),
    ("ok 4294967296\n", false),
    ("fault line 4 Later\n", false),
];

/// Whether a text is a line, and is put as it was read.
#[tactic(auto, using(script_lang::proofs::Soundness::listed_if_sound))]
fn is_put_again(alloc: Global, text: &str) -> Result<bool, AllocError> {
    match read_line(alloc, text.as_bytes())? {
        Some(line) => {
            let mut out = Vec::new(alloc);
            put_line(&line, &mut out)?;
            Ok(out.as_slice() == text.as_bytes())
        }
        None => Ok(false),
    }
}

#[test]
fn lines_are_put_as_they_are_read(rt: HostRuntime) -> Result<(), Fail> {
    for (text, is_line) in &TEXTS {
        assert_eq!(rt; is_put_again(rt.alloc(), text)?, *is_line);
    }
    Ok(())
}

#[test]
#[tactic(auto, unfolding(script_lang::specs::Line::fields))]
fn an_ending_is_put(rt: HostRuntime) -> Result<(), Fail> {
    let mut out = Vec::new(rt.alloc());
    put_line(
        &OutLine::Done {
            export: 1,
            frames: 3,
        },
        &mut out,
    )?;
    assert_eq!(rt; out.as_slice(), b"export 1 done 3\n".as_slice());
    Ok(())
}

/// What stands before a call.
#[rattlefmt::skip]
const HEADER: &str = "rate 25\nclip A a.mkv\nformat as A\n";

/// Scripts, and the line and the reason of each one's fault.
#[rattlefmt::skip]
const SCRIPTS: [(&[u8], Option<(u32, ScriptFault)>); 30] = [
    (b"rate 25\nclip A a.mkv\nformat as A\ninsert 0 A 0 3\nexport o.mkv\n", None),
    (b"# \xFF\n \t\r \nrate 25\r\nclip A a.mkv 01:00:00:24\nformat 8 1 411 rice 2 1", None),
    (b"", Some((1, ScriptFault::Order))),
    (b"rate 25\n\n", Some((3, ScriptFault::Order))),
    (b"rate 0", Some((1, ScriptFault::Number))),
    (b"rate 241", Some((1, ScriptFault::Number))),
    (b"rate 25 25", Some((1, ScriptFault::Count))),
    (b"rate 25\nrate 25", Some((2, ScriptFault::Order))),
    (b" #", Some((1, ScriptFault::Word))),
    (b"clip A", Some((1, ScriptFault::Order))),
    (b"rate 25\nclip A", Some((2, ScriptFault::Count))),
    (b"rate 25\nclip A \xFF", Some((2, ScriptFault::Utf8))),
    (b"rate 25\nclip A a.mkv 00:00:00:25", Some((2, ScriptFault::Timecode))),
    (b"rate 25\nclip A a.mkv 00:00:00;00", Some((2, ScriptFault::Timecode))),
    (b"rate 25\nclip black a.mkv", Some((2, ScriptFault::SameName))),
    (b"rate 25\nclip A a.mkv\nclip A b.mkv", Some((3, ScriptFault::SameName))),
    (b"rate 25\nformat as A", Some((2, ScriptFault::UnknownClip))),
    (b"rate 25\nformat as A B", Some((2, ScriptFault::Count))),
    (b"rate 25\nformat 2 2 grey range 1", Some((2, ScriptFault::Count))),
    (b"rate 25\nformat 2 2 gray range 1 x", Some((2, ScriptFault::Number))),
    (b"rate 25\nformat 2 2 gray range 1 1", Some((2, ScriptFault::Format))),
    (b"rate 25\nformat 2 2 grey Range 1 1", Some((2, ScriptFault::Format))),
    (b"rate 25\nformat 0 2 grey range 1 1", Some((2, ScriptFault::Format))),
    (b"rate 25\nformat 8193 2 grey range 1 1", Some((2, ScriptFault::Format))),
    (b"rate 25\nformat 2 2 grey range 3 1", Some((2, ScriptFault::Format))),
    (b"rate 25\nformat 64 64 grey range 33 32", Some((2, ScriptFault::Format))),
    (b"rate 25\nformat 5 1 411 rice 2 1", Some((2, ScriptFault::Format))),
    (b"rate 25\ninsert 0 A 0 1", Some((2, ScriptFault::Order))),
    (b"rate 25\ncut 0", Some((2, ScriptFault::Word))),
    (b"rate 25\n\xFF", Some((2, ScriptFault::Utf8))),
];

/// Lines after a header, the line and the reason of each one's fault.
#[rattlefmt::skip]
const CALLS: [(&str, Option<(u32, ScriptFault)>); 28] = [
    ("insert 0 A 0 0", Some((4, ScriptFault::Number))),
    ("insert 0 B 0 1000000", None),
    ("insert 0 A 0", Some((4, ScriptFault::Count))),
    ("overwrite 01 black 0 1\nextract 0 1\nlift 0 1\nsplit 0", None),
    ("lift 0 0", Some((4, ScriptFault::Number))),
    ("split 1000001", Some((4, ScriptFault::Number))),
    ("split 00000001", Some((4, ScriptFault::Number))),
    ("trimin 0 -5\ntrimout 0 5\nslip 0 -0", None),
    ("slip 0 --5", Some((4, ScriptFault::Number))),
    ("slip 0 +5", Some((4, ScriptFault::Number))),
    ("dissolve 0 0\nrelink 0 A 5", None),
    ("relink 0 A", Some((4, ScriptFault::Count))),
    ("undo\nredo\nwant 0 1\ncancel 0 1\nplay 0\nshow 0\nroll 0 1\nwork 1", None),
    ("undo 1", Some((4, ScriptFault::Count))),
    ("want 0 0", Some((4, ScriptFault::Number))),
    ("work 0", Some((4, ScriptFault::Number))),
    ("play", Some((4, ScriptFault::Count))),
    ("Play 0", Some((4, ScriptFault::Word))),
    ("undo\nrate 25", Some((5, ScriptFault::Order))),
    ("undo\nclip B", Some((5, ScriptFault::Order))),
    ("format as A", Some((4, ScriptFault::Order))),
    ("edl a.mkv\nedl a.mkv\nexport o", None),
    ("export a.mkv", Some((4, ScriptFault::SameExport))),
    ("edl x\nexport x", Some((5, ScriptFault::SameExport))),
    ("export x\nedl x", Some((5, ScriptFault::SameExport))),
    ("export x\nexport x", Some((5, ScriptFault::SameExport))),
    ("export", Some((4, ScriptFault::Count))),
    ("export x y", Some((4, ScriptFault::Count))),
];

/// The fault of a text, or line 0 where memory was wanting.
fn fault_of(alloc: Global, text: &[u8]) -> Option<(u32, ScriptFault)> {
    match read_script(alloc, text) {
        Ok(_) => None,
        Err(ScriptRefusal::Fault { n, why }) => Some((n, why)),
        Err(ScriptRefusal::NoMemory) => Some((0, ScriptFault::Limit)),
    }
}

/// The fault of lines after a header.
fn fault_of_calls(alloc: Global, lines: &str) -> Result<Option<(u32, ScriptFault)>, AllocError> {
    let mut text = Vec::from_slice(alloc, HEADER.as_bytes())?;
    text.extend_from_slice(lines.as_bytes())?;
    Ok(fault_of(alloc, &text))
}

/// The text that a script is written as once it is read.
fn rewritten(alloc: Global, text: &str) -> Result<Vec<u8>, AllocError> {
    match read_script(alloc, text.as_bytes()) {
        Ok(script) => write_script(alloc, &script),
        Err(_) => Err(AllocError),
    }
}

#[test]
fn scripts_are_read_or_faulty(rt: HostRuntime) -> Result<(), Fail> {
    for (text, fault) in &SCRIPTS {
        assert_eq!(rt; fault_of(rt.alloc(), text), *fault);
    }
    for (lines, fault) in &CALLS {
        assert_eq!(rt; fault_of_calls(rt.alloc(), lines)?, *fault);
    }
    Ok(())
}

/// Scripts, and what each is written as: a clip always has its timecode.
#[rattlefmt::skip]
const WRITTEN: [(&str, &str); 3] = [
    ("rate 25\nclip A a.mkv 01:00:00:24\nformat as A\ninsert 0 A 0 3\nslip 3 -1\nexport o.mkv\n",
        "rate 25\nclip A a.mkv 01:00:00:24\nformat as A\ninsert 0 A 0 3\nslip 3 -1\nexport o.mkv\n"),
    ("rate 25\nclip A a.mkv\nformat as A\ninsert 0 A 0 3\nshow 1\nroll 0 3\nexport o.mkv\n",
        "rate 25\nclip A a.mkv 00:00:00:00\nformat as A\ninsert 0 A 0 3\nshow 1\nroll 0 3\nexport o.mkv\n"),
    ("rate 25\nclip A a.mkv\nformat as A\ninsert 0 A 0 3\nwant 0 3\nwork 5\nplay 2\nexport o.mkv\n",
        "rate 25\nclip A a.mkv 00:00:00:00\nformat as A\ninsert 0 A 0 3\nwant 0 3\nwork 5\nplay 2\nexport o.mkv\n"),
];

#[test]
fn scripts_are_written_as_they_were_read(rt: HostRuntime) -> Result<(), Fail> {
    for (text, written) in &WRITTEN {
        assert_eq!(rt; rewritten(rt.alloc(), text)?.as_slice(), written.as_bytes());
    }
    assert_eq!(rt;
        chroma_planes(ChromaWord::C411),
        Chroma::Shifts { h: 2, v: 0 }
    );
    Ok(())
}
