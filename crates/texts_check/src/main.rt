//! Reads an edit list or a script from standard input and prints what it is, or its first faulty line, for a reader in another language to
//! be compared with: `texts_check edl RATE` or `texts_check script`.
#![tactic(auto)]

mod answer;
mod event;
mod fault;

use answer::{list_answer, script_answer};
use std::alloc::{AllocError, Global};
use std::io::{Read, Write};
use std::{env, io};
use tl_limits::{MAX_RATE, MAX_TEXT_BYTES};

/// What the words after the program's name ask for.
#[derive(Clone, Copy)]
enum Asked {
    List(u32),
    Script,
    Nothing,
}

fn request_of(words: &[String]) -> Asked {
    match words {
        [kind, rate] if kind.as_str() == "edl" => match rate.parse::<u32>() {
            Ok(rate) => Asked::List(rate),
            Err(_) => Asked::Nothing,
        },
        [kind] if kind.as_str() == "script" => Asked::Script,
        _ => Asked::Nothing,
    }
}

#[tactic(auto, using(text_words::proofs::Lining::few_lines))]
fn answer_to(alloc: Global, asked: Asked, text: &[u8]) -> Result<Vec<u8>, AllocError> {
    if text.len() > MAX_TEXT_BYTES as usize {
        return Vec::from_slice(alloc, b"too large\n");
    }
    match asked {
        Asked::List(rate) if 1 <= rate && rate <= MAX_RATE => list_answer(alloc, text, rate),
        Asked::Script => script_answer(alloc, text),
        _ => Vec::from_slice(alloc, b"usage: texts_check edl RATE | script\n"),
    }
}

fn main(rt: HostRuntime) -> io::Result<()> {
    let alloc = rt.alloc();
    let mut words = Vec::new(alloc);
    for word in env::args(&rt)?.skip(1) {
        words.push(word)?;
    }
    let mut text = Vec::new(alloc);
    rt.reader().read_to_end(&mut text)?;
    let answer = answer_to(alloc, request_of(&words), &text)?;
    io::writer(&rt).write_all(&answer)
}
