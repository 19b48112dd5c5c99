//! The words of the command line.

ghost use Rattle.std.specs.Prelude.{◌≡◌, IfOk, length};

use std::alloc::{AllocError, Global};

const USAGE: &str = "usage: timeline SCRIPT [--workers N] [--cache N] [--journal N]\n";

/// Words that ask for no session, or for the script `s` or `t`, with the status and the lines of their runs.
#[rattlefmt::skip]
pub const WORDS: [(&[&str], u8, &str); 13] = [
    (&[], 2, USAGE),
    (&["s", "t"], 2, USAGE),
    (&["s", "--cache", "0"], 2, USAGE),
    (&["s", "--cache", "4097"], 2, USAGE),
    (&["s", "--workers", "17"], 2, USAGE),
    (&["s", "--journal", "15"], 2, USAGE),
    (&["--help"], 2, USAGE),
    (&["gen:"], 2, USAGE),
    (&["gen:0"], 2, USAGE),
    (&["gen:01"], 2, USAGE),
    (&["gen:1001"], 2, USAGE),
    (&["t"], 4, "store t Missing\n"),
    (&["GEN:5"], 4, "store GEN:5 Missing\n"),
];

/// The words as a command line has them.
pub fn words_of(alloc: Global, words: &[&str]) -> Result<Vec<String>, AllocError>
    ensures { IfOk result (λ made. length made.items ≡ length words.now) }
{
    let mut made = Vec::new(alloc);
    for word in words {
        made.push(String::from_str(alloc, word)?)?;
    }
    Ok(made)
}
