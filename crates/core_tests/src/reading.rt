//! The words of a line: numbers, sides, segments and edits.

use std::alloc::{AllocError, Global};
use std::process::Abort;
use text_words::{Blanks, number, signed_number, words};
use tl_model::{Edit, Mix, Segment, Segments, Side};

/// The words of a text.
pub fn words_of<'a>(alloc: Global, text: &'a [u8]) -> Result<Vec<&'a [u8]>, AllocError> {
    words(alloc, Blanks::SpaceTab, text)
}

/// Words that are still to be read.
#[derive(Drop)]
pub struct Words<'a> {
    pub left: &'a [&'a [u8]],
}

fn number_in(rt: &impl Abort, word: &[u8]) -> u32 {
    number(9, 0, 999_999_999, word).expect(rt, "a number")
}

impl<'a> Words<'a> {
    /// The next word.
    pub fn word(&mut self, rt: &impl Abort) -> &'a [u8] {
        match self.left {
            [first, rest @ ..] => {
                self.left = rest;
                *first
            }
            [] => panic!(rt; "a word is missing"),
        }
    }

    /// Whether the next word is this one.
    pub fn begins_with(&self, word: &[u8]) -> bool {
        match self.left {
            [first, ..] => *first == word,
            [] => false,
        }
    }

    /// Reads a word that is this one. Whether it was.
    pub fn takes(&mut self, word: &[u8]) -> bool {
        match self.left {
            [first, rest @ ..] if *first == word => {
                self.left = rest;
                true
            }
            _ => false,
        }
    }

    pub fn number(&mut self, rt: &impl Abort) -> u32 {
        let word = self.word(rt);
        number_in(rt, word)
    }

    pub fn signed(&mut self, rt: &impl Abort) -> i32 {
        let word = self.word(rt);
        signed_number(9, 999_999_999, word).expect(rt, "a number with a sign")
    }

    /// `black`, or a clip and its frame.
    pub fn side(&mut self, rt: &impl Abort) -> Side {
        let word = self.word(rt);
        if word == b"black".as_slice() {
            return Side::Black;
        }
        let clip = number_in(rt, word);
        let frame = self.number(rt);
        Side::Clip { clip, frame }
    }

    fn mix(&mut self, rt: &impl Abort) -> Option<Mix> {
        if !self.takes(b"mix".as_slice()) {
            return None;
        }
        let from = self.side(rt);
        let done = self.number(rt);
        let steps = self.number(rt);
        let total = self.number(rt);
        Some(Mix {
            from,
            done,
            steps,
            total,
        })
    }

    fn segment(&mut self, rt: &impl Abort) -> Segment {
        let bar = self.word(rt);
        assert!(rt; bar == b"|".as_slice());
        let first = self.side(rt);
        let len = self.number(rt);
        let mix = self.mix(rt);
        Segment { first, len, mix }
    }

    /// Segments, each after a bar: its first side, its length, and its dissolve, if any, by the outgoing side, the steps
    /// before it, its own steps and their total.
    pub fn segments(&mut self, rt: &impl Abort, alloc: Global) -> Result<Segments, AllocError> {
        let bars = self
            .left
            .iter()
            .filter(|word| **word == b"|".as_slice())
            .count();
        let mut items = Vec::new(alloc);
        for _ in 0..bars {
            items.push(self.segment(rt))?;
        }
        Ok(Segments::from_vec(items))
    }

    fn piece(&mut self, rt: &impl Abort) -> (u32, Side, u32) {
        let at = self.number(rt);
        let take = self.side(rt);
        let len = self.number(rt);
        (at, take, len)
    }

    fn reshape(&mut self, rt: &impl Abort) -> Edit {
        if self.takes(b"trimin".as_slice()) {
            let at = self.number(rt);
            let by = self.signed(rt);
            Edit::TrimIn { at, by }
        } else if self.takes(b"trimout".as_slice()) {
            let at = self.number(rt);
            let by = self.signed(rt);
            Edit::TrimOut { at, by }
        } else if self.takes(b"slip".as_slice()) {
            let at = self.number(rt);
            let by = self.signed(rt);
            Edit::Slip { at, by }
        } else {
            assert!(rt; self.takes(b"relink".as_slice()));
            let at = self.number(rt);
            let clip = self.number(rt);
            let first = self.number(rt);
            Edit::Relink { at, clip, first }
        }
    }

    fn range(&mut self, rt: &impl Abort) -> Edit {
        if self.takes(b"extract".as_slice()) {
            let at = self.number(rt);
            let len = self.number(rt);
            Edit::Extract { at, len }
        } else if self.takes(b"lift".as_slice()) {
            let at = self.number(rt);
            let len = self.number(rt);
            Edit::Lift { at, len }
        } else if self.takes(b"dissolve".as_slice()) {
            let at = self.number(rt);
            let len = self.number(rt);
            Edit::Dissolve { at, len }
        } else if self.takes(b"split".as_slice()) {
            let at = self.number(rt);
            Edit::Split { at }
        } else {
            self.reshape(rt)
        }
    }

    /// An edit: its name and its numbers and sides.
    pub fn edit(&mut self, rt: &impl Abort, alloc: Global) -> Result<Edit, AllocError> {
        if self.takes(b"replace".as_slice()) {
            let segments = self.segments(rt, alloc)?;
            Ok(Edit::Replace { segments })
        } else if self.takes(b"insert".as_slice()) {
            let (at, take, len) = self.piece(rt);
            Ok(Edit::Insert { at, take, len })
        } else if self.takes(b"overwrite".as_slice()) {
            let (at, take, len) = self.piece(rt);
            Ok(Edit::Overwrite { at, take, len })
        } else {
            Ok(self.range(rt))
        }
    }
}
