//! A session of three passes on one board, each of which may hold a job.

ghost use Rattle.std.specs.Prelude.{◌≤◌};
ghost use Rattle.tl_limits.specs.Limits.{IsJournalLimit};

use crate::exporting::{ending_of, export_text, name_of, taken_state};
use crate::holding::{Hands, Numbered, claim_text, file_claim, hand_of, let_go, release_claim};
use crate::printing::{
    ask_text, cancel_text, edit_text, note_text, play_text, segments_text, show_text, want_text,
};
use crate::reading::{Words, words_of};
use render_core::{AskReply, Board, Full, Stopper};
use std::alloc::{AllocError, Global};
use std::process::Abort;
use test_media::Numbers;
use time_list::{Lane, ListLane};
use tl_model::{Edit, Segments};

/// The board, the right to stop it, and what its passes hold.
pub struct Session<L: Lane> {
    board: Numbered<L>,
    stopper: Option<Stopper>,
    hands: Hands,
}

fn stop<L: Lane>(rt: &impl Abort, board: &mut Numbered<L>, stopper: Option<Stopper>) {
    match stopper {
        None => {}
        Some(stopper) => {
            assert!(rt; !board.is_stopped());
            board.stop(0, stopper);
        }
    }
}

impl<L: Lane> Session<L> {
    pub fn start(rt: &impl Abort, alloc: Global, cache: u32, limit: u64) -> Session<L>
        requires cache { 1 ≤ cache }
        requires limit { IsJournalLimit limit }
    {
        let (board, stopper) = Board::start(alloc, &Numbers, cache, limit).expect(rt, "memory");
        Session {
            board,
            stopper: Some(stopper),
            hands: Hands {
                zero: None,
                one: None,
                two: None,
            },
        }
    }

    /// Makes an edit, and says what it is told.
    pub fn edit(
        &mut self,
        rt: &impl Abort,
        alloc: Global,
        pass: u32,
        edit: &Edit,
    ) -> Result<String, AllocError> {
        assert!(rt; edit.is_well_formed());
        edit_text(alloc, self.board.edit(alloc, pass, &Numbers, edit))
    }

    pub fn undo(&mut self, alloc: Global, pass: u32) -> Result<String, AllocError> {
        edit_text(alloc, self.board.undo(alloc, pass))
    }

    pub fn redo(&mut self, alloc: Global, pass: u32) -> Result<String, AllocError> {
        edit_text(alloc, self.board.redo(alloc, pass))
    }

    /// The timeline, by an export.
    pub fn state(&mut self, rt: &impl Abort, alloc: Global) -> Result<Segments, AllocError> {
        let name = name_of(rt, alloc, b"o".as_slice())?;
        let asked = match self.board.ask_export(alloc, 0, &name) {
            Err(Full::NoMemory) => self.board.ask_export(alloc, 0, &name),
            given => given,
        };
        match asked {
            Ok(AskReply::Asked { export: _ }) => taken_state(rt, alloc, &mut self.board),
            Ok(AskReply::EmptyTimeline) => Ok(Segments::from_vec(Vec::new(alloc))),
            Err(_) => panic!(rt; "no room"),
        }
    }

    /// A call that ends what a pass holds, or the session.
    fn end_call(
        &mut self,
        rt: &impl Abort,
        alloc: Global,
        pass: u32,
        words: &mut Words<'_>,
    ) -> Result<String, AllocError> {
        if words.begins_with(b"stop".as_slice()) {
            stop(rt, &mut self.board, self.stopper.take());
            return format!(in alloc; "noted");
        }
        let hand = hand_of(&mut self.hands, pass)
            .take()
            .expect(rt, "a held job");
        if words.begins_with(b"file".as_slice()) {
            file_claim(rt, alloc, &mut self.board, pass, hand)
        } else {
            release_claim(rt, alloc, &mut self.board, pass, hand)
        }
    }

    /// A call about exports.
    fn export_call(
        &mut self,
        rt: &impl Abort,
        alloc: Global,
        pass: u32,
        words: &mut Words<'_>,
    ) -> Result<String, AllocError> {
        if words.takes(b"line".as_slice()) {
            segments_text(alloc, self.state(rt, alloc)?.as_slice())
        } else if words.takes(b"ask".as_slice()) {
            let name = name_of(rt, alloc, words.word(rt))?;
            ask_text(alloc, self.board.ask_export(alloc, pass, &name))
        } else if words.takes(b"export".as_slice()) {
            let ending = ending_of(rt, words);
            export_text(alloc, &mut self.board, pass, ending)
        } else if words.takes(b"mark".as_slice()) {
            note_text(alloc, self.board.mark(pass, words.number(rt)))
        } else if words.takes(b"skip".as_slice()) {
            note_text(alloc, self.board.skip(pass))
        } else {
            self.end_call(rt, alloc, pass, words)
        }
    }

    /// A call about frames.
    fn frame_call(
        &mut self,
        rt: &impl Abort,
        alloc: Global,
        pass: u32,
        words: &mut Words<'_>,
    ) -> Result<String, AllocError> {
        if words.takes(b"want".as_slice()) {
            let first = words.number(rt);
            let len = words.number(rt);
            want_text(alloc, self.board.want(pass, first, len))
        } else if words.takes(b"cancel".as_slice()) {
            let first = words.number(rt);
            let len = words.number(rt);
            cancel_text(alloc, self.board.cancel(pass, first, len))
        } else if words.takes(b"play".as_slice()) {
            play_text(alloc, self.board.play(pass, words.number(rt)))
        } else if words.takes(b"show".as_slice()) {
            show_text(alloc, self.board.show(pass, words.number(rt)))
        } else if words.takes(b"claim".as_slice()) {
            let hand = hand_of(&mut self.hands, pass);
            claim_text(rt, alloc, &mut self.board, pass, hand)
        } else {
            self.export_call(rt, alloc, pass, words)
        }
    }

    /// Makes the call that the words say, the first of which is the number of the pass, and says what it is told.
    fn call(
        &mut self,
        rt: &impl Abort,
        alloc: Global,
        words: &mut Words<'_>,
    ) -> Result<String, AllocError> {
        let pass = words.number(rt);
        if words.takes(b"undo".as_slice()) {
            self.undo(alloc, pass)
        } else if words.takes(b"redo".as_slice()) {
            self.redo(alloc, pass)
        } else if words.takes(b"edit".as_slice()) {
            let edit = words.edit(rt, alloc)?;
            self.edit(rt, alloc, pass, &edit)
        } else {
            self.frame_call(rt, alloc, pass, words)
        }
    }

    /// Makes a call that is to be told this. Where memory is wanting and isn't to be, it makes the call again: the first
    /// try changed nothing.
    fn call_for(
        &mut self,
        rt: &impl Abort,
        alloc: Global,
        words: &[&[u8]],
        told: &str,
    ) -> Result<String, AllocError> {
        let given = self.call(rt, alloc, &mut Words { left: words })?;
        if given.as_str() == "no memory" && told != "no memory" {
            self.call(rt, alloc, &mut Words { left: words })
        } else {
            Ok(given)
        }
    }

    /// Makes a call. It is to be told what stands after its sign `=`.
    fn expect(&mut self, rt: &impl Abort, alloc: Global, row: &str) -> Result<(), AllocError> {
        let (call, told) = row.split_once(" = ").expect(rt, "a call and its answer");
        let told = told.trim();
        let words = words_of(alloc, call.as_bytes())?;
        let given = self.call_for(rt, alloc, words.as_slice(), told)?;
        assert_eq!(rt; given.as_str(), told, "at {row}");
        Ok(())
    }

    /// Makes the calls of a table.
    pub fn play(
        &mut self,
        rt: &impl Abort,
        alloc: Global,
        rows: &[&str],
    ) -> Result<(), AllocError> {
        for row in rows {
            self.expect(rt, alloc, row)?;
        }
        Ok(())
    }

    /// Gives back what is held, and stops.
    pub fn end(self, rt: &impl Abort) {
        let Session {
            mut board,
            stopper,
            hands: Hands { zero, one, two },
        } = self;
        let_go(rt, &mut board, 0, zero);
        let_go(rt, &mut board, 1, one);
        let_go(rt, &mut board, 2, two);
        stop(rt, &mut board, stopper);
    }
}

/// Plays the calls of a table, each of which is to be told what stands after its sign, on a new board over such a timeline.
pub fn play_over<L: Lane>(
    rt: &impl Abort,
    alloc: Global,
    cache: u32,
    limit: u64,
    rows: &[&str],
) -> Result<(), AllocError>
    requires cache { 1 ≤ cache }
    requires limit { IsJournalLimit limit }
{
    let mut session: Session<L> = Session::start(rt, alloc, cache, limit);
    let played = session.play(rt, alloc, rows);
    session.end(rt);
    played
}

/// The same over the plain timeline.
pub fn play(
    rt: &impl Abort,
    alloc: Global,
    cache: u32,
    limit: u64,
    rows: &[&str],
) -> Result<(), AllocError>
    requires cache { 1 ≤ cache }
    requires limit { IsJournalLimit limit }
{
    play_over::<ListLane>(rt, alloc, cache, limit, rows)
}

/// The same of calls that semicolons part, in a text of pieces.
pub fn play_pieces(
    rt: &impl Abort,
    alloc: Global,
    cache: u32,
    limit: u64,
    pieces: &[&str],
) -> Result<(), AllocError>
    requires cache { 1 ≤ cache }
    requires limit { IsJournalLimit limit }
{
    let text = pieces.join(alloc, " ")?;
    let rows: Vec<&str> = text.as_str().split(';').collect(alloc)?;
    play(rt, alloc, cache, limit, rows.as_slice())
}
