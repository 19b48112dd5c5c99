//! What one line says.

/// The four frame numbers of an event.
#[derive(Clone, Copy)]
pub struct Times {
    pub source_in: u32,
    pub source_out: u32,
    pub record_in: u32,
    pub record_out: u32,
}

/// A cut, or where it has a duration a dissolve.
#[derive(Clone, Copy)]
pub struct Edit {
    pub duration: Option<u32>,
    pub times: Times,
}

/// A video event.
#[derive(Clone, Copy)]
pub struct Shown<'a> {
    pub number: u32,
    pub reel: &'a str,
    pub edit: Edit,
}

/// What a line says that has no fault.
#[derive(Clone, Copy)]
pub enum Row<'a> {
    Passed,
    Title { text: &'a str },
    From { text: &'a str },
    To { text: &'a str },
    /// An event without video.
    Other { number: u32 },
    Video(Shown<'a>),
}

/// The side of an event that a name belongs to.
#[derive(Clone, Copy)]
pub enum Side {
    From,
    To,
}
