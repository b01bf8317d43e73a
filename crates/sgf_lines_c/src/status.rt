//! How a call ended.

ghost use Rattle.std.specs.Prelude.{◌≡◌};
ghost use Rattle.sgf_lines_c.specs.Status.{number_of};

/// How a call ended.
#[derive(Clone, Copy)]
pub enum Status {
    /// The call did all that was asked.
    Done,
    /// The text isn't a collection (SGF FF[4], EBNF), and no collection begins with it.
    NotSgf,
    /// The text isn't a collection, but some collection begins with it. So the text ends too early.
    EndsEarly,
    /// The text has more than `sgf_lines::MAX_LENGTH` bytes.
    TooLong,
    /// No line has the place that was asked for.
    NoSuchLine,
    /// No form has the number that was asked for.
    UnknownForm,
    /// The records have more bytes than the room.
    RoomTooSmall,
    /// Memory was refused.
    OutOfMemory,
}

impl Status {
    /// The number that a caller in C gets.
    pub fn number(self) -> u32
        ensures { result ≡ number_of self }
    {
        match self {
            Status::Done => 0,
            Status::NotSgf => 1,
            Status::EndsEarly => 2,
            Status::TooLong => 3,
            Status::NoSuchLine => 4,
            Status::UnknownForm => 5,
            Status::RoomTooSmall => 6,
            Status::OutOfMemory => 7,
        }
    }
}
