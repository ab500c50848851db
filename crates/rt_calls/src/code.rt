//! What a call answers.

ghost use Rattle.std.specs.Prelude.{◌≡◌};
ghost use Rattle.rt_calls.specs.Codes.{number_of};

/// Whether a call did its work, or why not.
#[derive(Clone, Copy, Debug, PartialEq, Eq)]
pub enum Code {
    /// The call did its work.
    Done,
    /// The handle holds nothing.
    Closed,
    /// The handle holds an object of another kind.
    OtherKind,
    /// The handle to be opened already holds an object.
    AlreadyOpen,
    /// The capacity isn't from 5 to 51.
    BadCapacity,
    /// On some axis the least number is above the greatest.
    BadBox,
    /// A row, or a window, already has that id.
    IdTaken,
    /// No row, or no window, has that id.
    IdMissing,
    /// The result is longer than the buffer.
    BufferTooSmall,
    /// No memory is left.
    OutOfMemory,
    /// There are as many rows, or windows, as a tree may have.
    TreeFull,
    /// The script was finished before.
    Ended,
    /// With these bytes the script is longer than 2^63 bytes.
    TooLong,
    /// The text isn't the dump of a sound tree with that many axes.
    BadDump,
    /// A box, a point or a list has another length than the tree's axes ask for.
    BadLength,
    /// A tree has one, two or three axes.
    BadAxes,
    /// A relation is one of three.
    BadRelation,
    /// The tree has no rows.
    Empty,
    /// The bytes aren't those of a sound tree with that many axes.
    BadBytes,
}

impl Code {
    /// The code's number in C.
    pub fn number(self) -> i32
        ensures { result ≡ number_of self }
    {
        match self {
            Code::Done => 0,
            Code::Closed => 1,
            Code::OtherKind => 2,
            Code::AlreadyOpen => 3,
            Code::BadCapacity => 4,
            Code::BadBox => 5,
            Code::IdTaken => 6,
            Code::IdMissing => 7,
            Code::BufferTooSmall => 8,
            Code::OutOfMemory => 9,
            Code::TreeFull => 10,
            Code::Ended => 11,
            Code::TooLong => 12,
            Code::BadDump => 13,
            Code::BadLength => 14,
            Code::BadAxes => 15,
            Code::BadRelation => 16,
            Code::Empty => 17,
            Code::BadBytes => 18,
        }
    }
}
