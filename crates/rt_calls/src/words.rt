//! The words of codes.

ghost use Rattle.std.specs.Prelude.{◌≡◌};
ghost use Rattle.rt_calls.specs.Codes.{text_of, IsNumberOf};

use crate::code::Code;

impl Code {
    /// The words for a user.
    pub fn text(self) -> &'static str
        ensures { result.now ≡ text_of self }
    {
        match self {
            Code::Done => "done",
            Code::Closed => "nothing is held",
            Code::OtherKind => "an object of another kind is held",
            Code::AlreadyOpen => "an object is held already",
            Code::BadCapacity => "the capacity is not from 5 to 51",
            Code::BadBox => "on some axis min is above max",
            Code::IdTaken => "the id is taken",
            Code::IdMissing => "no row or window has that id",
            Code::BufferTooSmall => "the result is longer than the buffer",
            Code::OutOfMemory => "no memory is left",
            Code::TreeFull => "the tree has as many rows as a tree may have",
            Code::Ended => "the script has ended",
            Code::TooLong => "the script is longer than 2^63 bytes",
            Code::BadDump => "the text is not the dump of a sound tree",
            Code::BadLength => "a box, a point or a list has a wrong length",
            Code::BadAxes => "a tree has one, two or three axes",
            Code::BadRelation => "a relation is touches, within or holds",
            Code::Empty => "the tree has no rows",
            Code::BadBytes => "the bytes are not those of a sound tree",
        }
    }

    /// The code with that number, or `None` if there is none.
    pub fn from_number(number: i32) -> Option<Code>
        ensures { IsNumberOf number result }
    {
        match number {
            0 => Some(Code::Done),
            1 => Some(Code::Closed),
            2 => Some(Code::OtherKind),
            3 => Some(Code::AlreadyOpen),
            4 => Some(Code::BadCapacity),
            5 => Some(Code::BadBox),
            6 => Some(Code::IdTaken),
            7 => Some(Code::IdMissing),
            8 => Some(Code::BufferTooSmall),
            9 => Some(Code::OutOfMemory),
            10 => Some(Code::TreeFull),
            11 => Some(Code::Ended),
            12 => Some(Code::TooLong),
            13 => Some(Code::BadDump),
            14 => Some(Code::BadLength),
            15 => Some(Code::BadAxes),
            16 => Some(Code::BadRelation),
            17 => Some(Code::Empty),
            18 => Some(Code::BadBytes),
            _ => None,
        }
    }
}
