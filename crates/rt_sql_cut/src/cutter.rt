//! The cutter: an automaton over the bytes of a script, and the bytes of the piece so far.
//!
//! Beside these bytes it has to remember one `Place`. `StandsAt` in `specs/Cutter.antt` says which bytes lead to
//! which place.

ghost use Rattle.std.specs.Prelude.{◌≡◌, ℕ, ◌+◌, ◌<◌, ◌≤◌, ◌⊎◌, List, [], ◌∷◌, ◌++◌, length, take, drop, IsTrue, IsSome, IsNone, IfSome, IfOk, MatchOption, Some};
ghost use Rattle.rt_sql_cut.specs.Pieces.{PieceText, is_gap_byte, IsGap, IsWholePiece, IsLastPiece};
ghost use Rattle.std.specs.List.{list_any};
ghost use Rattle.rt_sql_cut.specs.CutterStep.{is_mark, unmarked_len};

use crate::piece::{Ending, Piece};
use crate::text::is_white;
use std::alloc::{AllocError, Global};
use std::marker::Model;

/// The most bytes that a piece may have.
const LONGEST_PIECE: usize = 65_536;

/// How many bytes are tested at once.
const BLOCK: usize = 16;

/// A gap between pieces, or a statement.
#[derive(Clone, Copy, PartialEq, Eq, Debug)]
enum Part {
    /// What stands between pieces.
    Gap,
    /// A statement that has begun.
    Statement,
}

/// Where in a gap or a statement the bytes so far stop.
#[derive(Clone, Copy, PartialEq, Eq, Debug)]
enum Spot {
    /// After a whole atom: a byte, a comment or what stands in quotes.
    Between,
    /// After a `-`, which may begin a comment.
    AfterDash,
    /// After a `/`, which may begin a comment.
    AfterSlash,
    /// In a `--` comment.
    LineComment,
    /// In a `/*` comment.
    BlockComment,
    /// In a `/*` comment, after a `*` that may begin its end.
    AfterStar,
}

/// The kind of place at which the bytes so far stop.
#[derive(Clone, Copy, PartialEq, Eq, Debug)]
enum Place {
    /// In a gap or a statement, at this spot.
    In(Part, Spot),
    /// In a statement, behind this quote.
    Quoted(u8),
    /// In a dot line.
    DotLine,
    /// At the end of a piece.
    End,
}

impl Place {
    ghost use Rattle.rt_sql_cut.specs.Cutter.{ending_at};
    ghost use Rattle.rt_sql_cut.specs.CutterStep.{place_after, gap_after, statement_after, stays, run_len};

    /// The place after one more byte.
    fn after(self, byte: u8) -> Place
        ensures { result ≡ place_after self byte }
    {
        match self {
            Place::In(part, spot) => Place::after_spot(part, spot, byte),
            Place::Quoted(quote) if byte == quote => Place::In(Part::Statement, Spot::Between),
            Place::DotLine if byte == b'\n' => Place::End,
            Place::Quoted(_) | Place::DotLine | Place::End => self,
        }
    }

    /// The place after one more byte in a gap or a statement.
    fn after_spot(part: Part, spot: Spot, byte: u8) -> Place
        ensures { result ≡ place_after (Place.In part spot) byte }
    {
        match (spot, byte) {
            (Spot::AfterDash, b'-') => Place::In(part, Spot::LineComment),
            (Spot::AfterSlash, b'*') => Place::In(part, Spot::BlockComment),
            (Spot::LineComment, b'\n') | (Spot::AfterStar, b'/') => Place::In(part, Spot::Between),
            (Spot::LineComment, _) => Place::In(part, Spot::LineComment),
            (Spot::BlockComment | Spot::AfterStar, b'*') => Place::In(part, Spot::AfterStar),
            (Spot::BlockComment | Spot::AfterStar, _) => Place::In(part, Spot::BlockComment),
            (Spot::Between, _) if part == Part::Gap => Place::after_gap(byte),
            (Spot::Between | Spot::AfterDash | Spot::AfterSlash, _) => Place::after_atom(byte),
        }
    }

    /// The byte is of the piece, and leaves the place as it is.
    fn stays(self, byte: u8) -> bool
        ensures { result ≡ stays self byte }
    {
        match self {
            Place::In(Part::Statement, Spot::Between) => !is_mark(byte),
            Place::Quoted(quote) => byte != quote,
            Place::DotLine => byte != b'\n',
            Place::In(_, _) | Place::End => false,
        }
    }

    /// The length of the prefix of such bytes.
    fn run_len(self, bytes: &[u8]) -> usize
        ensures value { result ≡ run_len self bytes.now }
        ensures within { result ≤ length bytes.now }
    {
        let mut end = match self {
            Place::In(Part::Statement, Spot::Between) => unmarked_blocks(bytes),
            Place::In(_, _) | Place::Quoted(_) | Place::DotLine | Place::End => 0,
        };
        while end < bytes.len() && self.stays(bytes[end]) {
            end += 1;
        }
        end
    }

    /// How a piece ended here, if one did: by itself, or with the input.
    fn ending(self, finished: bool) -> Option<Ending>
        ensures { result ≡ ending_at self finished }
    {
        match self {
            Place::End => Some(Ending::Whole),
            _ if !finished => None,
            Place::DotLine => Some(Ending::Whole),
            Place::In(Part::Statement, _) | Place::Quoted(_) => Some(Ending::Incomplete),
            Place::In(Part::Gap, Spot::AfterDash | Spot::AfterSlash) => Some(Ending::Incomplete),
            Place::In(Part::Gap, _) => None,
        }
    }

    /// The place after a byte between pieces.
    fn after_gap(byte: u8) -> Place
        ensures { result ≡ gap_after byte }
    {
        match byte {
            b'.' => Place::DotLine,
            b'-' => Place::In(Part::Gap, Spot::AfterDash),
            b'/' => Place::In(Part::Gap, Spot::AfterSlash),
            _ if is_gap_byte(byte) => Place::In(Part::Gap, Spot::Between),
            _ => Place::after_atom(byte),
        }
    }

    /// The place after a byte behind an atom of a statement, or at its beginning.
    fn after_atom(byte: u8) -> Place
        ensures { result ≡ statement_after byte }
    {
        match byte {
            b';' => Place::End,
            b'-' => Place::In(Part::Statement, Spot::AfterDash),
            b'/' => Place::In(Part::Statement, Spot::AfterSlash),
            b'\'' | b'"' => Place::Quoted(byte),
            _ => Place::In(Part::Statement, Spot::Between),
        }
    }
}

/// The byte ends a statement, opens a quote, or may begin a comment. No branch is in it, so that the bytes of a block
/// are tested all at once.
fn is_mark(byte: u8) -> bool
    ensures { result ≡ is_mark byte }
{
    (byte == b';') | (byte == b'-') | (byte == b'/') | (byte == b'\'') | (byte == b'"')
}

/// A mark is among these bytes.
fn has_mark(block: &[u8]) -> bool
    ensures { result ≡ list_any is_mark block.now }
{
    let mut found = false;
    for byte in block {
        found |= is_mark(*byte);
    }
    found
}

/// The length of the prefix of whole blocks that have no mark.
fn unmarked_blocks(bytes: &[u8]) -> usize
    ensures value { result + unmarked_len (drop result bytes.now) ≡ unmarked_len bytes.now }
    ensures within { result ≤ length bytes.now }
{
    let mut end = 0;
    while bytes.len() - end >= BLOCK && !has_mark(&bytes[end..end + BLOCK]) {
        end += BLOCK;
    }
    end
}

fn is_gap_byte(byte: u8) -> bool
    ensures { result ≡ is_gap_byte byte }
{
    is_white(byte) || byte == b';'
}

/// Cuts a script into its pieces, whatever parts of it are fed at a time.
///
/// A piece is a statement up to and with its `;`, or a line that begins with `.`, without its line
/// feed. What stands between pieces, white space, comments and `;`, belongs to none.
///
/// ```
/// let mut cutter = Cutter::new(alloc)?;
/// for read in [&b"SELECT * FROM t; -- b"[..], b"oth\n.view v\nSEL"] {
///     let mut rest = read;
///     while !rest.is_empty() {
///         let taken = cutter.feed(rest);
///         rest = &rest[taken..];
///         if let Some(piece) = cutter.ready() {
///             // `SELECT * FROM t;`, and then `.view v`, both whole
///             cutter.clear();
///         }
///     }
/// }
/// cutter.finish();
/// // now `SEL` is ready, which is incomplete
/// ```
pub struct Cutter {
    /// The bytes of the piece so far.
    held: Vec<u8>,
    /// The piece has more bytes than are held of one.
    too_long: bool,
    place: Place,
    /// The input has ended.
    finished: bool,
}

// By hand, since a derived drop is written out, field by field, wherever such a value ends.
impl Drop for Cutter {
    fn drop(self) {
        let Cutter {
            held: _,
            too_long: _,
            place: _,
            finished: _,
        } = self;
    }
}

impl Model for Cutter {
    ghost use Rattle.std.specs.Prelude.{Some, None, if◌then◌else◌};
    ghost use Rattle.rt_sql_cut.specs.Cutter.{Front};
    ghost use Rattle.rt_sql_cut.specs.Room.{HasRoom};

    ghost Value = { Front };

    ghost view = { λ c. record {
      place = c.place;
      held = if c.too_long then None else Some c.held.items;
      finished = c.finished;
    } };

    ghost invariant = { HasRoom };
}

impl Cutter {
    ghost use Rattle.rt_sql_cut.specs.Cutter.{StandsAt, StandsAtEnd, ready_piece};
    ghost use Rattle.rt_sql_cut.specs.CutterStep.{front_after, with_byte, with_bytes};

    /// A cutter at the start of a script.
    ///
    /// # Errors
    ///
    /// `AllocError` if no memory is left for the longest piece. No other call takes any.
    pub fn new(alloc: Global) -> Result<Cutter, AllocError>
        ensures { IfOk result (λ c. StandsAt c []) }
    {
        Ok(Cutter {
            held: Vec::with_capacity(alloc, LONGEST_PIECE)?,
            too_long: false,
            place: Place::In(Part::Gap, Spot::Between),
            finished: false,
        })
    }

    /// Takes bytes up to the end of the first piece that ends in them, and says how many. With a
    /// piece ready it takes none. Which piece comes of bytes after `finish` is left open.
    pub fn feed(&mut self, bytes: &[u8]) -> usize
        ensures taken { result ≤ length bytes.now }
        ensures stands { (x : List ℕ) → StandsAt self.old x → StandsAt self.new (x ++ take result bytes.now) }
        ensures stops { result < length bytes.now → IsSome (ready_piece self.new) }
        ensures keeps { IsSome (ready_piece self.old) → (result ≡ 0) × (self.new ≡ self.old) }
        ensures progress { IsNone (ready_piece self.old) → 0 < length bytes.now → 0 < result }
    {
        if self.ready().is_some() {
            return 0;
        }
        let mut taken = 0;
        'taken: while taken < bytes.len() {
            self.take_byte(bytes[taken]);
            taken += 1;
            if self.place == Place::End {
                return taken;
            }
            taken += self.take_run(&bytes[taken..]);
        }
        taken
    }

    /// The input has ended. What has begun is then the last piece, until `clear`. A second call changes nothing.
    pub fn finish(&mut self)
        ensures finished { (x : List ℕ) → StandsAt self.old x → StandsAtEnd self.new x }
        ensures again { (x : List ℕ) → StandsAtEnd self.old x → self.new ≡ self.old }
    {
        self.finished = true;
    }

    /// The piece that has ended: by itself, or with the input.
    pub fn ready(&self) -> Option<Piece<'_>>
        ensures value { result ≡ ready_piece self.now }
        ensures whole { (x : List ℕ) → StandsAt self.now x
            → MatchOption result (IsGap x ⊎ ((p : PieceText) × IsLastPiece x p)) (λ p. IsWholePiece x p) }
        ensures last { (x : List ℕ) → StandsAtEnd self.now x
            → MatchOption result (IsGap x) (λ p. IsWholePiece x p ⊎ IsLastPiece x p) }
        ensures within { IfSome result (λ p. length p.text ≤ 65536) }
    {
        let ending = self.place.ending(self.finished)?;
        let ending = if self.too_long {
            Ending::TooLong
        } else {
            ending
        };
        Some(Piece::new(&self.held, ending))
    }

    /// Drops what was fed so far, the piece that is ready among it, and starts anew.
    pub fn clear(&mut self)
        ensures { StandsAt self.new [] }
    {
        self.drop_held();
        self.place = Place::In(Part::Gap, Spot::Between);
        self.finished = false;
    }

    /// Takes the prefix of bytes that leave the place as it is, all at once, and says how long it is.
    #[tactic(auto, using(crate::proofs::CutterFront::stands_run))]
    fn take_run(&mut self, bytes: &[u8]) -> usize
        ensures within { result ≤ length bytes.now }
        ensures place { self.new.place ≡ self.old.place }
        ensures stands { (x : List ℕ) → StandsAt self.old x → StandsAt self.new (x ++ take result bytes.now) }
    {
        let count = self.place.run_len(bytes);
        if count > 0 {
            self.hold_all(&bytes[..count]);
        }
        count
    }

    /// Takes one byte.
    fn take_byte(&mut self, byte: u8)
        ensures { self.new ≡ front_after self.old byte }
    {
        self.place = self.place.after(byte);
        match self.place {
            Place::In(_, Spot::AfterDash | Spot::AfterSlash) => self.hold(byte),
            Place::In(Part::Gap, _) => self.drop_held(),
            // The line feed that ends a dot line.
            Place::End if byte == b'\n' => {}
            _ => self.hold(byte),
        }
    }

    /// Holds one more byte of the piece, or none if it has too many.
    fn hold(&mut self, byte: u8)
        ensures { self.new ≡ record self.old { held = with_byte self.old.held byte } }
    {
        if self.held.len() == LONGEST_PIECE {
            self.held.clear();
            self.too_long = true;
        } else if !self.too_long {
            // There is room, which `new` took.
            let _ = self.held.push(byte);
        }
    }

    /// Holds more bytes of the piece, or none if it has too many.
    #[tactic(auto, using(crate::proofs::CutterHolds::bytes_none, crate::proofs::CutterHolds::bytes_short, crate::proofs::CutterHolds::bytes_long))]
    fn hold_all(&mut self, bytes: &[u8])
        ensures { self.new ≡ record self.old { held = with_bytes self.old.held bytes.now } }
    {
        if bytes.len() > LONGEST_PIECE - self.held.len() {
            self.held.clear();
            self.too_long = true;
        } else if !self.too_long {
            // There is room, which `new` took.
            let _ = self.held.extend_from_slice(bytes);
        }
    }

    /// Holds no byte, as if no piece had begun.
    fn drop_held(&mut self)
        ensures { self.new ≡ record self.old { held = Some [] } }
    {
        self.held.clear();
        self.too_long = false;
    }
}
