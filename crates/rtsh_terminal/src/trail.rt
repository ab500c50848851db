//! What the error output shows of a script: where each refused piece stands, and how much of a long file is read.
//!
//! `TraceReader` gives the script up to the end of one piece at a time, so whatever is written before the next read answers that
//! piece. `TraceWriter` looks at how the answer begins: only a refusal begins with `refused`. Both share one `Trail`.

use crate::place::{Place, Word, word_at};
use rt_sql::refused_at;
use rt_sql_cut::Cutter;
use std::alloc::Global;
use std::cell::Cell;
use std::io::{self, BufRead, BufReader, Read, Write};

/// The length in bytes from which on a script's progress is shown.
const LONG: u64 = 1_000_001;

/// How a refusal's line begins.
const REFUSED: &[u8] = b"refused ";

/// Clears the line of a terminal.
const CLEAR: &str = "\r\x1b[K";

/// How many of the last bytes read are kept: as many as the longest piece has, and its line feed.
const KEPT: usize = 65_537;

/// How an answer begins, as far as it was written.
#[derive(Clone, Copy)]
struct Answer {
    /// How many bytes are written before it.
    echoed: usize,
    /// How many bytes of `REFUSED` it began with.
    matched: usize,
}

/// What the reader and the writer of a script share.
#[derive(Drop)]
pub struct Trail<'a> {
    name: &'a str,
    /// The length of a long file.
    length: Option<u64>,
    /// Each piece is printed before its answer.
    echo: bool,
    /// The output is a terminal too, so what is written there doesn't follow the part read.
    is_shared: bool,
    /// The answer to the last piece, until it goes on otherwise than a refusal, or was told.
    answer: Cell<Option<Answer>>,
    /// The hundredth parts that show.
    shown: Cell<Option<u64>>,
}

impl<'a> Trail<'a> {
    /// Nothing was read yet of what has this name. Its length is given if the part read is to be shown.
    pub fn new(name: &'a str, length: Option<u64>, echo: bool, is_shared: bool) -> Trail<'a> {
        Trail {
            name,
            length: length.filter(|length| *length >= LONG),
            echo,
            is_shared,
            answer: Cell::new(None),
            shown: Cell::new(None),
        }
    }

    /// Whether the last piece was refused, which is told once.
    fn takes_refusal(&self) -> bool {
        match self.answer.replace(None) {
            Some(answer) => answer.matched >= REFUSED.len(),
            None => false,
        }
    }

    /// Shows how much was read, if that is another hundredth part of a long file.
    fn show(&self, rt: &impl Eprint, read: u64) {
        let Some(length) = self.length else {
            return;
        };
        let part = read.checked_div(length / 100).unwrap_or(0).min(100);
        if self.shown.get() != Some(part) {
            let name = self.name;
            let _ = eprint!(rt; "{CLEAR}rtsh: {name}: {part} % read");
            self.shown.set(Some(part));
        }
    }

    /// Clears the part read.
    fn clear(&self, rt: &impl Eprint) {
        if self.shown.get().is_some() {
            let _ = eprint!(rt; "{CLEAR}");
            self.shown.set(None);
        }
    }

    /// The next piece was read, whose text has this length, which is none if it is too long.
    fn begin(&self, length: usize) {
        let echoed = if self.echo && length > 0 {
            length.saturating_add(1)
        } else {
            0
        };
        self.answer.set(Some(Answer { echoed, matched: 0 }));
    }

    /// More was written.
    fn follow(&self, bytes: &[u8]) {
        let Some(mut answer) = self.answer.get() else {
            return;
        };
        let skipped = bytes.len().min(answer.echoed);
        answer.echoed -= skipped;
        for byte in &bytes[skipped..] {
            match REFUSED.get(answer.matched) {
                Some(due) if due == byte => answer.matched = answer.matched.saturating_add(1),
                Some(_) => {
                    self.answer.set(None);
                    return;
                }
                None => break,
            }
        }
        self.answer.set(Some(answer));
    }
}

/// A reader of a script that gives at most one piece at a time, and tells where each refused piece stands.
#[derive(Drop)]
pub struct TraceReader<'a, 'n, R: Read + Drop, E> {
    inner: BufReader<R>,
    alloc: Global,
    rt: &'a E,
    trail: &'a Trail<'n>,
    /// Has the last piece ready until the next read.
    cutter: Cutter,
    /// The number of the last piece.
    number: u64,
    /// Where it begins, or where it ends if it is too long.
    begun: Place,
    /// The last bytes that were read behind it, and where they begin.
    recent: Vec<u8>,
    front: Place,
    /// How many bytes were read.
    read: u64,
}

impl<'a, 'n, R: Read + Drop, E: Eprint> TraceReader<'a, 'n, R, E> {
    /// Nothing was read yet.
    pub fn new(
        alloc: Global,
        inner: R,
        rt: &'a E,
        trail: &'a Trail<'n>,
    ) -> Result<TraceReader<'a, 'n, R, E>, io::Error> {
        Ok(TraceReader {
            inner: BufReader::new(alloc, inner)?,
            alloc,
            rt,
            trail,
            cutter: Cutter::new(alloc)?,
            number: 0,
            begun: Place::START,
            recent: Vec::with_capacity(alloc, KEPT.saturating_mul(3))?,
            front: Place::START,
            read: 0,
        })
    }

    /// Nothing more is read or written: tells the last refusal, and clears the part read.
    pub fn end(&self) {
        self.tell();
        self.trail.clear(self.rt);
    }

    /// Tells where the last piece stands, if it was refused.
    fn tell(&self) {
        if !self.trail.takes_refusal() {
            return;
        }
        self.trail.clear(self.rt);
        let (name, number, line) = (self.trail.name, self.number, self.begun.line);
        let _ = match self.stop() {
            None => eprintln!(self.rt; "rtsh: {name}: line {line}: statement {number} was refused"),
            Some((place, word)) => {
                eprintln!(self.rt;
                    "rtsh: {name}: line {line}: statement {number} was refused at {place}: {word}"
                )
            }
        };
    }

    /// The word of the last piece at which no statement goes on, and its place, if the piece was refused for that.
    fn stop(&self) -> Option<(Place, Word<'_>)> {
        let piece = self.cutter.ready()?;
        let at = refused_at(self.alloc, &piece)?;
        let (before, rest) = piece.text().split_at(at.start);
        let word = word_at(rest, at.end - at.start)?;
        Some((self.begun.after(before), word))
    }

    /// The length of the text of the piece that has ended, if one did.
    fn ended_len(&self) -> Option<usize> {
        let piece = self.cutter.ready()?;
        Some(piece.text().len())
    }

    /// Keeps these bytes, and notes the piece that ends with them, if one does.
    fn note(&mut self, bytes: &[u8]) {
        let _ = self.recent.extend_from_slice(bytes);
        let Some(length) = self.ended_len() else {
            if self.recent.len() > KEPT.saturating_mul(2) {
                self.keep_last(KEPT);
            }
            return;
        };
        // The line feed that ends a dot line isn't of its text.
        let ended = if bytes.ends_with(b"\n") { 1 } else { 0 };
        self.trail.begin(length);
        self.number = self.number.saturating_add(1);
        self.keep_last(length.saturating_add(ended));
        self.begun = self.front;
        self.keep_last(0);
    }

    /// Keeps no more than this many of the last bytes.
    fn keep_last(&mut self, count: usize) {
        let left = count.min(self.recent.len());
        let gone = self.recent.len() - left;
        self.front = self.front.after(&self.recent[..gone]);
        self.recent.copy_within(gone.., 0);
        self.recent.truncate(left);
    }
}

impl<'a, 'n, R: Read + Drop, E: Eprint> Read for TraceReader<'a, 'n, R, E> {
    fn read(&mut self, buffer: &mut [u8]) -> io::Result<usize> {
        self.tell();
        if self.cutter.ready().is_some() {
            self.cutter.clear();
        }
        let found = self.inner.fill_buf()?;
        let found = &found[..found.len().min(buffer.len())];
        let count = self.cutter.feed(found);
        buffer[..count].copy_from_slice(&found[..count]);
        self.inner.consume(count);
        if count == 0 {
            self.cutter.finish();
        }
        self.note(&buffer[..count]);
        self.read = self.read.saturating_add(count as u64);
        self.trail.show(self.rt, self.read);
        Ok(count)
    }
}

/// A writer of what a script prints.
#[derive(Drop)]
pub struct TraceWriter<'a, 'n, W, E> {
    inner: W,
    rt: &'a E,
    trail: &'a Trail<'n>,
}

impl<'a, 'n, W: Write, E: Eprint> TraceWriter<'a, 'n, W, E> {
    /// Nothing was written yet.
    pub fn new(inner: W, rt: &'a E, trail: &'a Trail<'n>) -> TraceWriter<'a, 'n, W, E> {
        TraceWriter { inner, rt, trail }
    }

    /// What it was laid over.
    pub fn into_inner(self) -> W {
        let TraceWriter {
            inner,
            rt: _,
            trail: _,
        } = self;
        inner
    }
}

impl<'a, 'n, W: Write, E: Eprint> Write for TraceWriter<'a, 'n, W, E> {
    fn write(&mut self, bytes: &[u8]) -> io::Result<usize> {
        if self.trail.is_shared {
            self.trail.clear(self.rt);
        }
        let count = self.inner.write(bytes)?;
        self.trail.follow(&bytes[..count.min(bytes.len())]);
        Ok(count)
    }

    fn flush(&mut self) -> io::Result<()> {
        self.inner.flush()
    }
}
