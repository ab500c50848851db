//! Why the program failed, and the readers and writers that remember the reason.
//!
//! A `RunFault` doesn't have the system's reason, so `ReasonKeeper` keeps the last one beside it.

use rt_bytes::RunFault;
use std::alloc::AllocError;
use std::fmt;
use std::io::{self, Read, Write};
use thiserror::Error;

/// Why the program failed.
#[derive(Clone, Copy, Debug, Error)]
pub enum Fault<'a> {
    /// A file couldn't be opened.
    #[error("cannot open file: {0}")]
    OpenFile(Cause<'a>),
    /// A read, a write or a flush failed, and the system said why.
    #[error("{0}: {1}")]
    Device(RunFault, Cause<'a>),
    /// The run failed, without a reason from the system.
    #[error(transparent)]
    Run(#[from] RunFault),
}

impl<'a> Fault<'a> {
    /// A read of what has this name failed.
    pub fn read(name: &'a str, reason: Option<io::Error>) -> Fault<'a> {
        Fault::of_device(RunFault::Read, name, reason)
    }

    /// A write to standard output failed.
    pub fn write(reason: Option<io::Error>) -> Fault<'a> {
        Fault::of_device(RunFault::Write, "standard output", reason)
    }

    /// Whether a write or a flush failed.
    pub fn is_of_writing(&self) -> bool {
        matches!(
            self,
            Fault::Device(RunFault::Write, _) | Fault::Run(RunFault::Write)
        )
    }

    fn of_device(fault: RunFault, name: &'a str, reason: Option<io::Error>) -> Fault<'a> {
        match reason {
            Some(reason) => Fault::Device(fault, Cause { name, reason }),
            None => Fault::Run(fault),
        }
    }
}

impl<'a> From<AllocError> for Fault<'a> {
    fn from(_error: AllocError) -> Fault<'a> {
        Fault::Run(RunFault::Memory)
    }
}

/// What failed, a path or a device's name, and the system's reason.
#[derive(Clone, Copy, Debug)]
pub struct Cause<'a> {
    /// The path, or the device's name.
    pub name: &'a str,
    /// The system's reason.
    pub reason: io::Error,
}

impl<'a> fmt::Display for Cause<'a> {
    fn fmt<W: fmt::Write>(&self, f: &mut fmt::Formatter<W>) -> fmt::Result {
        let Cause { name, reason } = *self;
        write!(f, "{name}: {reason}")
    }
}

/// A reader or a writer that remembers the reason of its last failure.
#[derive(Drop)]
pub struct ReasonKeeper<T> {
    inner: T,
    reason: Option<io::Error>,
}

impl<T> ReasonKeeper<T> {
    /// Nothing has failed yet.
    pub fn new(inner: T) -> ReasonKeeper<T> {
        ReasonKeeper {
            inner,
            reason: None,
        }
    }

    /// Why it last failed.
    pub fn reason(&self) -> Option<io::Error> {
        self.reason
    }

    /// What it was laid over, and why that last failed.
    pub fn into_parts(self) -> (T, Option<io::Error>) {
        let ReasonKeeper { inner, reason } = self;
        (inner, reason)
    }
}

/// Keeps why a call failed, if it has.
fn note<T>(reason: &mut Option<io::Error>, answer: &io::Result<T>) {
    if let Err(error) = answer {
        *reason = Some(*error);
    }
}

impl<R: Read> Read for ReasonKeeper<R> {
    ghost remaining = { λ r. R.remaining r.inner };

    fn read(&mut self, buffer: &mut [u8]) -> io::Result<usize> {
        let answer = self.inner.read(buffer);
        note(&mut self.reason, &answer);
        answer
    }
}

impl<W: Write> Write for ReasonKeeper<W> {
    ghost contents = { λ w. W.contents w.inner };

    fn write(&mut self, bytes: &[u8]) -> io::Result<usize> {
        let answer = self.inner.write(bytes);
        note(&mut self.reason, &answer);
        answer
    }

    fn flush(&mut self) -> io::Result<()> {
        let answer = self.inner.flush();
        note(&mut self.reason, &answer);
        answer
    }
}
