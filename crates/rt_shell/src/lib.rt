//! A script shell over the tables of a session: it takes a script, carries out its pieces one by one, and
//! writes what they print.
//!
//! - `write_reply` writes the lines that an answer prints (`rt_shell_lines`).
//! - `Shell` is fed a script in whatever parts. After each of them it has printed the transcript so far of all that it was
//!   fed, and after the last the transcript of the script.
//! - `run` reads a script into a shell. Its contract names the transcript of the script: the lines of its pieces in order,
//!   each answered from the tables that those before it left. It holds however the reader parts the bytes, and says how
//!   much of the transcript was written if a read or a write fails.
//!
//! If no memory is left, any piece may be refused, and that refusal too leaves the tables.
//!
//! Stands on `rt_session` (answers), `rt_shell_lines` (their lines), `rt_sql_cut` and `rt_sql` (pieces and their statements)
//! and `rt_bytes`. Definitions: `specs/Transcript.antt` (what a whole script prints), `Shell.antt` (what a shell has printed
//! of what it was fed), `Run.antt` (what a run does to its reader and writer); `Engine.antt` says how steps of a run join.
//! `rt_laws` says what holds of every script.
//!
//! ```text
//! let keys = RandomState::new(&rt)?;
//! let options = Options { capacity, bail: false, echo: false };
//! let mut reader = SliceReader::new(b"SELECT * FROM shops;", 4096);
//! let mut writer = OverWrite::new(io::writer(&rt));
//! let status = run(rt.alloc(), keys, &mut reader, &mut writer, &options)?;
//!
//! let mut shell = Shell::new(rt.alloc(), keys, &options)?;
//! shell.feed(b"SELECT * FROM sh", &mut writer)?;
//! shell.feed(b"ops;", &mut writer)?;
//! let status = shell.finish(&mut writer)?;
//! ```
#![tactic(auto)]

mod engine;
mod runner;
mod shell;

pub use engine::{Flow, Options};
pub use rt_shell_lines::write_reply;
pub use runner::run;
pub use shell::{FeedFault, Shell};
