//! The cases of a list.
//!
//! A case is a line of `data/cases.txt`. Its name is that of two files: the input, and what it must print.

use rt_box::Capacity;
use rt_bytes::Status;
use rt_check_draw::{Axes, Choice};
use rt_shell::Options;
use std::alloc::{AllocError, Global};

/// What is done with a case's input.
#[derive(Drop)]
pub enum Command {
    /// The script is run.
    Run(Options),
    /// The dump is checked.
    Check,
    /// Each prefix of the dump is checked, from none of its bytes to all but the last.
    CheckFronts,
    /// The dump is drawn.
    Draw(Choice),
}

impl Command {
    /// How the name of the input's file ends.
    pub fn extension(&self) -> &'static str {
        match self {
            Command::Run(_) => "sql",
            Command::Check | Command::CheckFronts | Command::Draw(_) => "dump",
        }
    }
}

/// A line of the list: a name, a status, a command and its options.
#[derive(Drop)]
pub struct Case<'a> {
    /// Its files' name.
    pub name: &'a str,
    /// The status that it must have.
    pub status: Status,
    /// What is done.
    pub command: Command,
    /// How many letters stand for each `@` of the input, if it is to be filled.
    fill: Option<u32>,
    /// Whether the input is also read in two parts, cut at each place in turn.
    pub cuts: bool,
}

impl<'a> Case<'a> {
    /// Reads a line such as `open_quote 1 run --fill 65528`, or `None` if it isn't one.
    pub fn read(line: &'a str) -> Option<Case<'a>> {
        let mut words = line.split_whitespace();
        let name = words.next()?;
        let status = match words.next()? {
            "0" => Status::Clean,
            "1" => Status::Refused,
            _ => return None,
        };
        let command = words.next()?;
        let mut options = Options {
            capacity: Capacity::new(51)?,
            bail: false,
            echo: false,
        };
        let (mut fill, mut cuts) = (None, false);
        let mut choice = Choice {
            axes: None,
            lowest: 0,
            highest: u8::MAX,
            all: false,
        };
        for _ in 0..line.len() {
            let Some(option) = words.next() else {
                break;
            };
            match option {
                "--capacity" => options.capacity = Capacity::new(
                    words.next()?.parse::<u8>().ok()?,
                )?,
                "--bail" => options.bail = true,
                "--echo" => options.echo = true,
                "--fill" => fill = Some(words.next()?.parse::<u32>().ok()?),
                "--cuts" => cuts = true,
                "--axes" => choice.axes = axes_of(words.next()?),
                "--levels" => {
                    let mut levels = words.next()?.split('-');
                    choice.lowest = levels.next()?.parse::<u8>().ok()?;
                    choice.highest = levels.next()?.parse::<u8>().ok()?;
                }
                "--all" => choice.all = true,
                _ => return None,
            }
        }
        let command = match command {
            "run" => Command::Run(options),
            "check" => Command::Check,
            "check-fronts" => Command::CheckFronts,
            "draw" => Command::Draw(choice),
            _ => return None,
        };
        Some(Case {
            name,
            status,
            command,
            fill,
            cuts,
        })
    }

    /// The input that the file's bytes stand for.
    pub fn filled(&self, alloc: Global, bytes: &[u8]) -> Result<Vec<u8>, AllocError> {
        let mut input = Vec::new(alloc);
        for byte in bytes {
            if *byte == b'@'
                && let Some(times) = self.fill
            {
                for _ in 0..times {
                    input.push(b'a')?;
                }
            } else {
                input.push(*byte)?;
            }
        }
        Ok(input)
    }
}

/// The axes by their numbers, as `1,3`.
fn axes_of(numbers: &str) -> Option<Axes> {
    let mut numbers = numbers.split(',');
    let across = numbers.next()?.parse::<usize>().ok()?.checked_sub(1)?;
    let up = match numbers.next() {
        Some(number) => Some(number.parse::<usize>().ok()?.checked_sub(1)?),
        None => None,
    };
    Some(Axes { across, up })
}
