//! Runs the worked scripts and dumps that stand as files beside this program, and compares what each prints,
//! and its status, with what it must print. A further case is a line in `data/cases.txt` and two files; nothing
//! is proved again for it.
//!
//! `test_cases [FOLDER]` reads the folder, or the one that it is run in, prints a line for each case, and ends with
//! status 1 if one differs. Each case is run over memory, with reads of 4,096 bytes and of one byte.
#![tactic(auto)]

mod case;
mod outcome;

use anyhow::{Context, bail};
use case::Case;
use outcome::{Outcome, Parts, outcome_of};
use std::hash::RandomState;
use std::process::ExitCode;
use std::{env, fs};

fn main(rt: HostRuntime) -> anyhow::Result<ExitCode> {
    let folder = match env::args(&rt)?.nth(1) {
        Some(folder) => folder,
        None => format!(in rt.alloc(); ".")?,
    };
    let folder = folder.as_str();
    let list = format!(in rt.alloc(); "{folder}/cases.txt")?;
    let list = fs::read_to_string(&rt, list.as_str()).context("cases.txt")?;
    let keys = RandomState::new(&rt)?;
    let mut status = ExitCode::SUCCESS;
    for line in list.as_str().lines() {
        if line.is_empty() || line.starts_with('#') {
            continue;
        }
        let Some(case) = Case::read(line) else {
            bail!("cases.txt: {line}");
        };
        match first_difference(&rt, keys, folder, &case).context(format_args!("{}", case.name))? {
            None => println!(rt; "{}: as it must be", case.name)?,
            Some(parts) => {
                println!(rt; "{}: DIFFERS, {parts}", case.name)?;
                status = ExitCode::from(1);
            }
        }
    }
    Ok(status)
}

/// How the input was parted when the case first differed from what it must give.
fn first_difference(
    rt: &HostRuntime,
    keys: RandomState,
    folder: &str,
    case: &Case<'_>,
) -> anyhow::Result<Option<Parts>> {
    let alloc = rt.alloc();
    let path = format!(in alloc; "{folder}/{}.{}", case.name, case.command.extension())?;
    let input = case.filled(alloc, fs::read(rt, path.as_str())?.as_slice())?;
    let path = format!(in alloc; "{folder}/{}.out", case.name)?;
    let wanted = Outcome {
        printed: fs::read(rt, path.as_str())?,
        status: case.status,
    };
    for parts in [Parts::OfAtMost(4096), Parts::OfAtMost(1)] {
        if outcome_of(alloc, keys, &case.command, input.as_slice(), parts)? != wanted {
            return Ok(Some(parts));
        }
    }
    if case.cuts {
        for place in 1..input.len() {
            let parts = Parts::CutAfter(place);
            if outcome_of(alloc, keys, &case.command, input.as_slice(), parts)? != wanted {
                return Ok(Some(parts));
            }
        }
    }
    Ok(None)
}
