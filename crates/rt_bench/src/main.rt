//! Times the choices of the R*-tree, in nanoseconds.
//!
//! `rt_bench choices` prints what each takes, on full nodes in two dimensions and on those of a tree that was built. With other
//! words, or none, it does nothing. `bench/` times the calls of whole trees.
#![tactic(auto)]

mod built;
mod choices;
mod rows;

use std::{env, io};

fn main(rt: HostRuntime) -> io::Result<()> {
    let words: Vec<String> = env::args(&rt)?.collect(rt.alloc())?;
    match words.as_slice() {
        [_, what] if what.as_str() == "choices" => {
            built::report(&rt)?;
            choices::report(&rt)
        }
        _ => Ok(()),
    }
}
