//! Tests of scripts, of what they are made of, and of dumps, over public calls.
//!
//! - `cutting`, `parsing`, `spellings`, `values`: pieces wherever a read ends, and each form of the grammar.
//! - `committing`, `visited`: plans that tables carry out, and the nodes that a SELECT reaches.
//! - `faults`, `feeding`, `flushes`: what is written if a read, a write or the flush fails, or a script comes in parts.
//! - `growth`: shadows and dumps whose memory is refused.
//! - `devices`: the readers and writers of `rt_bytes`, and those of `failing`, which lie over another one, pass on what it
//!   gives and takes, and keep the contract of `ByteReader` or `ByteWriter`.
//!
//! Scripts and dumps that meet no fault stand as files beside `test_cases`.
#![tactic(auto)]

#[cfg(test)]
mod committing;
#[cfg(test)]
mod cutting;
#[cfg(test)]
mod devices;
#[cfg(test)]
mod failing;
#[cfg(test)]
mod faults;
#[cfg(test)]
mod feeding;
#[cfg(test)]
mod flushes;
#[cfg(test)]
mod from_text;
#[cfg(test)]
mod growth;
#[cfg(test)]
mod parsing;
#[cfg(test)]
mod spellings;
#[cfg(test)]
mod values;
#[cfg(test)]
mod visited;
