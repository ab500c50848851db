//! Tests of the R*-tree and of what it stands on, over public calls.
//!
//! Boxes, windows and the choices of nodes are held against numbers worked out by hand, and the choice of a child against
//! the costs in full. Trees are held against dumps after worked calls, packed ones against those of a second program;
//! counts, nearest rows and joins against plain lists. Live windows tell what plain lists tell, and copies that follow
//! are what a join finds. One test is for runs in which memory is refused.
//!
//! Most tests walk a table of cases. Scripts hold the tree against a plain one, call by call: see `faults/follow.py`.
#![tactic(auto)]

#[cfg(test)]
mod boxes;
#[cfg(test)]
mod choices;
#[cfg(test)]
mod growth;
#[cfg(test)]
mod history;
#[cfg(test)]
mod moves;
#[cfg(test)]
mod packed;
#[cfg(test)]
mod rows;
#[cfg(test)]
mod searches;
#[cfg(test)]
mod windows;
#[cfg(test)]
mod worked;
