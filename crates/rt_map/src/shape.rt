//! What a list of nodes says of each of them.

/// A node's level, and how many cells it has.
#[derive(Clone, Copy)]
pub(crate) struct Shape {
    /// The level, from 0 at the leaves.
    pub(crate) level: u8,
    /// The number of cells.
    pub(crate) cells: usize,
}
