//! The six comparisons by which a window is narrowed.
//!
//! Five of them take numbers away. `Ne` takes none, since an interval can't have a gap (`specs/Operators.antt`).

/// One of the six comparisons of a coordinate with a number, the coordinate on the left.
#[derive(Clone, Copy, Debug, PartialEq, Eq)]
pub enum Operator {
    /// `=`.
    Eq,
    /// `<>`.
    Ne,
    /// `<`.
    Lt,
    /// `<=`.
    Le,
    /// `>`.
    Gt,
    /// `>=`.
    Ge,
}
