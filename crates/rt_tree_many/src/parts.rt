//! One list of several answers.

ghost use Rattle.std.specs.Prelude.{[], map, IfOk, OnOk};

use rt_tree::Row;
use std::alloc::{AllocError, Global};

/// The ids that several questions find, one answer after another.
#[derive(Debug, Drop)]
pub struct FoundMany {
    /// All ids.
    pub ids: Vec<i64>,
    /// For each question, the place of its first id. Its ids stand from there to the next start, or to the end.
    pub starts: Vec<usize>,
}

impl FoundMany {
    ghost use Rattle.rt_tree_many.specs.Parts.{AddsPart, HasParts};

    /// No answers, with room for the starts of some.
    pub(crate) fn with_room(alloc: Global, questions: usize) -> Result<FoundMany, AllocError>
        ensures { IfOk result (λ found. HasParts [] found.ids.items found.starts.items) }
    {
        Ok(FoundMany {
            ids: Vec::new(alloc),
            starts: Vec::with_capacity(alloc, questions)?,
        })
    }

    /// Adds an answer: the ids of the rows, in their order.
    pub(crate) fn add<const D: usize>(&mut self, rows: &[Row<D>]) -> Result<(), AllocError>
        ensures { OnOk result (AddsPart (map (λ r. r.id) rows.now) self.old self.new) }
    {
        self.starts.push(self.ids.len())?;
        self.ids.reserve(rows.len())?;
        for row in rows {
            self.ids.push(row.id)?;
        }
        Ok(())
    }

    /// Adds an answer: these ids.
    pub(crate) fn add_part(&mut self, part: &[i64]) -> Result<(), AllocError>
        ensures { OnOk result (AddsPart part.now self.old self.new) }
    {
        let start = self.ids.len();
        self.starts.push(start)?;
        self.ids.extend_from_slice(part)
    }
}
