//! The columns of a table.
//!
//! Columns have a fixed order: the id, a minimum and a maximum for each axis, and then the auxiliary columns. So
//! the place of a column says what it holds (`specs/Columns.antt`).

ghost use Rattle.std.specs.Prelude.{◌≡◌, ◌≤◌, ◌+◌, ◌*◌, true, not, length, map, IfOk, OnOk};
ghost use Rattle.std.specs.List.{list_all};
ghost use Rattle.std.specs.BTreeSet.{contains_text};
ghost use Rattle.std.specs.Str.{str_to_ascii_lowercase};
ghost use Rattle.rt_table_row.specs.Columns.{has_name, place_of, are_distinct, plain_columns, is_column_list, columns_of, AddsName};
ghost use Rattle.rt_table_row.specs.Answers.{Gives};

use rt_sql_statement::{ColumnDef, Name, Refusal};
use std::alloc::{AllocError, Global};
use std::collections::BTreeSet;
use std::marker::Model;

/// The most columns that a table may have.
const MOST_COLUMNS: usize = 100;

/// Up to this many names are compared each with each, which needs no memory.
pub(crate) const FEW_NAMES: usize = 16;

/// The place of the name among the names; ASCII case doesn't matter.
pub(crate) fn place_of(names: &[Name], name: &Name) -> Option<usize>
    ensures { result ≡ place_of names.now name.now }
{
    names.iter().position(|other| name.is_same(other))
}

/// Whether the name is one of the names; ASCII case doesn't matter.
pub(crate) fn has_name(names: &[Name], name: &Name) -> bool
    ensures { result ≡ has_name names.now name.now }
{
    names.iter().any(|other| name.is_same(other))
}

/// Whether no name stands twice. Each is compared with each, so this is for short lists.
fn are_distinct(names: &[Name]) -> bool
    ensures { result ≡ are_distinct names.now }
{
    let mut rest = names;
    while let Some((name, later)) = rest.split_first() {
        if has_name(later, name) {
            return false;
        }
        rest = later;
    }
    true
}

/// Adds a name to the texts of those before it, which are in lower case. Says whether it is new among them.
fn add_name(alloc: Global, texts: &mut BTreeSet<String>, name: &Name) -> Result<bool, AllocError>
    ensures new { IfOk result (λ new. new ≡ not (contains_text texts.old (str_to_ascii_lowercase name.now))) }
    ensures added { OnOk result (AddsName name.now (contains_text texts.old) (contains_text texts.new)) }
{
    let new = texts.insert(name.as_str().to_ascii_lowercase(alloc)?)?;
    Ok(new)
}

/// The same for a long list: it doesn't compare each name with each.
fn are_many_distinct(alloc: Global, names: &[Name]) -> Result<bool, AllocError>
    ensures { IfOk result (λ distinct. distinct ≡ are_distinct names.now) }
{
    let mut texts = BTreeSet::new(alloc);
    for name in names {
        if !add_name(alloc, &mut texts, name)? {
            return Ok(false);
        }
    }
    Ok(true)
}

/// Whether no name is listed twice, in a list of any length.
pub(crate) fn are_listed_once(alloc: Global, names: &[Name]) -> Result<bool, AllocError>
    ensures { IfOk result (λ distinct. distinct ≡ are_distinct names.now) }
{
    if names.len() <= FEW_NAMES {
        return Ok(are_distinct(names));
    }
    are_many_distinct(alloc, names)
}

fn plain_columns(columns: &[ColumnDef]) -> usize
    ensures value { result ≡ length (plain_columns columns.now) }
    ensures within { result ≤ length columns.now }
{
    columns.iter().filter(|column| !column.auxiliary).count()
}

fn are_auxiliary(columns: &[ColumnDef]) -> bool
    ensures { result ≡ list_all (λ c. c.auxiliary) columns.now }
{
    columns.iter().all(|column| column.auxiliary)
}

/// Whether a CREATE may list these columns. How many there are is looked at before the names.
fn is_column_list(columns: &[ColumnDef], names: &[Name]) -> bool
    requires { names.now ≡ map (λ c. c.name) columns.now }
    ensures { result ≡ is_column_list columns.now }
{
    let plain = plain_columns(columns);
    matches!(plain, 3 | 5 | 7)
        && are_auxiliary(&columns[plain..])
        && columns.len() <= MOST_COLUMNS
        && are_distinct(names)
}

fn names_of(alloc: Global, columns: &[ColumnDef]) -> Result<Vec<Name>, AllocError>
    ensures { IfOk result (λ names. names.items ≡ map (λ c. c.name) columns.now) }
{
    let mut names = Vec::with_capacity(alloc, columns.len())?;
    for column in columns {
        names.push(column.name.try_clone(alloc)?)?;
    }
    Ok(names)
}

/// The columns of a table: an id, a minimum and a maximum for each of one to three axes, and
/// auxiliary columns. No two have one name.
#[derive(Debug)]
pub struct Schema {
    axes: usize,
    names: Vec<Name>,
}

// By hand, since a derived drop is written out, field by field, in each place in which such a value ends.
impl Drop for Schema {
    fn drop(self) {
        let Schema { axes: _, names: _ } = self;
    }
}

impl Model for Schema {
    ghost use Rattle.rt_table_row.specs.Columns.{Columns, AreColumns};

    ghost Value = { Columns };

    ghost view = { λ schema. record { axes = schema.axes; names = schema.names.items } };

    ghost invariant = { λ schema. AreColumns schema.axes schema.names.items };
}

impl Schema {
    /// The columns that a CREATE lists.
    ///
    /// # Errors
    ///
    /// `BadColumnList` if no table may have these columns; `OutOfMemory` if no memory is left.
    pub fn new(alloc: Global, columns: &[ColumnDef]) -> Result<Schema, Refusal>
        ensures { Gives (columns_of columns.now) result }
    {
        if columns.len() > MOST_COLUMNS {
            return Err(Refusal::BadColumnList);
        }
        let names = names_of(alloc, columns)?;
        if !is_column_list(columns, names.as_slice()) {
            return Err(Refusal::BadColumnList);
        }
        let axes = plain_columns(columns) / 2;
        Ok(Schema { axes, names })
    }

    /// A law: what holds of the columns of every table. There are one to three axes, a column for the ids and two for each
    /// axis, and no two columns have one name. The call does nothing.
    pub fn facts(&self)
        ensures some { 1 ≤ self.now.axes }
        ensures few { self.now.axes ≤ 3 }
        ensures least { 1 + 2 * self.now.axes ≤ length self.now.names }
        ensures distinct { are_distinct self.now.names ≡ true }
    {
        // The contracts of both say so.
        let _ = (self.axes(), self.len());
    }

    /// The number of axes, from one to three.
    pub fn axes(&self) -> usize
        ensures value { result ≡ self.now.axes }
        ensures some { 1 ≤ result }
        ensures few { result ≤ 3 }
    {
        self.axes
    }

    /// The number of columns: the id's, two for each axis, and those of the auxiliary ones.
    pub fn len(&self) -> usize
        ensures value { result ≡ length self.now.names }
        ensures least { 1 + 2 * self.now.axes ≤ result }
        ensures distinct { are_distinct self.now.names ≡ true }
    {
        self.names.len()
    }

    /// The names of the columns, in their order.
    pub fn names(&self) -> &[Name]
        ensures { result.now ≡ self.now.names }
    {
        self.names.as_slice()
    }

    /// The place of the column of that name; ASCII case doesn't matter.
    pub fn place_of(&self, name: &Name) -> Option<usize>
        ensures { result ≡ place_of self.now.names name.now }
    {
        place_of(self.names.as_slice(), name)
    }
}
