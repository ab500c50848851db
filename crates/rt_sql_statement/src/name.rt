//! Names of tables, columns and views.
//!
//! A name keeps the case that was written. Two names are one if they differ in nothing but ASCII case
//! (`specs/Name.antt`). A short name, as most are, takes no memory beside its own.

ghost use Rattle.std.specs.Prelude.{◌≡◌};
ghost use Rattle.std.specs.Char.{eq_ignore_ascii_case};
ghost use Rattle.rt_sql_statement.specs.Name.{same_name};

use arrayvec::ArrayString;
use std::alloc::{AllocError, Global};
use std::fmt;
use std::marker::Model;

/// The most bytes of a name that stands in place; a longer one stands on the heap.
const MOST_IN_PLACE: usize = 16;

/// How far a letter in lower case stands behind the same letter in upper case.
const CASES_APART: u8 = 32;

/// Whether both bytes are the same, ASCII case aside. Mostly they are the same, or differ in what case doesn't change, and
/// no case is folded.
fn is_same_byte(own: u8, other: u8) -> bool
    ensures { result ≡ eq_ignore_ascii_case own other }
{
    own == other || (own % CASES_APART == other % CASES_APART && own.eq_ignore_ascii_case(&other))
}

/// Whether both texts are one name. Most names of a table differ in their lengths, or in one of their first bytes.
#[tactic(auto, using(crate::proofs::Names::not_as_long, crate::proofs::Names::same_rest, crate::proofs::Names::differs, crate::proofs::Names::same_end))]
fn are_same(own: &[u8], other: &[u8]) -> bool
    ensures { result ≡ same_name own.now other.now }
{
    if own.len() != other.len() {
        return false;
    }
    for at in 0..own.len() {
        if !is_same_byte(own[at], other[at]) {
            return false;
        }
    }
    true
}

/// Where the text of a name stands.
#[derive(Drop)]
enum Storage {
    /// In the name itself.
    InPlace(ArrayString<MOST_IN_PLACE>),
    /// On the heap.
    OnHeap(String),
}

/// The name of a table, a column or a view: its text with the case that was written, without
/// the quotes round it.
pub struct Name {
    storage: Storage,
}

// By hand, since a derived drop is written out, field by field, wherever such a value ends.
impl Drop for Name {
    fn drop(self) {
        let Name { storage: _ } = self;
    }
}

// By hand, since where the text stands is nobody's business.
impl fmt::Debug for Name {
    fn fmt<W: fmt::Write>(&self, f: &mut fmt::Formatter<W>) -> fmt::Result {
        f.debug_struct("Name")
            .field("text", &self.as_str())
            .finish()
    }
}

impl Model for Name {
    ghost use Rattle.std.specs.Prelude.{ℕ, List};
    ghost use Rattle.rt_sql_statement.specs.Name.{text_in};

    ghost Value = { List ℕ };

    ghost view = { λ name. text_in name.storage };
}

impl Name {
    ghost use Rattle.std.specs.Prelude.{◌≡◌, IfOk};
    ghost use Rattle.std.specs.String.{string_bytes};
    ghost use Rattle.rt_sql_statement.specs.Name.{same_name};

    /// A name with this text.
    pub fn new(alloc: Global, text: &str) -> Result<Name, AllocError>
        ensures { IfOk result (λ name. name ≡ text.now) }
    {
        if let Ok(short) = ArrayString::from(text) {
            return Ok(Name {
                storage: Storage::InPlace(short),
            });
        }
        let long = String::from_str(alloc, text)?;
        Ok(Name {
            storage: Storage::OnHeap(long),
        })
    }

    /// A name with this text, which isn't copied.
    pub fn from_string(text: String) -> Name
        ensures { result ≡ string_bytes text }
    {
        Name {
            storage: Storage::OnHeap(text),
        }
    }

    /// Its text, with the case that was written.
    pub fn as_str(&self) -> &str
        ensures { result.now ≡ self.now }
    {
        match &self.storage {
            Storage::InPlace(text) => text.as_str(),
            Storage::OnHeap(text) => text.as_str(),
        }
    }

    /// Whether both are one name, which ASCII case doesn't change. Nothing is copied.
    pub fn is_same(&self, other: &Name) -> bool
        ensures { result ≡ same_name self.now other.now }
    {
        are_same(self.as_str().as_bytes(), other.as_str().as_bytes())
    }

    /// The name again, with the same case.
    pub fn try_clone(&self, alloc: Global) -> Result<Name, AllocError>
        ensures { IfOk result (λ name. name ≡ self.now) }
    {
        Name::new(alloc, self.as_str())
    }
}
