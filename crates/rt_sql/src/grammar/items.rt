//! Lists: items with commas or `AND` between.
//!
//! `Item` says how one item of each kind is read, and `sequence` is the loop over all kinds.

ghost use Rattle.std.specs.Prelude.{◌≡◌, if◌then◌else◌};
ghost use Rattle.rt_sql.specs.Number.{number_by};
ghost use Rattle.rt_sql.specs.Reading as reading;
ghost use Rattle.rt_sql.specs.Reading.{Parser, Read, Reads, TakesTokens};

use crate::number::Numbers;
use crate::token::Sign;
use crate::tokens::Tokens;
use rt_sql_statement::{Items, Refusal};
use std::alloc::Global;

/// How many items a new list has room for.
const LIKELY: usize = 8;

/// What lists are of.
pub(crate) trait Item: Drop {
    // The rule that reads one.
    ghost rule: { Read → Parser Self };

    /// Takes the tokens of one, and returns it.
    fn read(alloc: Global, tokens: &mut Tokens<'_>, numbers: Numbers) -> Result<Self, Refusal>
        ensures { Reads (rule (number_by numbers) tokens.old) result tokens.new };
}

/// What stands between two items.
#[derive(Clone, Copy, Debug)]
pub(crate) enum Separator {
    /// `,`.
    Comma,
    /// `AND`.
    And,
}

/// Takes the separator if it comes next, and returns whether it did.
fn eat(tokens: &mut Tokens<'_>, separator: Separator) -> bool
    ensures found { result ≡ reading.sees separator tokens.old }
    ensures after { tokens.new ≡ (if reading.sees separator tokens.old then reading.rest tokens.old else tokens.old) }
{
    match separator {
        Separator::Comma => tokens.eat_sign(Sign::Comma),
        Separator::And => tokens.eat_word("AND"),
    }
}

/// One item or more, with separators between. No item may be empty, so the list ends.
pub(crate) fn sequence<T: Item>(
    alloc: Global,
    tokens: &mut Tokens<'_>,
    numbers: Numbers,
    separator: Separator,
) -> Result<Items<T>, Refusal>
    requires { TakesTokens (T.rule (number_by numbers)) }
    ensures { Reads (reading.sequence_by separator (T.rule (number_by numbers)) tokens.old) result tokens.new }
{
    let mut items = Items::from_vec(Vec::with_capacity(alloc, LIKELY)?);
    'items: loop {
        items.push(T::read(alloc, tokens, numbers)?)?;
        if !eat(tokens, separator) {
            return Ok(items);
        }
    }
}
