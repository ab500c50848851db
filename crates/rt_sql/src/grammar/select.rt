//! SELECT, of rows and of the checker's verdict.
//!
//! `rtreecheck` is a column's name like any other, unless a parenthesis follows it.

ghost use Rattle.std.specs.Prelude.{◌≡◌};
ghost use Rattle.rt_sql.specs.Number.{number_by};
ghost use Rattle.rt_sql.specs.Reading as reading;
ghost use Rattle.rt_sql.specs.Reading.{Reads};

use crate::grammar::condition::condition;
use crate::grammar::items::{Separator, sequence};
use crate::grammar::literals::{name, text};
use crate::number::Numbers;
use crate::token::Sign;
use crate::tokens::Tokens;
use rt_sql_request::Stmt;
use rt_sql_statement::{Items, Name, Refusal};
use std::alloc::Global;

/// The column that rows are ordered by, if `ORDER` comes next.
#[tactic(auto, unfolding(crate::specs::Reading::order, crate::specs::Reading::order_by))]
fn order(alloc: Global, tokens: &mut Tokens<'_>) -> Result<Option<Name>, Refusal>
    ensures { Reads (reading.order tokens.old) result tokens.new }
{
    if !tokens.eat_word("ORDER") {
        return Ok(None);
    }
    tokens.expect_word("BY")?;
    let column = name(alloc, tokens)?;
    tokens.eat_word("ASC");
    Ok(Some(column))
}

/// The columns that a SELECT shows: all of them at `*`.
#[tactic(auto, using(crate::proofs::Shorter::name_takes), unfolding(crate::specs::Reading::selection))]
fn selection(
    alloc: Global,
    tokens: &mut Tokens<'_>,
    numbers: Numbers,
) -> Result<Option<Items<Name>>, Refusal>
    ensures { Reads (reading.selection tokens.old) result tokens.new }
{
    if tokens.eat_sign(Sign::Star) {
        Ok(None)
    } else {
        let names = sequence::<Name>(alloc, tokens, numbers, Separator::Comma)?;
        Ok(Some(names))
    }
}

/// A SELECT of rows from its columns on.
#[tactic(auto, unfolding(crate::specs::Reading::select_rows))]
fn select_rows(alloc: Global, tokens: &mut Tokens<'_>, numbers: Numbers) -> Result<Stmt, Refusal>
    ensures { Reads (reading.select_rows (number_by numbers) tokens.old) result tokens.new }
{
    let columns = selection(alloc, tokens, numbers)?;
    tokens.expect_word("FROM")?;
    let table = name(alloc, tokens)?;
    let cond = condition(alloc, tokens, numbers)?;
    let order = order(alloc, tokens)?;
    Ok(Stmt::Select {
        columns,
        table,
        cond,
        order,
    })
}

/// A call of `rtreecheck` from its parenthesis on.
#[inline(never)]
#[tactic(auto, unfolding(crate::specs::Reading::check))]
fn check(alloc: Global, tokens: &mut Tokens<'_>) -> Result<Stmt, Refusal>
    ensures { Reads (reading.check tokens.old) result tokens.new }
{
    tokens.expect_sign(Sign::LeftParenthesis)?;
    let table = text(alloc, tokens)?;
    tokens.expect_sign(Sign::RightParenthesis)?;
    Ok(Stmt::Check { table })
}

/// Whether that sign comes after the next token.
#[tactic(auto, unfolding(crate::specs::Reading::sees_sign))]
fn then_sign(tokens: &Tokens<'_>, sign: Sign) -> bool
    ensures { result ≡ reading.sees_sign sign (reading.rest tokens.now) }
{
    match tokens.second() {
        Some(token) => token.is_sign(sign),
        None => false,
    }
}

/// A SELECT from what follows that word on. It stands apart, so that its locals aren't cleared for other statements.
#[inline(never)]
#[tactic(auto, unfolding(crate::specs::Reading::select))]
pub(crate) fn select(
    alloc: Global,
    tokens: &mut Tokens<'_>,
    numbers: Numbers,
) -> Result<Stmt, Refusal>
    ensures { Reads (reading.select (number_by numbers) tokens.old) result tokens.new }
{
    if tokens.sees_word("RTREECHECK") && then_sign(tokens, Sign::LeftParenthesis) {
        tokens.skip();
        check(alloc, tokens)
    } else {
        select_rows(alloc, tokens, numbers)
    }
}
