//! Which statement tokens spell, one function for each rule of the grammar.
//!
//! Each function takes the tokens that it reads, and its contract names the rule of `specs/Reading.antt` that it follows.
//! No token is looked at twice, unless it follows `IF` or `rtreecheck`.

ghost use Rattle.std.specs.Prelude.{◌≡◌, true, false, Err, MatchResult};
ghost use Rattle.rt_sql.specs.Number.{number_by};
ghost use Rattle.rt_sql.specs.Reading as reading;
ghost use Rattle.rt_sql.specs.Reading.{Reads};

mod command;
mod condition;
mod create;
mod edit;
mod items;
mod literals;
mod select;

use crate::grammar::command::command;
use crate::grammar::create::definition;
use crate::grammar::edit::{delete, insert, rule, update};
use crate::grammar::select::select;
use crate::number::Numbers;
use crate::token::{Sign, Token};
use crate::tokens::Tokens;
pub(crate) use command::is_command;
use rt_sql_request::Stmt;
use rt_sql_statement::{Refusal, Rule};
use std::alloc::Global;

/// An UPDATE, a DELETE, a CREATE or a DROP.
#[inline(never)]
#[tactic(auto, unfolding(crate::specs::Reading::change))]
fn change(alloc: Global, tokens: &mut Tokens<'_>, numbers: Numbers) -> Result<Stmt, Refusal>
    ensures { Reads (reading.change (number_by numbers) tokens.old) result tokens.new }
{
    if tokens.eat_word("UPDATE") {
        return update(alloc, tokens, numbers);
    }
    if tokens.eat_word("DELETE") {
        return delete(alloc, tokens, numbers);
    }
    definition(alloc, tokens, numbers)
}

/// A statement without its semicolon.
#[tactic(auto, unfolding(crate::specs::Reading::statement, crate::specs::Reading::insertion, crate::specs::Reading::replacement))]
fn statement(alloc: Global, tokens: &mut Tokens<'_>, numbers: Numbers) -> Result<Stmt, Refusal>
    ensures { Reads (reading.statement (number_by numbers) tokens.old) result tokens.new }
{
    if tokens.eat_word("SELECT") {
        return select(alloc, tokens, numbers);
    }
    if tokens.eat_word("INSERT") {
        let rule = rule(tokens)?;
        return insert(alloc, tokens, numbers, rule);
    }
    if tokens.eat_word("REPLACE") {
        return insert(alloc, tokens, numbers, Rule::Replace);
    }
    change(alloc, tokens, numbers)
}

/// What was read, if no token is left. It may be of any type, since to drop a statement takes long code.
#[tactic(auto, unfolding(crate::specs::Reading::finish))]
fn finish<T: Drop>(tokens: &Tokens<'_>, read: T) -> Result<T, Refusal>
    ensures { Reads (reading.finish read tokens.now) result tokens.now }
{
    if tokens.peek().is_some() {
        return Err(Refusal::SyntaxError);
    }
    Ok(read)
}

/// What was read, if a semicolon follows and no token is left.
fn end<T: Drop>(tokens: &mut Tokens<'_>, read: T) -> Result<T, Refusal>
    ensures { Reads (reading.end read tokens.old) result tokens.new }
{
    tokens.expect_sign(Sign::Semicolon)?;
    finish(tokens, read)
}

/// A dot line of that word to its end.
#[inline(never)]
#[tactic(auto, unfolding(crate::specs::Reading::whole_command))]
fn whole_command(
    alloc: Global,
    tokens: &mut Tokens<'_>,
    numbers: Numbers,
    word: &str,
) -> Result<Stmt, Refusal>
    ensures { Reads (reading.whole_command (number_by numbers) word.now tokens.old) result tokens.new }
{
    let asked = command(alloc, tokens, numbers, word)?;
    tokens.eat_sign(Sign::Semicolon);
    finish(tokens, asked)
}

/// A statement to its end, with its semicolon.
#[inline]
#[tactic(auto, unfolding(crate::specs::Reading::whole_statement))]
fn whole_statement(
    alloc: Global,
    tokens: &mut Tokens<'_>,
    numbers: Numbers,
) -> Result<Stmt, Refusal>
    ensures { Reads (reading.whole_statement (number_by numbers) tokens.old) result tokens.new }
{
    let asked = statement(alloc, tokens, numbers)?;
    end(tokens, asked)
}

/// The statement that all of the tokens spell.
#[tactic(auto, unfolding(crate::specs::Reading::whole, crate::specs::Reading::dot_in))]
pub(crate) fn whole(
    alloc: Global,
    tokens: &mut Tokens<'_>,
    numbers: Numbers,
) -> Result<Stmt, Refusal>
    ensures { Reads (reading.whole (number_by numbers) tokens.old) result tokens.new }
{
    let Some(Token::Dot(word)) = tokens.peek() else {
        return whole_statement(alloc, tokens, numbers);
    };
    let word = word.as_str();
    tokens.skip();
    whole_command(alloc, tokens, numbers, word)
}
