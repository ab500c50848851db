//! Dot lines: `.watch`, `.unwatch`, `.view` and `.nodes`.
//!
//! The word after the dot is known already; ASCII case doesn't matter in it.

ghost use Rattle.std.specs.Prelude.{◌≡◌};
ghost use Rattle.rt_sql.specs.Grammar as grammar;
ghost use Rattle.rt_sql.specs.Number.{number_by};
ghost use Rattle.rt_sql.specs.Reading as reading;
ghost use Rattle.rt_sql.specs.Reading.{Reads};

use crate::grammar::condition::condition;
use crate::grammar::literals::name;
use crate::number::Numbers;
use crate::tokens::Tokens;
use crate::word::is_among;
use rt_sql_request::Stmt;
use rt_sql_statement::Refusal;
use std::alloc::Global;

/// A `.watch` from its view on.
#[tactic(auto, unfolding(crate::specs::Reading::watch))]
fn watch(alloc: Global, tokens: &mut Tokens<'_>, numbers: Numbers) -> Result<Stmt, Refusal>
    ensures { Reads (reading.watch (number_by numbers) tokens.old) result tokens.new }
{
    let view = name(alloc, tokens)?;
    tokens.expect_word("FROM")?;
    let table = name(alloc, tokens)?;
    let cond = condition(alloc, tokens, numbers)?;
    Ok(Stmt::Watch { view, table, cond })
}

/// Whether a dot line of that word is known.
#[tactic(auto, unfolding(crate::specs::Grammar::is_command))]
pub(crate) fn is_command(word: &str) -> bool
    ensures { result ≡ grammar.is_command word.now }
{
    is_among(word, &["WATCH", "UNWATCH", "VIEW", "NODES"])
}

/// A dot line of that word that takes one name.
#[tactic(auto, unfolding(crate::specs::Reading::named_command, crate::specs::Reading::statement_by))]
fn named_command(alloc: Global, tokens: &mut Tokens<'_>, word: &str) -> Result<Stmt, Refusal>
    ensures { Reads (reading.named_command word.now tokens.old) result tokens.new }
{
    let name = name(alloc, tokens)?;
    if word.eq_ignore_ascii_case("UNWATCH") {
        Ok(Stmt::Unwatch { view: name })
    } else if word.eq_ignore_ascii_case("VIEW") {
        Ok(Stmt::View { view: name })
    } else if word.eq_ignore_ascii_case("NODES") {
        Ok(Stmt::Nodes { table: name })
    } else {
        Err(Refusal::SyntaxError)
    }
}

/// A dot line of that word.
#[tactic(auto, unfolding(crate::specs::Reading::command))]
pub(crate) fn command(
    alloc: Global,
    tokens: &mut Tokens<'_>,
    numbers: Numbers,
    word: &str,
) -> Result<Stmt, Refusal>
    ensures { Reads (reading.command (number_by numbers) word.now tokens.old) result tokens.new }
{
    if word.eq_ignore_ascii_case("WATCH") {
        watch(alloc, tokens, numbers)
    } else {
        named_command(alloc, tokens, word)
    }
}
