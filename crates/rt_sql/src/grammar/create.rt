//! CREATE VIRTUAL TABLE and DROP TABLE.
//!
//! The type of a column is read as SQLite reads it and means nothing: words, and one or two numbers in parentheses.

ghost use Rattle.std.specs.Prelude.{◌≡◌};
ghost use Rattle.rt_sql.specs.Number.{number_by};
ghost use Rattle.rt_sql.specs.Reading as reading;
ghost use Rattle.rt_sql.specs.Reading.{Reads};

use crate::grammar::items::{Item, Separator, sequence};
use crate::grammar::literals::{digits, name};
use crate::number::Numbers;
use crate::token::{Sign, Token};
use crate::tokens::Tokens;
use rt_sql_request::Stmt;
use rt_sql_statement::{ColumnDef, Name, Refusal};
use std::alloc::Global;

/// Whether a word comes next.
#[tactic(auto, unfolding(crate::specs::Reading::sees_any_word, crate::specs::Reading::is_any_word))]
fn sees_any_word(tokens: &Tokens<'_>) -> bool
    ensures { result ≡ reading.sees_any_word tokens.now }
{
    matches!(tokens.peek(), Some(Token::Word(_)))
}

/// Passes over the words of a column's type.
#[tactic(auto, using(crate::proofs::Words::skip_more, crate::proofs::Words::skip_none, crate::proofs::Words::word_left))]
fn skip_words(tokens: &mut Tokens<'_>)
    ensures { tokens.new ≡ reading.skip_words tokens.old }
{
    'words: while sees_any_word(tokens) {
        tokens.skip();
    }
}

/// The second number of a size, if a comma comes next.
#[tactic(auto, unfolding(crate::specs::Reading::second_size))]
fn second_size(tokens: &mut Tokens<'_>, numbers: Numbers) -> Result<(), Refusal>
    ensures { Reads (reading.second_size (number_by numbers) tokens.old) result tokens.new }
{
    if tokens.eat_sign(Sign::Comma) {
        digits(tokens, numbers, false)?;
    }
    Ok(())
}

/// A size from its first number on, and the words that follow it.
#[tactic(auto, unfolding(crate::specs::Reading::size_digits))]
fn size_digits(tokens: &mut Tokens<'_>, numbers: Numbers) -> Result<(), Refusal>
    ensures { Reads (reading.size_digits (number_by numbers) tokens.old) result tokens.new }
{
    digits(tokens, numbers, false)?;
    second_size(tokens, numbers)?;
    tokens.expect_sign(Sign::RightParenthesis)?;
    skip_words(tokens);
    Ok(())
}

/// The size of a type, if a parenthesis comes next.
#[tactic(auto, unfolding(crate::specs::Reading::size))]
fn size(tokens: &mut Tokens<'_>, numbers: Numbers) -> Result<(), Refusal>
    ensures { Reads (reading.size (number_by numbers) tokens.old) result tokens.new }
{
    if tokens.eat_sign(Sign::LeftParenthesis) {
        size_digits(tokens, numbers)
    } else {
        Ok(())
    }
}

/// A column: `+` if it is auxiliary, its name, and a type that means nothing.
impl Item for ColumnDef {
    ghost use Rattle.rt_sql.specs.Reading.{column};

    ghost rule = { column };

    #[tactic(auto, unfolding(crate::specs::Reading::column))]
    fn read(
        alloc: Global,
        tokens: &mut Tokens<'_>,
        numbers: Numbers,
    ) -> Result<ColumnDef, Refusal> {
        let auxiliary = tokens.eat_sign(Sign::Plus);
        let name = name(alloc, tokens)?;
        skip_words(tokens);
        size(tokens, numbers)?;
        Ok(ColumnDef { name, auxiliary })
    }
}

/// Whether that word comes after the next token.
#[tactic(auto, unfolding(crate::specs::Reading::sees_word, crate::specs::Reading::sees_sign))]
fn then_word(tokens: &Tokens<'_>, word: &str) -> bool
    ensures { result ≡ reading.sees_word word.now (reading.rest tokens.now) }
{
    match tokens.second() {
        Some(token) => token.is_word(word),
        None => false,
    }
}

/// The name of a table, and whether `IF` stood before it.
#[tactic(auto, unfolding(crate::specs::Reading::table))]
fn table(alloc: Global, tokens: &mut Tokens<'_>, is_guarded: bool) -> Result<(bool, Name), Refusal>
    ensures { Reads (reading.table is_guarded tokens.old) result tokens.new }
{
    Ok((is_guarded, name(alloc, tokens)?))
}

/// The name of a table, and whether `IF NOT EXISTS` stands before it.
#[tactic(auto, unfolding(crate::specs::Reading::if_not_exists))]
fn if_not_exists(alloc: Global, tokens: &mut Tokens<'_>) -> Result<(bool, Name), Refusal>
    ensures { Reads (reading.if_not_exists tokens.old) result tokens.new }
{
    if !(tokens.sees_word("IF") && then_word(tokens, "NOT")) {
        return table(alloc, tokens, false);
    }
    tokens.skip();
    tokens.skip();
    tokens.expect_word("EXISTS")?;
    table(alloc, tokens, true)
}

/// The name of a table, and whether `IF EXISTS` stands before it.
#[tactic(auto, unfolding(crate::specs::Reading::if_exists))]
fn if_exists(alloc: Global, tokens: &mut Tokens<'_>) -> Result<(bool, Name), Refusal>
    ensures { Reads (reading.if_exists tokens.old) result tokens.new }
{
    if !(tokens.sees_word("IF") && then_word(tokens, "EXISTS")) {
        return table(alloc, tokens, false);
    }
    tokens.skip();
    tokens.skip();
    table(alloc, tokens, true)
}

/// A CREATE from `VIRTUAL` on.
#[tactic(auto, using(crate::proofs::Shorter::column_takes), unfolding(crate::specs::Reading::create))]
fn create(alloc: Global, tokens: &mut Tokens<'_>, numbers: Numbers) -> Result<Stmt, Refusal>
    ensures { Reads (reading.create (number_by numbers) tokens.old) result tokens.new }
{
    tokens.expect_word("VIRTUAL")?;
    tokens.expect_word("TABLE")?;
    let (if_absent, table) = if_not_exists(alloc, tokens)?;
    tokens.expect_word("USING")?;
    tokens.expect_word("RTREE_I32")?;
    tokens.expect_sign(Sign::LeftParenthesis)?;
    let columns = sequence::<ColumnDef>(alloc, tokens, numbers, Separator::Comma)?;
    tokens.expect_sign(Sign::RightParenthesis)?;
    Ok(Stmt::Create {
        table,
        if_absent,
        columns,
    })
}

/// A DROP from `TABLE` on.
#[tactic(auto, unfolding(crate::specs::Reading::drop_table))]
fn drop_table(alloc: Global, tokens: &mut Tokens<'_>) -> Result<Stmt, Refusal>
    ensures { Reads (reading.drop_table tokens.old) result tokens.new }
{
    tokens.expect_word("TABLE")?;
    let (if_there, table) = if_exists(alloc, tokens)?;
    Ok(Stmt::Drop { table, if_there })
}

/// A CREATE or a DROP.
#[tactic(auto, unfolding(crate::specs::Reading::definition))]
pub(crate) fn definition(
    alloc: Global,
    tokens: &mut Tokens<'_>,
    numbers: Numbers,
) -> Result<Stmt, Refusal>
    ensures { Reads (reading.definition (number_by numbers) tokens.old) result tokens.new }
{
    if tokens.eat_word("CREATE") {
        return create(alloc, tokens, numbers);
    }
    tokens.expect_word("DROP")?;
    drop_table(alloc, tokens)
}
