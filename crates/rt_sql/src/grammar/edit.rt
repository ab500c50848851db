//! INSERT, REPLACE, UPDATE and DELETE.
//!
//! Each is read from the word after its verb on; `grammar` looks at the verb.

ghost use Rattle.std.specs.Prelude.{◌≡◌, false};
ghost use Rattle.rt_sql.specs.Number.{number_by};
ghost use Rattle.rt_sql.specs.Reading as reading;
ghost use Rattle.rt_sql.specs.Reading.{Reads};

use crate::grammar::condition::condition;
use crate::grammar::items::{Item, Separator, sequence};
use crate::grammar::literals::{digits, name};
use crate::number::Numbers;
use crate::token::{Sign, Token};
use crate::tokens::Tokens;
use rt_sql_request::Stmt;
use rt_sql_statement::{Edit, Items, Name, Refusal, Rule, Source, Value};
use std::alloc::Global;

/// What an INSERT does with a row whose id is taken: `OR` and a rule, or nothing.
#[tactic(auto, unfolding(crate::specs::Reading::rule, crate::specs::Reading::chosen_rule, crate::specs::Reading::other_rule))]
pub(crate) fn rule(tokens: &mut Tokens<'_>) -> Result<Rule, Refusal>
    ensures { Reads (reading.rule tokens.old) result tokens.new }
{
    if !tokens.eat_word("OR") {
        return Ok(Rule::Abort);
    }
    if tokens.eat_word("REPLACE") {
        return Ok(Rule::Replace);
    }
    if tokens.eat_word("IGNORE") {
        return Ok(Rule::Ignore);
    }
    tokens.expect_word("ABORT")?;
    Ok(Rule::Abort)
}

/// The columns that an INSERT lists, from the first on.
#[tactic(auto, using(crate::proofs::Shorter::name_takes), unfolding(crate::specs::Reading::name_list))]
fn name_list(
    alloc: Global,
    tokens: &mut Tokens<'_>,
    numbers: Numbers,
) -> Result<Option<Items<Name>>, Refusal>
    ensures { Reads (reading.name_list tokens.old) result tokens.new }
{
    let names = sequence::<Name>(alloc, tokens, numbers, Separator::Comma)?;
    tokens.expect_sign(Sign::RightParenthesis)?;
    Ok(Some(names))
}

/// The columns that an INSERT lists, if a parenthesis comes next.
#[tactic(auto, unfolding(crate::specs::Reading::named_columns))]
fn named_columns(
    alloc: Global,
    tokens: &mut Tokens<'_>,
    numbers: Numbers,
) -> Result<Option<Items<Name>>, Refusal>
    ensures { Reads (reading.named_columns tokens.old) result tokens.new }
{
    if tokens.eat_sign(Sign::LeftParenthesis) {
        name_list(alloc, tokens, numbers)
    } else {
        Ok(None)
    }
}

/// An INSERT from `INTO` on.
#[tactic(auto, using(crate::proofs::Shorter::list_takes), unfolding(crate::specs::Reading::insert))]
pub(crate) fn insert(
    alloc: Global,
    tokens: &mut Tokens<'_>,
    numbers: Numbers,
    rule: Rule,
) -> Result<Stmt, Refusal>
    ensures { Reads (reading.insert (number_by numbers) rule tokens.old) result tokens.new }
{
    tokens.expect_word("INTO")?;
    let table = name(alloc, tokens)?;
    let columns = named_columns(alloc, tokens, numbers)?;
    tokens.expect_word("VALUES")?;
    let rows = sequence::<Items<Value>>(alloc, tokens, numbers, Separator::Comma)?;
    let edit = Edit::Insert {
        rule,
        columns,
        rows,
    };
    Ok(Stmt::Edit { table, edit })
}

/// Whether a value begins with that token, and no column.
#[tactic(auto, unfolding(crate::specs::Reading::begins_value))]
fn begins_value(token: &Token<'_>) -> bool
    ensures { result ≡ reading.begins_value token.now }
{
    match token {
        Token::Word(word) => word.as_str().eq_ignore_ascii_case("NULL"),
        Token::Digits(_) | Token::Text(_) | Token::Blob(_) => true,
        Token::Sign(sign) => matches!(sign, Sign::Plus | Sign::Minus),
        _ => false,
    }
}

/// Whether a value comes next, and no column.
#[tactic(auto, unfolding(crate::specs::Reading::sees_value))]
fn sees_value(tokens: &Tokens<'_>) -> bool
    ensures { result ≡ reading.sees_value tokens.now }
{
    match tokens.peek() {
        Some(token) => begins_value(token),
        None => false,
    }
}

/// A column plus a number, from the number on.
fn plus(tokens: &mut Tokens<'_>, numbers: Numbers, column: Name) -> Result<Source, Refusal>
    ensures { Reads (reading.plus_number (number_by numbers) column tokens.old) result tokens.new }
{
    let number = digits(tokens, numbers, false)?;
    Ok(Source::Plus(column, number))
}

/// A column minus a number, from the number on.
fn minus(tokens: &mut Tokens<'_>, numbers: Numbers, column: Name) -> Result<Source, Refusal>
    ensures { Reads (reading.minus_number (number_by numbers) column tokens.old) result tokens.new }
{
    let number = digits(tokens, numbers, false)?;
    Ok(Source::Minus(column, number))
}

/// A column minus a number, or the column, from what follows it.
#[tactic(auto, unfolding(crate::specs::Reading::less_or_same))]
fn less_or_same(tokens: &mut Tokens<'_>, numbers: Numbers, column: Name) -> Result<Source, Refusal>
    ensures { Reads (reading.less_or_same (number_by numbers) column tokens.old) result tokens.new }
{
    if tokens.eat_sign(Sign::Minus) {
        minus(tokens, numbers, column)
    } else {
        Ok(Source::Column(column))
    }
}

/// A source that reads a column: the column, or the column plus or minus a number.
#[tactic(auto, unfolding(crate::specs::Reading::from_column))]
fn from_column(alloc: Global, tokens: &mut Tokens<'_>, numbers: Numbers) -> Result<Source, Refusal>
    ensures { Reads (reading.from_column (number_by numbers) tokens.old) result tokens.new }
{
    let column = name(alloc, tokens)?;
    if tokens.eat_sign(Sign::Plus) {
        plus(tokens, numbers, column)
    } else {
        less_or_same(tokens, numbers, column)
    }
}

/// What an UPDATE gives a column.
#[tactic(auto, unfolding(crate::specs::Reading::a_source))]
fn source(alloc: Global, tokens: &mut Tokens<'_>, numbers: Numbers) -> Result<Source, Refusal>
    ensures { Reads (reading.a_source (number_by numbers) tokens.old) result tokens.new }
{
    if sees_value(tokens) {
        Value::read(alloc, tokens, numbers).map(Source::Literal)
    } else {
        from_column(alloc, tokens, numbers)
    }
}

/// What that column is given, from `=` on.
fn set_of(
    alloc: Global,
    tokens: &mut Tokens<'_>,
    numbers: Numbers,
    column: Name,
) -> Result<(Name, Source), Refusal>
    ensures { Reads (reading.set_to (number_by numbers) column tokens.old) result tokens.new }
{
    tokens.expect_sign(Sign::Equal)?;
    let source = source(alloc, tokens, numbers)?;
    Ok((column, source))
}

/// A column, `=` and what it is given.
impl Item for (Name, Source) {
    ghost use Rattle.rt_sql.specs.Reading.{set};

    ghost rule = { set };

    #[tactic(auto, unfolding(crate::specs::Reading::set))]
    fn read(
        alloc: Global,
        tokens: &mut Tokens<'_>,
        numbers: Numbers,
    ) -> Result<(Name, Source), Refusal> {
        let column = name(alloc, tokens)?;
        set_of(alloc, tokens, numbers, column)
    }
}

/// An UPDATE from its table on.
#[tactic(auto, using(crate::proofs::Shorter::set_takes), unfolding(crate::specs::Reading::update))]
pub(crate) fn update(
    alloc: Global,
    tokens: &mut Tokens<'_>,
    numbers: Numbers,
) -> Result<Stmt, Refusal>
    ensures { Reads (reading.update (number_by numbers) tokens.old) result tokens.new }
{
    let table = name(alloc, tokens)?;
    tokens.expect_word("SET")?;
    let sets = sequence::<(Name, Source)>(alloc, tokens, numbers, Separator::Comma)?;
    let cond = condition(alloc, tokens, numbers)?;
    let edit = Edit::Update { sets, cond };
    Ok(Stmt::Edit { table, edit })
}

/// A DELETE from `FROM` on.
#[tactic(auto, unfolding(crate::specs::Reading::delete))]
pub(crate) fn delete(
    alloc: Global,
    tokens: &mut Tokens<'_>,
    numbers: Numbers,
) -> Result<Stmt, Refusal>
    ensures { Reads (reading.delete (number_by numbers) tokens.old) result tokens.new }
{
    tokens.expect_word("FROM")?;
    let table = name(alloc, tokens)?;
    let cond = condition(alloc, tokens, numbers)?;
    let edit = Edit::Delete { cond };
    Ok(Stmt::Edit { table, edit })
}
