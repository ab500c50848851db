//! The condition of a statement: tests of single columns with `AND` between.
//!
//! There is no `OR`, no parenthesis and no column on the right of an operator.

ghost use Rattle.std.specs.Prelude.{◌≡◌};
ghost use Rattle.std.specs.Option.{option_copied};
ghost use Rattle.rt_sql.specs.Number.{number_by};
ghost use Rattle.rt_sql.specs.Reading as reading;
ghost use Rattle.rt_sql.specs.Reading.{Reads};

use crate::grammar::items::{Item, Separator, sequence};
use crate::grammar::literals::name;
use crate::number::Numbers;
use crate::token::{Sign, Token};
use crate::tokens::Tokens;
use rt_sql_statement::{Compare, Cond, Items, Name, Operator, Refusal, Test, Value};
use std::alloc::Global;

/// The operator that a token is.
#[tactic(auto, unfolding(crate::specs::Reading::operator_in))]
fn operator_in(token: Option<&Token<'_>>) -> Option<Operator>
    ensures { result ≡ reading.operator_in (option_copied token.entry) }
{
    let Some(Token::Sign(sign)) = token else {
        return None;
    };
    match sign {
        Sign::Equal | Sign::DoubleEqual => Some(Operator::Eq),
        Sign::LessGreater | Sign::BangEqual => Some(Operator::Ne),
        Sign::Less => Some(Operator::Lt),
        Sign::LessOrEqual => Some(Operator::Le),
        Sign::Greater => Some(Operator::Gt),
        Sign::GreaterOrEqual => Some(Operator::Ge),
        _ => None,
    }
}

/// An operator of a comparison.
#[tactic(auto, unfolding(crate::specs::Reading::operator))]
fn operator(tokens: &mut Tokens<'_>) -> Result<Operator, Refusal>
    ensures { Reads (reading.operator tokens.old) result tokens.new }
{
    let Some(op) = operator_in(tokens.peek()) else {
        return Err(Refusal::SyntaxError);
    };
    tokens.skip();
    Ok(op)
}

/// A test for NULL from what follows `IS` on.
#[tactic(auto, unfolding(crate::specs::Reading::null_test))]
fn null_test(tokens: &mut Tokens<'_>, column: Name) -> Result<Test, Refusal>
    ensures { Reads (reading.null_test column tokens.old) result tokens.new }
{
    let is_not = tokens.eat_word("NOT");
    tokens.expect_word("NULL")?;
    Ok(if is_not {
        Test::IsNotNull(column)
    } else {
        Test::IsNull(column)
    })
}

/// A comparison from its operator on.
#[tactic(auto, unfolding(crate::specs::Reading::comparison))]
fn comparison(
    alloc: Global,
    tokens: &mut Tokens<'_>,
    numbers: Numbers,
    column: Name,
) -> Result<Test, Refusal>
    ensures { Reads (reading.comparison (number_by numbers) column tokens.old) result tokens.new }
{
    let op = operator(tokens)?;
    let value = Value::read(alloc, tokens, numbers)?;
    Ok(Test::Compare(Compare { column, op, value }))
}

/// A test of one column.
impl Item for Test {
    ghost use Rattle.rt_sql.specs.Reading.{a_test};

    ghost rule = { a_test };

    #[tactic(auto, unfolding(crate::specs::Reading::a_test))]
    fn read(alloc: Global, tokens: &mut Tokens<'_>, numbers: Numbers) -> Result<Test, Refusal> {
        let column = name(alloc, tokens)?;
        if tokens.eat_word("IS") {
            null_test(tokens, column)
        } else {
            comparison(alloc, tokens, numbers, column)
        }
    }
}

/// A condition: `WHERE` and its tests, or nothing.
#[tactic(auto, using(crate::proofs::Shorter::test_takes), unfolding(crate::specs::Reading::condition))]
pub(crate) fn condition(
    alloc: Global,
    tokens: &mut Tokens<'_>,
    numbers: Numbers,
) -> Result<Cond, Refusal>
    ensures { Reads (reading.condition (number_by numbers) tokens.old) result tokens.new }
{
    if tokens.eat_word("WHERE") {
        sequence::<Test>(alloc, tokens, numbers, Separator::And)
    } else {
        Ok(Items::new(alloc))
    }
}
