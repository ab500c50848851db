//! How values stand to one another.
//!
//! This is the comparison of conditions: with NULL on either side none holds, not even `<>`. `==` on values is
//! another one, by which NULL equals NULL (`specs/Values.antt`).

ghost use Rattle.std.specs.Prelude.{◌≡◌};
ghost use Rattle.rt_table_row.specs.Values.{is_null, rank, value_cmp, keeps, compares};

use rt_sql_statement::{Operator, Value};
use std::cmp::Ordering;

/// Whether the value is NULL.
pub(crate) fn is_null(value: &Value) -> bool
    ensures { result ≡ is_null value.now }
{
    matches!(value, Value::Null)
}

fn rank(value: &Value) -> u8
    ensures { result ≡ rank value.now }
{
    match value {
        Value::Null => 0,
        Value::Int(_) => 1,
        Value::Text(_) => 2,
        Value::Blob(_) => 3,
    }
}

/// Where the left value stands to the right one: integers by size, texts and blobs by their bytes,
/// and values of two types by their types, integers before texts before blobs.
fn order(left: &Value, right: &Value) -> Ordering
    ensures { result ≡ value_cmp left.now right.now }
{
    match (left, right) {
        (Value::Int(left), Value::Int(right)) => left.cmp(right),
        (Value::Text(left), Value::Text(right)) => {
            left.as_str().as_bytes().cmp(right.as_str().as_bytes())
        }
        (Value::Blob(left), Value::Blob(right)) => left.as_slice().cmp(right.as_slice()),
        (Value::Null | Value::Int(_) | Value::Text(_) | Value::Blob(_), _) => {
            rank(left).cmp(&rank(right))
        }
    }
}

/// Whether the comparison holds of a left value that stands so to the right one.
pub(crate) fn keeps(op: Operator, order: Ordering) -> bool
    ensures { result ≡ keeps op order }
{
    match op {
        Operator::Eq => order.is_eq(),
        Operator::Ne => order.is_ne(),
        Operator::Lt => order.is_lt(),
        Operator::Le => order.is_le(),
        Operator::Gt => order.is_gt(),
        Operator::Ge => order.is_ge(),
    }
}

/// Whether the comparison holds of two values, the left one first. Nothing is converted, and with
/// NULL on either side it doesn't hold.
pub fn compares(op: Operator, left: &Value, right: &Value) -> bool
    ensures { result ≡ compares op left.now right.now }
{
    !is_null(left) && !is_null(right) && keeps(op, order(left, right))
}
