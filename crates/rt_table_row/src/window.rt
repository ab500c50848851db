//! What a condition asks of the coordinates of a row's box.
//!
//! A window admits the box of each row that the condition picks, and may admit more: a test by `<>`, of the id or
//! of an auxiliary column asks nothing of it. `is_said` tells which tests need no second look
//! (`specs/Windows.antt`).

ghost use Rattle.std.specs.Prelude.{◌≡◌, ◌*◌, ◌<◌, ◌≤◌, ◌||◌, false};
ghost use Rattle.rt_sql_statement.specs.declared.value.Value.TheVariants.{Int};
ghost use Rattle.rt_table_row.specs.Values.{compares};
ghost use Rattle.rt_table_row.specs.Windows.{is_unequal, is_gap, is_said, allows, IsWindowAt, NarrowsTo, NarrowsAt};

use crate::values::compares;
use rt_box::{Operator, Window};
use rt_sql_statement::{Test, Value};

fn is_unequal(op: Operator) -> bool
    ensures { result ≡ is_unequal op }
{
    matches!(op, Operator::Ne)
}

/// Takes every number from the coordinate: none is both 0 and 1.
fn take_all<const D: usize>(window: &mut Window<D>, coordinate: usize)
    requires few { D ≤ 3 }
    requires within { coordinate < 2 * D }
    ensures { NarrowsTo window.old window.new coordinate (λ z. false) }
{
    window.narrow(coordinate, Operator::Eq, 0);
    window.narrow(coordinate, Operator::Eq, 1);
}

/// Narrows a coordinate by a comparison with a value. What isn't an integer stands to each integer as it stands to 0:
/// a text or a blob comes after it, and a comparison with NULL doesn't hold.
#[tactic(auto, using(crate::proofs::Windows::narrowed_by_number))]
fn narrow_by_value<const D: usize>(
    window: &mut Window<D>,
    coordinate: usize,
    op: Operator,
    value: &Value,
)
    requires few { D ≤ 3 }
    requires within { coordinate < 2 * D }
    ensures { NarrowsTo window.old window.new coordinate (λ z. is_unequal op || compares op (Int z) value.now) }
{
    match value {
        Value::Int(number) => window.narrow(coordinate, op, *number),
        Value::Null | Value::Text(_) | Value::Blob(_) => {
            if !is_unequal(op) && !compares(op, &Value::Int(0), value) {
                take_all(window, coordinate);
            }
        }
    }
}

/// Narrows a coordinate by a test of it.
fn narrow_by_test<const D: usize>(window: &mut Window<D>, coordinate: usize, test: &Test)
    requires few { D ≤ 3 }
    requires within { coordinate < 2 * D }
    ensures { NarrowsTo window.old window.new coordinate (allows test.now) }
{
    match test {
        Test::Compare(compare) => {
            narrow_by_value(window, coordinate, compare.op, &compare.value);
        }
        Test::IsNull(_) => take_all(window, coordinate),
        Test::IsNotNull(_) => {}
    }
}

/// Whether the test is by `<>`, which would leave a gap.
fn is_gap(test: &Test) -> bool
    ensures { result ≡ is_gap test.now }
{
    match test {
        Test::Compare(compare) => is_unequal(compare.op),
        Test::IsNull(_) | Test::IsNotNull(_) => false,
    }
}

/// Whether a window of `coordinates` coordinates says all that a test of the column at that place asks.
pub(crate) fn is_said(coordinates: usize, test: &Test, place: usize) -> bool
    ensures { result ≡ is_said coordinates (test.now, place) }
{
    place >= 1 && place <= coordinates && !is_gap(test)
}

/// Narrows a window by a test of the column at that place, if a coordinate stands there: the id stands at 0, and the
/// auxiliary values follow the coordinates.
fn narrow_at<const D: usize>(window: &mut Window<D>, place: usize, test: &Test)
    requires { D ≤ 3 }
    ensures { NarrowsAt D window.old window.new (test.now, place) }
{
    if place >= 1 && place <= 2 * D {
        narrow_by_test(window, place - 1, test);
    }
}

/// The window of tests of the columns at these places.
pub(crate) fn window_of<const D: usize>(tests: &[Test], places: &[usize]) -> Window<D>
    requires { D ≤ 3 }
    ensures { IsWindowAt D (record { cond = tests.now; places = places.now }) result }
{
    let mut window = Window::all();
    for (test, place) in tests.iter().zip(places) {
        narrow_at(&mut window, *place, test);
    }
    window
}
