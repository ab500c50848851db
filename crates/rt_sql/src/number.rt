//! The integer that digits write.
//!
//! A reading takes integers within 64 bits, or integers of any size. The second kind tells an integer out of range
//! from a syntax error (`specs/Number.antt`).

ghost use Rattle.std.specs.Prelude.{◌≡◌, ◌<◌, ◌≤◌, ◌^◌, length, SomeIff, FitsSigned};
ghost use Rattle.std.specs.Int.{w64};
ghost use Rattle.rt_sql.specs.Number as spec;

/// The most digits that write a number within 64 bits, whatever they are.
const SHORT: usize = 17;

/// Which integers a reading takes.
#[derive(Clone, Copy, Debug)]
pub enum Numbers {
    /// Those within 64 bits.
    Within64Bits,
    /// Any; one outside 64 bits is read as 0.
    AnySize,
}

#[tactic(auto, using(crate::proofs::Numbers::decimal_from_more, crate::proofs::Numbers::decimal_from_end, crate::proofs::Numbers::decimal_from_ge))]
fn magnitude(digits: &str) -> Option<u64>
    ensures { SomeIff result (spec.decimal digits.now < 2 ^ 64) (spec.decimal digits.now) }
{
    let mut number: u64 = 0;
    for digit in digits.as_bytes() {
        number = number
            .checked_mul(10)?
            .checked_add(u64::from(digit.saturating_sub(b'0')))?;
    }
    Some(number)
}

fn with_sign(is_negative: bool, magnitude: u64) -> Option<i64>
    ensures { let number = spec.with_sign is_negative magnitude in SomeIff result (FitsSigned w64 number) number }
{
    let number = i128::from(magnitude);
    i64::try_from(if is_negative { -number } else { number }).ok()
}

#[tactic(auto, using(crate::proofs::Numbers::fits_signed, crate::proofs::Numbers::fits_from_signed, crate::proofs::Numbers::fits_below))]
fn within(is_negative: bool, digits: &str) -> Option<i64>
    ensures { result ≡ spec.within is_negative digits.now }
{
    match magnitude(digits) {
        Some(magnitude) => with_sign(is_negative, magnitude),
        None => None,
    }
}

/// The number that a few digits write, which is within 64 bits.
#[tactic(auto, using(crate::proofs::Numbers::decimal_from_more, crate::proofs::Numbers::decimal_from_end))]
fn short(digits: &str) -> u64
    requires { length digits.now ≤ 17 }
    ensures value { result ≡ spec.decimal digits.now }
    ensures within { result < 2 ^ 63 }
{
    let mut number: u64 = 0;
    for digit in digits.as_bytes() {
        number = 10 * number + u64::from(digit.saturating_sub(b'0'));
    }
    number
}

/// The number that any digits write, or none if it isn't taken.
#[cold]
#[inline(never)]
#[tactic(auto, unfolding(crate::specs::Number::number_by))]
fn long(numbers: Numbers, is_negative: bool, digits: &str) -> Option<i64>
    ensures { result ≡ spec.number_by numbers is_negative digits.now }
{
    match numbers {
        Numbers::Within64Bits => within(is_negative, digits),
        Numbers::AnySize => Some(within(is_negative, digits).unwrap_or(0)),
    }
}

/// The number that the digits write in base ten, or none if it isn't taken.
#[tactic(auto, using(crate::proofs::Numbers::short_number))]
pub fn number(numbers: Numbers, is_negative: bool, digits: &str) -> Option<i64>
    ensures { result ≡ spec.number_by numbers is_negative digits.now }
{
    if digits.len() > SHORT {
        return long(numbers, is_negative, digits);
    }
    let magnitude = short(digits) as i64;
    Some(if is_negative { -magnitude } else { magnitude })
}
