//! Numbers as words of a dump.
//!
//! A number has one spelling, without leading zeros and without `-0`, so a dump that was read is written back byte
//! for byte. Its size is looked at after its spelling (`specs/Numbers.antt`).

ghost use Rattle.std.specs.Prelude.{◌≡◌, ◌≤◌, ◌^◌, ◌<◌, pos, neg_ℤ, Some, IfSome, IfNone};
ghost use Rattle.std.specs.List.{list_all};
ghost use Rattle.rt_check_dump.specs.Numbers.{is_digit, is_natural, is_positive, is_number, number_after, number_of, positive_of, count_of, byte_of, coordinate_of, parent_of};

fn all_digits(word: &[u8]) -> bool
    ensures { result ≡ list_all is_digit word.now }
{
    for byte in word {
        if *byte < b'0' || *byte > b'9' {
            return false;
        }
    }
    true
}

fn is_natural(word: &[u8]) -> bool
    ensures { result ≡ is_natural word.now }
{
    match word {
        [] => false,
        [b'0', others @ ..] => others.is_empty(),
        [_, ..] => all_digits(word),
    }
}

fn is_positive(word: &[u8]) -> bool
    ensures { result ≡ is_positive word.now }
{
    match word {
        [] => false,
        [b'0', ..] => false,
        [_, ..] => all_digits(word),
    }
}

/// Whether the word is a number, of any size.
pub(crate) fn is_number(word: &[u8]) -> bool
    ensures { result ≡ is_number word.now }
{
    match word {
        [] => false,
        [b'-', digits @ ..] => is_positive(digits),
        [_, ..] => is_natural(word),
    }
}

/// The number that the digits write, if it is at most 2^63.
fn magnitude(digits: &[u8]) -> Option<u64>
    ensures found { IfSome result (λ n. (n ≡ number_after 0 digits.now) × (n ≤ 2 ^ 63)) }
    ensures beyond { IfNone result (2 ^ 63 < number_after 0 digits.now) }
{
    let mut number = 0u64;
    for digit in digits {
        if number > 922_337_203_685_477_580 {
            return None;
        }
        number = number * 10 + u64::from(digit.saturating_sub(b'0'));
    }
    if number > 1 << 63 {
        return None;
    }
    Some(number)
}

/// The number of a word that is one, if it has 64 bits.
pub(crate) fn number_of(word: &[u8]) -> Option<i64>
    ensures { result ≡ number_of word.now }
{
    match word {
        [] => Some(0),
        [b'-', digits @ ..] => negative(magnitude(digits)?),
        [_, ..] => i64::try_from(magnitude(word)?).ok(),
    }
}

/// The number below 0 of that magnitude.
fn negative(magnitude: u64) -> Option<i64>
    requires { magnitude ≤ 2 ^ 63 }
    ensures { result ≡ Some (neg_ℤ (pos magnitude)) }
{
    if magnitude == 0 {
        return Some(0);
    }
    Some(-1 - (magnitude - 1) as i64)
}

/// A number from 1 on.
pub(crate) fn positive_of(word: &[u8]) -> Option<i64>
    ensures { result ≡ positive_of word.now }
{
    let number = number_of(word)?;
    if number >= 1 { Some(number) } else { None }
}

/// A number from 0 on.
pub(crate) fn count_of(word: &[u8]) -> Option<u64>
    ensures { result ≡ count_of word.now }
{
    u64::try_from(number_of(word)?).ok()
}

/// A number from 0 to 255.
pub(crate) fn byte_of(word: &[u8]) -> Option<u8>
    ensures { result ≡ byte_of word.now }
{
    u8::try_from(count_of(word)?).ok()
}

/// A number of 32 bits, signed.
pub(crate) fn coordinate_of(word: &[u8]) -> Option<i32>
    ensures { result ≡ coordinate_of word.now }
{
    i32::try_from(number_of(word)?).ok()
}

/// A parent's number, or `-` for none.
pub(crate) fn parent_of(word: &[u8]) -> Option<Option<i64>>
    ensures { result ≡ parent_of word.now }
{
    if word == b"-".as_slice() {
        return Some(None);
    }
    match positive_of(word) {
        Some(number) => Some(Some(number)),
        None => None,
    }
}
