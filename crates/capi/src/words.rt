//! The words of codes.

ghost use Rattle.rt_calls.specs.Words.{GivesWords};

use rt_calls::{Code, copy_to};

/// The words of a code.
#[unsafe(no_mangle)]
pub extern "C" fn juicedelta_words(code: i32, text: &mut [u8], total: &mut u64) -> i32
    ensures { GivesWords code text.old text.new total.new result }
{
    let words = match Code::from_number(code) {
        Some(code) => code.text(),
        None => "unknown code",
    };
    *total = words.len() as u64;
    copy_to(words.as_bytes(), text).number()
}
