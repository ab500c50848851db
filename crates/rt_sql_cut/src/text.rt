//! Characters of a script's text, as its cutting and its tokens both see them.
//!
//! White space is ASCII, so a script can be cut before its text is known to be UTF-8 (`specs/Text.antt`).

ghost use Rattle.std.specs.Prelude.{◌≡◌};
ghost use Rattle.rt_sql_cut.specs.Text as spec;

/// White space: a tab, a line feed, a form feed, a carriage return or a space. A vertical tab is
/// none.
pub fn is_white(byte: u8) -> bool
    ensures { result ≡ spec.is_white byte }
{
    matches!(byte, b'\t' | b'\n' | b'\x0c' | b'\r' | b' ')
}
