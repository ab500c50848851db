//! The words that are names only in quotes.
//!
//! A word is compared with the reserved words of its own length alone (`specs/Token.antt`).

ghost use Rattle.std.specs.Prelude.{◌≡◌};
ghost use Rattle.std.specs.List.{list_any};
ghost use Rattle.rt_sql.specs.Token as spec;

/// The word is one of these, in whatever ASCII case.
pub fn is_among(word: &str, words: &[&str]) -> bool
    ensures { result ≡ list_any (λ other. spec.same_word word.now other.now) words.now }
{
    words.iter().any(|other| word.eq_ignore_ascii_case(other))
}

/// The word is no name unless it is quoted. Only words as long as it is are compared with it.
#[tactic(auto, using(crate::proofs::ReservedWords::two, crate::proofs::ReservedWords::three, crate::proofs::ReservedWords::four, crate::proofs::ReservedWords::five, crate::proofs::ReservedWords::six, crate::proofs::ReservedWords::seven, crate::proofs::ReservedWords::none))]
pub fn is_reserved(word: &str) -> bool
    ensures { result ≡ spec.is_reserved word.now }
{
    match word.len() {
        2 => is_among(word, &["IS", "OR"]),
        3 => is_among(word, &["AND", "NOT", "SET"]),
        4 => is_among(word, &["DROP", "FROM", "INTO", "NULL"]),
        5 => is_among(word, &["ORDER", "TABLE", "USING", "WHERE"]),
        6 => is_among(
            word,
            &[
                "CREATE", "DELETE", "EXISTS", "INSERT", "SELECT", "UPDATE", "VALUES",
            ],
        ),
        7 => is_among(word, &["BETWEEN"]),
        _ => false,
    }
}
