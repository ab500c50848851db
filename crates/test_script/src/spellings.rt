//! Each form of the grammar in several spellings, with the statement that it is.
//!
//! Statements are compared by what `Debug` prints of them. The lists have them in a shorter spelling.

use crate::from_text::debug_text;
use rt_sql::Refusal;
use rt_sql_cut::Ending;
use std::alloc::{AllocError, Global};
use std::process::Abort;

/// A form's tokens, with spaces between them and `␣` for the space of a name, and its statement in the shorter spelling.
type Form = (&'static str, &'static str);

/// What the shorter spelling stands for: `<t>` for the name t, `[..]` for `Items`, and `⟨..⟩` for a blob's bytes.
const IN_FULL: [(char, &str); 6] = [
    ('<', "Name { text: \""),
    ('>', "\" }"),
    ('[', "Items { items: ["),
    (']', "] }"),
    ('⟨', "["),
    ('⟩', "]"),
];

/// Statements.
const STATEMENTS: [Form; 19] = [
    (
        "create virtual table t using rtree_i32 ( id , minX ) ;",
        "Create { table: <t>, if_absent: false, columns: [ColumnDef { name: <id>, auxiliary: false }, ColumnDef { name: <minX>, auxiliary: false }] }",
    ),
    (
        "create virtual table if not exists \"a␣b\" using rtree_i32 ( id integer primary key , a varchar ( 20 , 2 ) not null , b ( 3 ) , + n , + \"m\"\"\" text ) ;",
        "Create { table: <a b>, if_absent: true, columns: [ColumnDef { name: <id>, auxiliary: false }, ColumnDef { name: <a>, auxiliary: false }, ColumnDef { name: <b>, auxiliary: false }, ColumnDef { name: <n>, auxiliary: true }, ColumnDef { name: <m\\\">, auxiliary: true }] }",
    ),
    ("drop table t ;", "Drop { table: <t>, if_there: false }"),
    (
        "drop table if exists _1$ ;",
        "Drop { table: <_1$>, if_there: true }",
    ),
    ("select rtreecheck ( 't' ) ;", "Check { table: <t> }"),
    (
        "insert into t values ( null , + 5 , - 7 ) ;",
        "Edit { table: <t>, edit: Insert { rule: Abort, columns: None, rows: [[Null, Int(5), Int(-7)]] } }",
    ),
    (
        "insert into t ( a , b ) values ( 1 ) , ( 'it''s' , x'00fF' ) ;",
        "Edit { table: <t>, edit: Insert { rule: Abort, columns: Some([<a>, <b>]), rows: [[Int(1)], [Text(Text { text: \"it's\" }), Blob(Blob { bytes: ⟨0, 255⟩ })]] } }",
    ),
    (
        "replace into t values ( 1 ) ;",
        "Edit { table: <t>, edit: Insert { rule: Replace, columns: None, rows: [[Int(1)]] } }",
    ),
    (
        "insert or abort into t values ( 1 ) ;",
        "Edit { table: <t>, edit: Insert { rule: Abort, columns: None, rows: [[Int(1)]] } }",
    ),
    (
        "insert or ignore into t values ( 1 ) ;",
        "Edit { table: <t>, edit: Insert { rule: Ignore, columns: None, rows: [[Int(1)]] } }",
    ),
    (
        "insert or replace into t values ( 1 ) ;",
        "Edit { table: <t>, edit: Insert { rule: Replace, columns: None, rows: [[Int(1)]] } }",
    ),
    (
        "update t set a = - 1 , b = b + 2 , c = c - 3 , d = e where a is null and b is not null ;",
        "Edit { table: <t>, edit: Update { sets: [(<a>, Literal(Int(-1))), (<b>, Plus(<b>, 2)), (<c>, Minus(<c>, 3)), (<d>, Column(<e>))], cond: [IsNull(<a>), IsNotNull(<b>)] } }",
    ),
    (
        "delete from t ;",
        "Edit { table: <t>, edit: Delete { cond: [] } }",
    ),
    (
        "delete from t where a < 1 and a <= 2 and a > 'x' and a >= x'' ;",
        "Edit { table: <t>, edit: Delete { cond: [Compare(Compare { column: <a>, op: Lt, value: Int(1) }), Compare(Compare { column: <a>, op: Le, value: Int(2) }), Compare(Compare { column: <a>, op: Gt, value: Text(Text { text: \"x\" }) }), Compare(Compare { column: <a>, op: Ge, value: Blob(Blob { bytes: ⟨⟩ }) })] } }",
    ),
    (
        "REPLACE INTO T(\"a\"\"b\",c) VALUES(-5,'it''s'),(NULL,x'00fF');",
        "Edit { table: <T>, edit: Insert { rule: Replace, columns: Some([<a\\\"b>, <c>]), rows: [[Int(-5), Text(Text { text: \"it's\" })], [Null, Blob(Blob { bytes: ⟨0, 255⟩ })]] } }",
    ),
    (
        "select * from t ;",
        "Select { columns: None, table: <t>, cond: [], order: None }",
    ),
    (
        "select a , b from t where a = 1 and a == 2 and a <> 3 and a != null order by b asc ;",
        "Select { columns: Some([<a>, <b>]), table: <t>, cond: [Compare(Compare { column: <a>, op: Eq, value: Int(1) }), Compare(Compare { column: <a>, op: Eq, value: Int(2) }), Compare(Compare { column: <a>, op: Ne, value: Int(3) }), Compare(Compare { column: <a>, op: Ne, value: Null })], order: Some(<b>) }",
    ),
    (
        "select rtreecheck from t order by asc ;",
        "Select { columns: Some([<rtreecheck>]), table: <t>, cond: [], order: Some(<asc>) }",
    ),
    (
        "select * from t order by id ;",
        "Select { columns: None, table: <t>, cond: [], order: Some(<id>) }",
    ),
];

/// Dot lines.
const DOT_LINES: [Form; 7] = [
    (
        ".watch v from t",
        "Watch { view: <v>, table: <t>, cond: [] }",
    ),
    (
        ".watch v from t where a = 1 ;",
        "Watch { view: <v>, table: <t>, cond: [Compare(Compare { column: <a>, op: Eq, value: Int(1) })] }",
    ),
    (".unwatch v", "Unwatch { view: <v> }"),
    (".unwatch v ;", "Unwatch { view: <v> }"),
    (".view \"select\"", "View { view: <select> }"),
    (".nodes t", "Nodes { table: <t> }"),
    (".nodes t ;", "Nodes { table: <t> }"),
];

/// The reserved words, in two cases.
const RESERVED: [&str; 42] = [
    "and", "between", "create", "delete", "drop", "exists", "from", "insert", "into", "is", "not",
    "null", "or", "order", "select", "set", "table", "update", "using", "values", "where", "aNd",
    "bEtWeEn", "cReAtE", "dElEtE", "dRoP", "eXiStS", "fRoM", "iNsErT", "iNtO", "iS", "nOt", "nUlL",
    "oR", "oRdEr", "sElEcT", "sEt", "tAbLe", "uPdAtE", "uSiNg", "vAlUeS", "wHeRe",
];

/// The text with each other character in upper case.
fn mix_case(alloc: Global, text: &str) -> Result<String, AllocError> {
    let mut mixed = String::new(alloc);
    let mut is_upper = false;
    for c in text.chars() {
        mixed.push(if is_upper { c.to_ascii_uppercase() } else { c })?;
        is_upper = !is_upper;
    }
    Ok(mixed)
}

/// The text with what stands for some of its characters.
fn replace(alloc: Global, text: &str, pairs: &[(char, &str)]) -> Result<String, AllocError> {
    let mut replaced = String::new(alloc);
    for c in text.chars() {
        match pairs.iter().find(|(short, _)| *short == c) {
            Some((_, long)) => replaced.push_str(long)?,
            None => replaced.push(c)?,
        }
    }
    Ok(replaced)
}

/// Each form, with this between its tokens, is its statement, also in mixed case.
fn expect(rt: &(impl Abort + AllocGlobal), forms: &[Form], between: &str) -> Result<(), Refusal> {
    let alloc = rt.alloc();
    for (tokens, statement) in forms {
        let full = replace(alloc, statement, &IN_FULL)?;
        let text = replace(alloc, tokens, &[(' ', between), ('␣', " ")])?;
        let mixed = mix_case(alloc, text.as_str())?;
        let shown = debug_text(alloc, text.as_bytes(), Ending::Whole)?;
        let of_mixed = debug_text(alloc, mixed.as_bytes(), Ending::Whole)?;
        let are_alike = of_mixed.as_str().eq_ignore_ascii_case(full.as_str());
        assert!(rt;
            (shown.as_str(), are_alike) == (full.as_str(), true),
            "{text}"
        );
    }
    Ok(())
}

#[test]
fn each_form_is_its_statement(rt: HostRuntime) -> Result<(), Refusal> {
    expect(&rt, &STATEMENTS, " ")?;
    expect(&rt, &STATEMENTS, " /* ; ' */\t-- x;\"\n\r\x0C /**/")?;
    expect(&rt, &DOT_LINES, " ")?;
    expect(&rt, &DOT_LINES, "/* ; ' */\t /**/")
}

/// Whether a word is no name of a table.
fn is_reserved(alloc: Global, word: &str) -> Result<bool, Refusal> {
    let text = format!(in alloc; "drop table {word};")?;
    Ok(debug_text(alloc, text.as_bytes(), Ending::Whole) == Err(Refusal::SyntaxError))
}

/// Whether a word in double quotes is a name of a table.
fn is_a_name_in_quotes(alloc: Global, word: &str) -> Result<bool, Refusal> {
    let text = format!(in alloc; "drop table \"{word}\";")?;
    let full = format!(in alloc; "Drop {{ table: Name {{ text: \"{word}\" }}, if_there: false }}")?;
    Ok(debug_text(alloc, text.as_bytes(), Ending::Whole) == Ok(full))
}

#[test]
fn a_reserved_word_is_a_name_only_in_quotes(rt: HostRuntime) -> Result<(), Refusal> {
    for word in &RESERVED {
        let is_reserved = is_reserved(rt.alloc(), word)?;
        let is_a_name = is_a_name_in_quotes(rt.alloc(), word)?;
        assert!(rt; (is_reserved, is_a_name) == (true, true), "{word}");
    }
    Ok(())
}
