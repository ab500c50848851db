//! What is taken and what is refused, and with which number.

use crate::from_text::debug_text;
use rt_sql_cut::Ending;
use std::alloc::Global;

/// Texts, each beside its number.
const TEXTS: [(u8, &str); 45] = [
    // Each line of the grammar is taken.
    (
        0,
        "create Virtual TABLE t USING RTree_i32\n(id,minX, maxX);",
    ),
    (
        0,
        "CREATE VIRTUAL TABLE IF NOT EXISTS t USING rtree_i32(id INTEGER PRIMARY KEY, a, b VARCHAR ( 20 , 2 ) NOT NULL, +n, + \"m\" );",
    ),
    (0, "CREATE VIRTUAL TABLE IF USING rtree_i32(id);"),
    (0, "DROP TABLE t;"),
    (0, "drop/* c */table -- d\n if EXISTS \"t\" ;"),
    (0, "DROP TABLE IF;"),
    (0, "INSERT INTO t VALUES(NULL,+5,- 7),(1,'it''s',X'00fF');"),
    (0, "REPLACE INTO t(a,\"b\") VALUES(1,2);"),
    (0, "INSERT OR ABORT INTO t VALUES(1);"),
    (0, "INSERT OR IGNORE INTO t VALUES(1);"),
    (0, "INSERT OR REPLACE INTO t VALUES(1);"),
    (
        0,
        "UPDATE t SET a=1, b=b+2, c=c-3, d=e WHERE a==1 AND b<>2 AND c IS NULL AND d is not null;",
    ),
    (
        0,
        "DELETE FROM t WHERE a<1 AND a<=1 AND a>'x' AND a>=1 AND a!=NULL AND a=X'';",
    ),
    (0, "SELECT * FROM t;"),
    (0, "SELECT a , b FROM t WHERE a=1 ORDER BY a ASC;"),
    (0, "SELECT rtreecheck('t');"),
    (0, "SELECT rtreecheck FROM t;"),
    (0, ".watch v FROM t WHERE a=1"),
    (0, ".WATCH v FROM t;"),
    (0, ".unwatch v"),
    (0, ".view v;"),
    (0, ".nodes t"),
    // Most other texts are refused.
    (1, "SELECT * FROM table;"),
    (0, "SELECT * FROM \"table\";"),
    (1, "BEGIN;"),
    (1, "SELECT * FROM t"),
    (1, "SELECT * FROM t; ;"),
    (1, "SELECT * FROM 12t;"),
    (1, "SELECT \"\" FROM t;"),
    (1, "INSERT INTO t VALUES(X'0');"),
    (1, "UPDATE t SET a==1;"),
    (1, "DROP TABLE IF EXISTS;"),
    (1, "CREATE VIRTUAL TABLE t USING \"rtree_i32\"(id);"),
    (1, "SELECT \"rtreecheck\"('t');"),
    (1, "SELECT * FROM t WHERE a < > 1;"),
    (11, "INSERT INTO t VALUES(9223372036854775808);"),
    (0, "INSERT INTO t VALUES(-9223372036854775808);"),
    (11, "UPDATE t SET a=a-9223372036854775808;"),
    (
        11,
        "CREATE VIRTUAL TABLE t USING rtree_i32(id, a C(99999999999999999999), b);",
    ),
    (1, "INSERT INTO t VALUES(99999999999999999999;"),
    (21, ".frob"),
    (21, "."),
    (21, ".watchv FROM"),
    (1, ".view"),
    (4, "SELECT \0"),
];

/// The number of a piece's refusal, which is 0 if it is a statement.
fn code_of(alloc: Global, text: &[u8], ending: Ending) -> u8 {
    match debug_text(alloc, text, ending) {
        Ok(_) => 0,
        Err(refusal) => refusal.code(),
    }
}

#[test]
fn each_text_has_its_number(rt: HostRuntime) {
    for (code, text) in &TEXTS {
        assert!(rt;
            code_of(rt.alloc(), text.as_bytes(), Ending::Whole) == *code,
            "{text}"
        );
    }
}

#[test]
fn a_piece_is_refused_in_order(rt: HostRuntime) {
    for (ending, code) in [
        (Ending::TooLong, 3),
        (Ending::Incomplete, 2),
        (Ending::Whole, 4),
    ] {
        assert!(rt; code_of(rt.alloc(), b"\xFF;", ending) == code);
    }
}
