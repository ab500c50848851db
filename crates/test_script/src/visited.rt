//! What a SELECT finds, and how many nodes of the table's tree its window reaches.
//!
//! The rows are those of `worked` in `test_tree`, whose dumps show the nodes.

use crate::from_text::{schema, statement};
use rt_box::Capacity;
use rt_reply::Rows;
use rt_sql::Stmt;
use rt_table::{AnyTable, Nodes};
use rt_tree::Found;
use std::hash::RandomState;
use std::test::Fail;

/// The ids of the rows that a SELECT finds, and how many nodes its window reaches.
type Reached = (&'static [i64], u64);

/// INSERTs, and SELECTs of what is there then.
const STATEMENTS: [(&str, Option<Reached>); 16] = [
    // The first rows: two leaves.
    ("INSERT INTO t VALUES(1,0,0);", None),
    ("INSERT INTO t VALUES(2,1,1);", None),
    ("INSERT INTO t VALUES(3,2,2);", None),
    ("INSERT INTO t VALUES(4,10,10);", None),
    ("INSERT INTO t VALUES(5,11,11);", None),
    ("INSERT INTO t VALUES(6,12,12);", None),
    ("SELECT * FROM t WHERE minX IS NULL;", Some((&[], 1))),
    (
        "SELECT * FROM t WHERE minX IS NOT NULL;",
        Some((&[1, 2, 3, 4, 5, 6], 3)),
    ),
    ("SELECT * FROM t WHERE minX <> NULL;", Some((&[], 3))),
    // More rows: three leaves.
    ("INSERT INTO t VALUES(7,3,3);", None),
    ("INSERT INTO t VALUES(8,4,4);", None),
    ("INSERT INTO t VALUES(9,5,5);", None),
    ("SELECT * FROM t WHERE minX >= 10;", Some((&[4, 5, 6], 2))),
    ("SELECT * FROM t WHERE id = 4;", Some((&[4], 4))),
    (
        "SELECT * FROM t WHERE minX <> 0;",
        Some((&[2, 3, 4, 5, 6, 7, 8, 9], 4)),
    ),
    (
        "SELECT * FROM t WHERE minX > 5 AND minX < 5;",
        Some((&[], 1)),
    ),
];

/// Whether just the rows of these ids were found, in that number of nodes.
fn is_found(found: &Found<Rows>, reached: Option<Reached>) -> bool {
    let (Rows::One(rows), Some((ids, visited))) = (&found.rows, reached) else {
        return false;
    };
    let mut pairs = rows.as_slice().iter().zip(ids.iter());
    rows.len() == ids.len() && found.visited == visited && pairs.all(|(row, id)| row.id == *id)
}

/// Whether an INSERT is taken, or a SELECT finds and reaches this.
fn is_answered(table: &mut AnyTable, statement: Stmt, reached: Option<Reached>) -> bool {
    match statement {
        Stmt::Edit { edit, .. } => reached.is_none() && table.edit(edit).is_ok(),
        Stmt::Select { cond, .. } => table
            .select(cond, Nodes::Counted)
            .is_ok_and(|found| is_found(&found, reached)),
        _ => false,
    }
}

#[test]
fn a_window_reaches_the_nodes_that_may_hold_its_rows(rt: HostRuntime) -> Result<(), Fail> {
    let create = "CREATE VIRTUAL TABLE t USING rtree_i32(id,minX,maxX);";
    let schema = schema(rt.alloc(), create)?;
    let capacity = Capacity::new(5).ok_or("no capacity")?;
    let mut table = AnyTable::new(rt.alloc(), RandomState::new(&rt)?, capacity, schema)?;
    for (text, reached) in STATEMENTS {
        let statement = statement(rt.alloc(), text)?;
        assert!(rt; is_answered(&mut table, statement, reached), "{text}");
    }
    Ok(())
}
