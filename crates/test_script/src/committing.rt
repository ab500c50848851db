//! Plans carried out by tables that were made ready for them. A `<` is printed to the error output before, and a `>` after:
//! `scripts/faults` looks whether memory is asked for in between.

use crate::from_text::{schema, statement};
use rt_box::Capacity;
use rt_sql::Stmt;
use rt_table::Table;
use std::alloc::Global;
use std::hash::RandomState;
use std::test::Fail;

/// A table of one axis without rows, of the least capacity, with a view of the rows that end at 11 or before.
fn watched_table(alloc: Global, keys: RandomState) -> Result<Table<1>, Fail> {
    let create = "CREATE VIRTUAL TABLE t USING rtree_i32(id,minX,maxX,+n TEXT);";
    let schema = schema(alloc, create)?;
    if schema.axes() != 1 {
        return Err(Fail::from("another number of axes"));
    }
    let capacity = Capacity::new(5).ok_or("no capacity")?;
    let mut table = Table::new(alloc, keys, capacity, schema)?;
    let Stmt::Watch { view, cond, .. } = statement(alloc, ".watch v FROM t WHERE maxX<=11")? else {
        return Err(Fail::from("no command"));
    };
    table.watch(view, cond).map_err(|_| "refused")?;
    Ok(table)
}

/// Roots that are halved, reinsertions, thin leaves; rows that come, move, stay, change and go. With each edit stands how
/// many changes the view shows.
const EDITS: [(&str, usize); 12] = [
    (
        "INSERT INTO t VALUES(1,0,0,'a'),(2,1,1,NULL),(3,2,2,'c'),(4,10,10,'d');",
        4,
    ),
    ("INSERT INTO t VALUES(NULL,11,11,'e');", 1),
    ("INSERT INTO t(id,minX,maxX) VALUES(6,12,12);", 0),
    (
        "INSERT INTO t VALUES(7,3,3,'g'),(8,4,4,'h'),(9,5,5,'i');",
        3,
    ),
    ("INSERT OR REPLACE INTO t VALUES(1,0,0,X'00');", 2),
    (
        "INSERT OR IGNORE INTO t VALUES(1,5,5,'b'),(9,5,4,'c'),(10,20,20,'j');",
        0,
    ),
    ("UPDATE t SET n='z' WHERE minX>=10;", 4),
    ("UPDATE t SET minX=minX+1,maxX=maxX+1 WHERE id>=8;", 4),
    ("DELETE FROM t WHERE id=1;", 1),
    ("DELETE FROM t WHERE id>=4 AND id<=5;", 2),
    ("UPDATE t SET id=id+100;", 10),
    ("DELETE FROM t;", 5),
];

/// Carries an edit out, with the marks, and answers how many changes the view shows.
fn carry_out(
    rt: &(impl Eprint + AllocGlobal),
    table: &mut Table<1>,
    text: &str,
) -> Result<usize, Fail> {
    let Stmt::Edit { edit, .. } = statement(rt.alloc(), text)? else {
        return Err(Fail::from("no edit"));
    };
    let steps = table.plan(edit).map_err(|_| "refused")?.into_steps();
    table.prepare(steps.as_slice())?;
    let _ = eprint!(rt; "<");
    let changes = table.commit(steps);
    let _ = eprint!(rt; ">");
    Ok(changes.len())
}

#[test]
fn plans_are_carried_out(rt: HostRuntime) -> Result<(), Fail> {
    let mut table = watched_table(rt.alloc(), RandomState::new(&rt)?)?;
    for (text, changes) in EDITS {
        assert!(rt; carry_out(&rt, &mut table, text)? == changes, "{text}");
    }
    assert!(rt; table.len() == 0);
    Ok(())
}
