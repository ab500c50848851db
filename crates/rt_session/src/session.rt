//! The tables of a session, and what it answers to a statement.
//!
//! A session finds the table by its name, and tests the limits of tables and views. What a statement does to rows
//! and views is the table's part. `specs/Session.antt` defines the answer to each statement over plain lists.

ghost use Rattle.std.specs.Prelude.{◌≡◌};
ghost use Rattle.rt_sql_request.specs.declared.request.Stmt.TheVariants.{Create, Drop, Edit as Edits, Select, Watch, Unwatch, View, Check, Nodes};
ghost use Rattle.rt_session.specs.Session.{empty, CarriesOut};

use crate::select::select;
use crate::tables::{Named, have_views, place_of, place_of_view};
use rt_box::Capacity;
use rt_reply::{Reply, Shown, TreeDump};
use rt_sql_request::Stmt;
use rt_sql_statement::{ColumnDef, Cond, Edit, Items, Name, Refusal};
use rt_table::AnyTable;
use rt_table_row::Schema;
use std::alloc::Global;
use std::hash::RandomState;
use std::marker::Model;

/// How many tables there are at most. SQLite has no such limit.
const MOST_TABLES: usize = 64;

/// How many views all tables have at most. SQLite has no such limit.
const MOST_VIEWS: usize = 64;

/// The tables of a session, each under its name.
pub struct Session {
    alloc: Global,
    // The capacity of the nodes of each table's tree.
    capacity: Capacity,
    // The keys of the hashes of ids.
    keys: RandomState,
    // In the order in which they were made.
    tables: Vec<Named>,
}

// By hand, since a derived drop is written out, field by field, wherever such a value ends.
impl Drop for Session {
    fn drop(self) {
        let Session {
            alloc: _,
            capacity: _,
            keys: _,
            tables: _,
        } = self;
    }
}

impl Model for Session {
    ghost use Rattle.rt_session.specs.Session.{State};

    ghost Value = { State };

    ghost use Rattle.rt_session.specs.SessionInside.{state_of, IsNamed};

    ghost view = { state_of };

    ghost invariant = { IsNamed };
}

impl Session {
    /// A session with no table. It allocates nothing. The capacity is that of each table's nodes; the keys are those of
    /// the hashes of ids.
    pub fn new(alloc: Global, keys: RandomState, capacity: Capacity) -> Session
        ensures { result ≡ empty capacity }
    {
        Session {
            alloc,
            capacity,
            keys,
            tables: Vec::new(alloc),
        }
    }

    /// Carries out a statement as SQLite's R*Tree module does, unless the definitions name a rule of their own.
    ///
    /// # Errors
    ///
    /// The refusal that the definitions name, or `OutOfMemory` if no memory is left. Either leaves the tables as they
    /// were.
    pub fn step(&mut self, statement: Stmt) -> Result<Reply, Refusal>
        ensures { CarriesOut self.old statement result self.new }
    {
        match statement {
            Stmt::Create {
                table,
                if_absent,
                columns,
            } => self.create(table, if_absent, &columns),
            Stmt::Drop { table, if_there } => self.drop_table(&table, if_there),
            Stmt::Edit { table, edit } => self.edit(&table, edit),
            Stmt::Select {
                columns,
                table,
                cond,
                order,
            } => self.select(&columns, &table, cond, &order),
            Stmt::Watch { view, table, cond } => self.watch(view, &table, cond),
            Stmt::Unwatch { view } => self.unwatch(&view),
            Stmt::View { view } => self.view(&view),
            Stmt::Check { table } => self.check(&table),
            Stmt::Nodes { table } => self.nodes(&table),
        }
    }

    // Rare statements have functions of their own here and below, so that no other statement clears their locals.
    #[inline(never)]
    fn create(
        &mut self,
        name: Name,
        if_absent: bool,
        columns: &Items<ColumnDef>,
    ) -> Result<Reply, Refusal>
        ensures { CarriesOut self.old (Create name if_absent columns.now) result self.new }
    {
        if place_of(self.tables.as_slice(), &name).is_some() {
            if if_absent {
                return Ok(Reply::Nothing);
            }
            return Err(Refusal::TableAlreadyExists);
        }
        if self.tables.len() >= MOST_TABLES {
            return Err(Refusal::TooManyTablesOrViews);
        }
        let columns = Schema::new(self.alloc, columns.as_slice())?;
        let table = AnyTable::new(self.alloc, self.keys, self.capacity, columns)?;
        self.tables.push(Named { name, table })?;
        Ok(Reply::Nothing)
    }

    #[inline(never)]
    fn drop_table(&mut self, name: &Name, if_there: bool) -> Result<Reply, Refusal>
        ensures { CarriesOut self.old (Drop name.now if_there) result self.new }
    {
        let Some(at) = place_of(self.tables.as_slice(), name) else {
            if if_there {
                return Ok(Reply::Nothing);
            }
            return Err(Refusal::NoSuchTable);
        };
        if self.tables[at].table.watched() {
            return Err(Refusal::TableIsWatched);
        }
        drop(self.tables.remove(at));
        Ok(Reply::Nothing)
    }

    fn edit(&mut self, name: &Name, edit: Edit) -> Result<Reply, Refusal>
        ensures { CarriesOut self.old (Edits name.now edit) result self.new }
    {
        let Some(at) = place_of(self.tables.as_slice(), name) else {
            return Err(Refusal::NoSuchTable);
        };
        let changes = self.tables[at].table.edit(edit)?;
        Ok(Reply::Changes(changes))
    }

    #[inline(never)]
    fn watch(&mut self, view: Name, name: &Name, cond: Cond) -> Result<Reply, Refusal>
        ensures { CarriesOut self.old (Watch view name.now cond) result self.new }
    {
        let Some(at) = place_of(self.tables.as_slice(), name) else {
            return Err(Refusal::NoSuchTable);
        };
        if place_of_view(self.tables.as_slice(), &view).is_some() {
            return Err(Refusal::ViewAlreadyExists);
        }
        if have_views(self.tables.as_slice(), MOST_VIEWS) {
            return Err(Refusal::TooManyTablesOrViews);
        }
        self.tables[at].table.watch(view, cond)?;
        Ok(Reply::Nothing)
    }

    #[inline(never)]
    fn unwatch(&mut self, view: &Name) -> Result<Reply, Refusal>
        ensures { CarriesOut self.old (Unwatch view.now) result self.new }
    {
        let Some(at) = place_of_view(self.tables.as_slice(), view) else {
            return Err(Refusal::NoSuchView);
        };
        self.tables[at].table.unwatch(view)?;
        Ok(Reply::Nothing)
    }

    #[inline(never)]
    fn view(&self, view: &Name) -> Result<Reply, Refusal>
        ensures { CarriesOut self.now (View view.now) result self.now }
    {
        let Some(at) = place_of_view(self.tables.as_slice(), view) else {
            return Err(Refusal::NoSuchView);
        };
        let found = self.tables[at].table.view(view)?;
        // A view visits no node for its rows, so the number of visited nodes is 0 and is left out.
        Ok(Reply::Rows(Shown {
            rows: found.rows,
            columns: None,
        }))
    }

    fn select(
        &self,
        columns: &Option<Items<Name>>,
        name: &Name,
        cond: Cond,
        order: &Option<Name>,
    ) -> Result<Reply, Refusal>
        ensures { CarriesOut self.now (Select columns.now name.now cond order.now) result self.now }
    {
        let Some(at) = place_of(self.tables.as_slice(), name) else {
            return Err(Refusal::NoSuchTable);
        };
        let rows = select(self.alloc, &self.tables[at].table, columns, cond, order)?;
        Ok(Reply::Rows(rows))
    }

    #[inline(never)]
    fn check(&self, name: &Name) -> Result<Reply, Refusal>
        ensures { CarriesOut self.now (Check name.now) result self.now }
    {
        let Some(at) = place_of(self.tables.as_slice(), name) else {
            return Err(Refusal::NoSuchTable);
        };
        let problems = self.tables[at].table.check()?;
        Ok(Reply::Verdict(Items::from_vec(problems)))
    }

    #[inline(never)]
    fn nodes(&self, name: &Name) -> Result<Reply, Refusal>
        ensures { CarriesOut self.now (Nodes name.now) result self.now }
    {
        let Some(at) = place_of(self.tables.as_slice(), name) else {
            return Err(Refusal::NoSuchTable);
        };
        let shadow = self.tables[at].table.shadow()?;
        let dump = TreeDump::new(self.alloc, shadow)?;
        Ok(Reply::Dump(dump))
    }
}
