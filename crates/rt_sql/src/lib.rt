//! SQL statements: what statement a piece of a script spells.
//!
//! - `parse` makes of a piece the statement that its tokens spell, or says by a `Refusal` why there
//!   is none.
//! - `refused_at` finds the token of a piece at which no statement goes on.
//! - `Stmt` (of `rt_sql_request`), what it is made of, and `Refusal` (of `rt_sql_statement`) are passed on.
//! - `laws`: tokens spell at most one statement, and each piece has one answer.
//!
//! A piece is a statement exactly if its tokens spell it. Else it is refused by the first reason that applies,
//! or because no memory is left.
//!
//! Stands on `rt_sql_cut` (pieces) and `rt_sql_statement`. Definitions: `specs/Grammar.antt` (which tokens spell which
//! statement), `Tokens.antt` (the tokens of a text), `Token.antt` (their characters and words),
//! `Number.antt` (the number that digits write), `Parse.antt` (what a piece asks for); `Reading.antt`, `Lex.antt` and
//! `Kind.antt` are how the parser and the lexer go about it.
#![tactic(auto)]

mod grammar;
mod kind;
pub mod laws;
mod lexer;
mod literals;
mod number;
mod parser;
mod token;
mod tokens;
mod word;

pub use parser::{parse, refused_at};
pub use rt_sql_request::Stmt;
pub use rt_sql_statement::{
    Blob, ColumnDef, Compare, Cond, Edit, Items, Name, Operator, Refusal, Rule, Source, Test, Text,
    Value,
};
