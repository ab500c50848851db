//! What holds of every session and of every script, as laws of the definitions that the contracts of `rt_session` and
//! `rt_shell` cite. Each function does nothing: its contract is the law.
//!
//! Each script has a transcript over plain lists of rows, which says what every run prints, and leaves open the dumps of
//! trees. Script, options and the pieces that memory refuses determine each byte of it, dumps included: the steps of a
//! statement lead a table's tree to one tree, since each insertion and removal does (`rt_tree_one`). So a state and a
//! statement have one outcome, and a script one transcript.
//!
//! Definitions: `specs/SessionLaws.antt`, `Replaying.antt` (the changes of a view), `ScriptLaws.antt`, `DumpLaws.antt` (that
//! there is one answer). Two files hold definitions against worked examples: `StatementExamples.antt` what statements
//! answer, `LineExamples.antt` what is printed.
#![tactic(auto)]

ghost use Rattle.rt_laws.specs.SessionLaws.{RowsAlwaysRise, TreesAlwaysStand};
ghost use Rattle.rt_laws.specs.Replaying.{ChangesReplay};
ghost use Rattle.rt_laws.specs.ScriptLaws.{ShellPrintsTheTranscriptSoFar, EveryScriptHasAPlainTranscript};
ghost use Rattle.rt_laws.specs.DumpLaws.{StepsHaveOneAnswer, StatementsHaveOneAnswer, TranscriptIsDetermined, TextIsOne, TranscriptSoFarIsDetermined};

/// Whatever statements a session carries out, the rows of each of its tables stand by rising id.
pub fn rows_always_rise()
    ensures { RowsAlwaysRise }
{}

/// Whatever statements a session carries out, each of its tables has a tree of its rows, of the session's capacity, in
/// which the checker finds no problem.
pub fn trees_always_stand()
    ensures { TreesAlwaysStand }
{}

/// The changes that are printed of a view turn the rows that it showed into the rows that it shows.
pub fn changes_replay()
    ensures { ChangesReplay }
{}

/// Whichever pieces memory refuses, a script's run over plain lists of rows prints something and ends in some status. Each
/// run prints just that, piece by piece, and a dump of some tree where the plain run leaves it open.
pub fn every_script_has_a_plain_transcript()
    ensures { EveryScriptHasAPlainTranscript }
{}

/// After each feed a shell has printed the transcript so far of all that it was fed: the lines of the pieces that have
/// ended in it, in whatever parts it came.
pub fn shell_prints_the_transcript_so_far()
    ensures { ShellPrintsTheTranscriptSoFar }
{}

/// Steps lead a tree to one tree.
pub fn steps_have_one_answer()
    ensures { StepsHaveOneAnswer }
{}

/// A state and a statement have one outcome: the reply, the rows and the trees afterwards, or the refusal.
pub fn statements_have_one_answer()
    ensures { StatementsHaveOneAnswer }
{}

/// Given the options and the pieces that memory refuses, each piece of a script prints one thing, and the run ends in one
/// status.
pub fn transcript_is_determined()
    ensures { TranscriptIsDetermined }
{}

/// The same of the text as a whole.
pub fn text_is_one()
    ensures { TextIsOne }
{}

/// If two shells were fed the same bytes, in whatever parts, and memory refused the same pieces of those that printed, both
/// printed the same.
pub fn transcript_so_far_is_determined()
    ensures { TranscriptSoFarIsDetermined }
{}
