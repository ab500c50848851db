//! Laws of the grammar. Each is the contract of a function that does nothing, so that it is proved,
//! and a caller may cite it.

ghost use Rattle.rt_sql.specs.Parse.{OneStatement, OneTokenList, OneAnswer, EveryTextHasTokens, EveryPieceHasAnAnswer, QuotesAreAtoms};

/// Law: no list of tokens spells two statements.
pub fn tokens_spell_one_statement()
    ensures { OneStatement }
{}

/// Law: a text has at most one list of tokens.
pub fn text_has_one_list_of_tokens()
    ensures { OneTokenList }
{}

/// Law: each text has a list of tokens.
pub fn every_text_has_tokens()
    ensures { EveryTextHasTokens }
{}

/// Law: a piece has at most one answer, be it a statement or a refusal.
pub fn piece_has_one_answer()
    ensures { OneAnswer }
{}

/// Law: each piece has an answer.
pub fn every_piece_has_an_answer()
    ensures { EveryPieceHasAnAnswer }
{}

/// Law: what stands in quotes for the tokens does so for the cutting.
pub fn quotes_are_atoms()
    ensures { QuotesAreAtoms }
{}
