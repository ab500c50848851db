//! Laws of cutting. Each is the contract of a function that does nothing, so that it is proved, and
//! a caller may cite it.

ghost use Rattle.rt_sql_cut.specs.Pieces.{CuttingIsDetermined, EveryTextIsCut};

/// Law: no text is cut into pieces in two ways.
pub fn cutting_is_determined()
    ensures { CuttingIsDetermined }
{}

/// Law: each text is cut into pieces in some way.
pub fn every_text_is_cut()
    ensures { EveryTextIsCut }
{}
