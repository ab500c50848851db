//! What holds of the steps of every statement, as a law of the definitions that the contracts cite. The function does
//! nothing: its contract is the law.

ghost use Rattle.rt_table_step.specs.Laws.{StepsApply};

/// The steps of a statement apply to the rows of its table, one after the other.
pub fn steps_apply()
    ensures { StepsApply }
{}
