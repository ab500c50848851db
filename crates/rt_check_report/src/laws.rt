//! What the answer of a check means, as a law of the definitions that its contract cites. The function does
//! nothing: its contract is the law.

ghost use Rattle.rt_check_report.specs.Report.{CleanIsSound};

/// The answer is `Clean` exactly if the bytes are the text of a shadow without a problem.
pub fn clean_dumps_are_sound()
    ensures { CleanIsSound }
{}
