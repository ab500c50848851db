//! What a call that reads answers.

ghost use Rattle.std.specs.Prelude.{◌≡◌};
ghost use Rattle.rt_calls.specs.Answers.{Returns, ReturnsBoth};

use crate::code::Code;
use rt_handle::{Lease, Pass};

/// The number of a code, and the pass that the caller gave. A pass takes no bytes, so C reads the answer as an `int32_t`.
#[repr(C)]
pub struct Answer {
    /// The number of the code.
    pub code: i32,
    /// The pass.
    pub pass: Pass,
}

/// The answer of a call that read by the lease.
pub fn hand_back(code: Code, lease: Lease) -> Answer
    ensures { Returns code lease result }
{
    Answer {
        code: code.number(),
        pass: lease.close(),
    }
}

/// What a call that reads two handles answers: the number of a code, and both passes.
#[repr(C)]
pub struct PairAnswer {
    /// The number of the code.
    pub code: i32,
    /// The pass of the one handle.
    pub one: Pass,
    /// The pass of the other.
    pub other: Pass,
}

/// The answer of a call that read by two leases.
pub fn hand_back_both(code: Code, one: Lease, other: Lease) -> PairAnswer
    ensures { ReturnsBoth code one other result }
{
    PairAnswer {
        code: code.number(),
        one: one.close(),
        other: other.close(),
    }
}
