//! Counts of reads and failures.
//!
//! A count stops at 2^64 - 1, so callers need no bound on the number of calls.

ghost use Rattle.std.specs.Prelude.{◌≡◌, ◌<◌};
ghost use Rattle.rt_bytes.specs.Bytes.{one_more, PassesOn, TookNone};

/// Raises a count by one; it stays at 2^64 - 1.
pub(crate) fn count_one(count: &mut u64)
    ensures { count.new ≡ one_more count.old }
{
    *count = count.saturating_add(1);
}

/// Passes an answer on under another fault. An `Ok` stays; an `Err` is counted.
pub(crate) fn pass_on<T, E: Drop, F: Drop>(
    faults: &mut u64,
    answer: Result<T, E>,
    fault: F,
) -> Result<T, F>
    ensures { PassesOn answer fault faults.old faults.new result }
{
    match answer {
        Ok(given) => Ok(given),
        Err(_) => {
            count_one(faults);
            Err(fault)
        }
    }
}

/// Passes on the answer to a write of `len` bytes, as `pass_on` does. If there are bytes and the write took none, it is a
/// fault.
pub(crate) fn pass_on_write<E: Drop, F: Drop>(
    faults: &mut u64,
    len: usize,
    answer: Result<usize, E>,
    fault: F,
) -> Result<usize, F>
    ensures some { ¬ TookNone len answer → PassesOn answer fault faults.old faults.new result }
    ensures none { TookNone len answer → (result ≡ Err fault) × (faults.new ≡ one_more faults.old) }
{
    if 0 < len && matches!(answer, Ok(0)) {
        count_one(faults);
        return Err(fault);
    }
    pass_on(faults, answer, fault)
}
