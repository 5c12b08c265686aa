//! How many records name each number: one more is counted for a record that comes, and one less for one that goes.
ghost use Rattle.std.specs.Prelude.{◌≡◌, ℕ, ◌<◌, nat_lt, Some, OnOk, OnErr};
ghost use Rattle.sentry_plain.specs.Counts.{count_at, Raises, Lowers};

use crate::Table;
use std::alloc::AllocError;

/// Whether a record names the number.
pub fn is_counted(counts: &Table<usize>, number: u64) -> bool
    ensures { result ≡ nat_lt 0 (count_at counts.now number) }
{
    match counts.get(number) {
        None => false,
        Some(count) => *count > 0,
    }
}

/// Counts one more at a number, if any. If out of memory, nothing has changed.
pub fn raise(counts: &mut Table<usize>, name: Option<u64>) -> Result<(), AllocError>
    ensures ok { OnOk result (Raises counts.old counts.new name) }
    ensures err { OnErr result (counts.new ≡ counts.old) }
{
    let Some(number) = name else {
        return Ok(());
    };
    let Some(count) = counts.get_mut(number) else {
        return counts.insert(number, 1);
    };
    let Some(more) = count.checked_add(1) else {
        return Err(AllocError);
    };
    *count = more;
    Ok(())
}

/// Counts one less at a number, if any. It takes no memory.
pub fn lower(counts: &mut Table<usize>, name: Option<u64>)
    requires { (number : ℕ) → name ≡ Some number → 0 < count_at counts.old number }
    ensures { Lowers counts.old counts.new name }
{
    let Some(number) = name else {
        return;
    };
    let Some(count) = counts.get_mut(number) else {
        unreachable!()
    };
    if *count > 1 {
        *count -= 1;
        return;
    }
    counts.remove(number);
}
