//! The entries of a table, one by one.
ghost use Rattle.std.specs.Prelude.{◌≡◌};
ghost use Rattle.std.specs.Map.Iter.{TakesFirst, deref_pair};
ghost use Rattle.std.specs.Slice.Iter.{iter_rest};
ghost use Rattle.sentry_plain.specs.Rows.{live_rows};

use super::rows::Row;
use std::marker::Model;
use std::slice;

/// The entries of a table that are left, in the order of the numbers. Contracts see them as a list.
#[derive(Drop)]
pub struct TableIter<'a, T> {
    rows: slice::Iter<'a, Row<T>>,
}

impl<'a, T> Model for TableIter<'a, T> {
    ghost use Rattle.std.specs.Prelude.{List, ℕ};
    ghost use Rattle.std.specs.Slice.Iter.{iter_rest};
    ghost use Rattle.sentry_plain.specs.Rows.{live_rows};

    ghost Value = { List (ℕ × T) };

    ghost view = { λ a. live_rows (iter_rest a.rows) };
}

impl<'a, T> TableIter<'a, T> {
    pub(crate) fn new(rows: &'a [Row<T>]) -> Self
        ensures { result ≡ live_rows rows.now }
    {
        TableIter { rows: rows.iter() }
    }
}

impl<'a, T> Iterator for TableIter<'a, T> {
    type Item = (&'a u64, &'a T);

    ghost use Rattle.std.specs.Prelude.{length};
    ghost use Rattle.std.specs.Iterator.{at_most};

    ghost next_gives = { TakesFirst deref_pair };

    ghost remaining = { λ s. at_most (length s) };

    fn next(&mut self) -> Option<(&'a u64, &'a T)> {
        next_full(&mut self.rows)
    }
}

fn next_full<'a, T>(rows: &mut slice::Iter<'a, Row<T>>) -> Option<(&'a u64, &'a T)>
    ensures { TakesFirst deref_pair (live_rows (iter_rest rows.old)) result (live_rows (iter_rest rows.new)) }
{
    while let Some(row) = rows.next() {
        if let Row::Full(number, value) = row {
            return Some((number, value));
        }
    }
    None
}
