//! Rows of a table: in the order of the numbers, some without a value.
ghost use Rattle.std.specs.Prelude.{◌≡◌, ◌<◌, ◌^◌, ◌+◌, ◌∷◌, [], true, ◌&&◌, IfOk, IfErr, IfSome, IfNone, OnOk, OnErr, IsSomeAnd, MatchOption, None, Some, length, option_copied, slice_index_or, take};
ghost use Rattle.std.specs.Borrow.{Lends, sem};
ghost use Rattle.std.specs.List.Sorted.{IsStrictlySortedBy};
ghost use Rattle.std.specs.Map.{keys_of};
ghost use Rattle.std.specs.Option.{is_some};
ghost use Rattle.std.specs.Ordering.{nat_cmp};
ghost use Rattle.sentry_plain.specs.Rows.{number_of, value_of, live_rows, numbers, IsTable, IsRowOf, IsRowGap, count_with};
ghost use Rattle.sentry_plain.specs.Tables.{value_at, put, without, entries_after, is_after};

use std::alloc::AllocError;
use std::mem;

/// What stands at a number, or what is left of it.
#[derive(Debug, Drop)]
pub(crate) enum Row<T> {
    Empty(u64),
    Full(u64, T),
}

impl<T: Clone> Clone for Row<T> {
    ghost use Rattle.sentry_plain.specs.Rows.{IsRowClone};

    ghost is_clone = { IsRowClone T.is_clone };

    fn clone(&self) -> Result<Row<T>, AllocError> {
        match self {
            Row::Empty(number) => Ok(Row::Empty(*number)),
            Row::Full(number, value) => Ok(Row::Full(*number, value.clone()?)),
        }
    }
}

impl<T> Row<T> {
    ghost use Rattle.sentry_plain.specs.contracts.table.rows.Row.{the_row};

    pub fn number(&self) -> u64
        ensures { result ≡ number_of self.now }
    {
        match self {
            Row::Empty(number) => *number,
            Row::Full(number, _) => *number,
        }
    }

    pub fn value(&self) -> Option<&T>
        ensures { option_copied result ≡ value_of self.now }
    {
        match self {
            Row::Empty(_) => None,
            Row::Full(_, value) => Some(value),
        }
    }

    pub fn is_full(&self) -> bool
        ensures { result ≡ is_some (value_of self.now) }
    {
        match self {
            Row::Empty(_) => false,
            Row::Full(_, _) => true,
        }
    }

    pub fn value_mut(&mut self) -> &mut T
        requires { is_some (value_of self.old) ≡ true }
        ensures* lends { sem 𝓛 (Lends (the_row T.row) T.row self.entry result (Row.Full (number_of self.entry.now))) }
        ensures value { value_of self.old ≡ Some result.now }
    {
        match self {
            Row::Full(_, value) => value,
            Row::Empty(_) => unreachable!(),
        }
    }

    // Takes the value out.
    fn take(&mut self) -> Option<T>
        ensures value { result ≡ value_of self.old }
        ensures rest { self.new ≡ Row.Empty (number_of self.old) }
    {
        let number = self.number();
        match mem::replace(self, Row::Empty(number)) {
            Row::Empty(_) => None,
            Row::Full(_, value) => Some(value),
        }
    }

    // How many rows have a value once this one has one.
    fn count_with(&self, full: usize) -> usize
        requires { full + 1 < 2 ^ 64 }
        ensures { result ≡ count_with self.now full }
    {
        match self {
            Row::Empty(_) => full + 1,
            Row::Full(_, _) => full,
        }
    }
}

impl<T: Drop> Row<T> {
    // Drops the value where it lies, and returns whether there was one.
    fn clear(&mut self) -> bool
        ensures was { result ≡ is_some (value_of self.old) }
        ensures rest { self.new ≡ Row.Empty (number_of self.old) }
    {
        let full = self.is_full();
        *self = Row::Empty(self.number());
        full
    }
}

// Where the row of a number stands, or where it would.
fn search<T>(rows: &[Row<T>], number: u64) -> Result<usize, usize>
    requires { IsStrictlySortedBy nat_cmp (numbers rows.now) }
    ensures found { IfOk result (IsRowOf rows.now number) }
    ensures absent { IfErr result (IsRowGap rows.now number) }
{
    rows.binary_search_by_key(&number, |row| row.number())
}

/// Where the row of a number stands, or where it would. The last two are found at once.
pub(crate) fn find<T>(rows: &[Row<T>], number: u64) -> Result<usize, usize>
    requires { IsStrictlySortedBy nat_cmp (numbers rows.now) }
    ensures found { IfOk result (IsRowOf rows.now number) }
    ensures absent { IfErr result (IsRowGap rows.now number) }
{
    let count = rows.len();
    if count == 0 {
        return Err(0);
    }
    let last = rows[count - 1].number();
    if last == number {
        return Ok(count - 1);
    }
    if last < number {
        return Err(count);
    }
    if count > 1 && rows[count - 2].number() == number {
        return Ok(count - 2);
    }
    search(rows, number)
}

/// The same, where the row at a place is looked at first. Any place will do.
#[inline(always)]
pub(crate) fn find_near<T>(rows: &[Row<T>], number: u64, near: usize) -> Result<usize, usize>
    requires { IsStrictlySortedBy nat_cmp (numbers rows.now) }
    ensures found { IfOk result (IsRowOf rows.now number) }
    ensures absent { IfErr result (IsRowGap rows.now number) }
{
    if near < rows.len() && rows[near].number() == number {
        return Ok(near);
    }
    find(rows, number)
}

/// Where the row of a number was found, if it has a value.
pub(crate) fn if_full<T>(rows: &[Row<T>], number: u64, found: Result<usize, usize>) -> Option<usize>
    requires sorted { IsStrictlySortedBy nat_cmp (numbers rows.now) }
    requires row { IfOk found (IsRowOf rows.now number) }
    requires gap { IfErr found (IsRowGap rows.now number) }
    ensures found { IfSome result (IsRowOf rows.now number) }
    ensures full { IfSome result (λ place. (row : Row T) → is_some (value_of (slice_index_or rows.now place row)) ≡ true) }
    ensures absent { IfNone result (value_at (live_rows rows.now) number ≡ None) }
{
    let Ok(place) = found else {
        return None;
    };
    if !rows[place].is_full() {
        return None;
    }
    Some(place)
}

// Puts a value into a row, and returns how many rows have one.
fn fill<T: Drop>(rows: &mut Vec<Row<T>>, full: usize, place: usize, number: u64, value: T) -> usize
    requires at { IsRowOf rows.old.items number place }
    requires table { IsTable rows.old.items full }
    ensures live { live_rows rows.new.items ≡ put (live_rows rows.old.items) number value }
    ensures table { IsTable rows.new.items result }
{
    let count = rows[place].count_with(full);
    rows[place] = Row::Full(number, value);
    count
}

// Makes a row for a number that has none, and returns how many rows have a value.
fn add<T: Drop>(
    rows: &mut Vec<Row<T>>,
    full: usize,
    place: usize,
    number: u64,
    value: T,
) -> Result<usize, AllocError>
    requires at { IsRowGap rows.old.items number place }
    requires table { IsTable rows.old.items full }
    ensures live { OnOk result (live_rows rows.new.items ≡ put (live_rows rows.old.items) number value) }
    ensures table { IfOk result (IsTable rows.new.items) }
    ensures err { OnErr result (rows.new.items ≡ rows.old.items) }
{
    if place == rows.len() {
        rows.reserve(1)?;
        rows.push_reserved(Row::Full(number, value));
        return Ok(full + 1);
    }
    rows.insert(place, Row::Full(number, value))?;
    Ok(full + 1)
}

/// Puts a value at a number, and returns how many rows have one.
pub(crate) fn put_value<T: Drop>(
    rows: &mut Vec<Row<T>>,
    full: usize,
    number: u64,
    value: T,
) -> Result<usize, AllocError>
    requires { IsTable rows.old.items full }
    ensures live { OnOk result (live_rows rows.new.items ≡ put (live_rows rows.old.items) number value) }
    ensures table { IfOk result (IsTable rows.new.items) }
    ensures err { OnErr result (rows.new.items ≡ rows.old.items) }
{
    match find(rows.as_slice(), number) {
        Ok(place) => Ok(fill(rows, full, place, number, value)),
        Err(place) => add(rows, full, place, number, value),
    }
}

// Takes the value out of a row.
fn take_out<T>(rows: &mut Vec<Row<T>>, full: &mut usize, place: usize, number: u64) -> Option<T>
    requires at { IsRowOf rows.old.items number place }
    requires table { IsTable rows.old.items full.old }
    ensures value { result ≡ value_at (live_rows rows.old.items) number }
    ensures live { live_rows rows.new.items ≡ without (live_rows rows.old.items) number }
    ensures table { IsTable rows.new.items full.new }
{
    let value = rows[place].take()?;
    *full -= 1;
    Some(value)
}

/// Takes out the value at a number. Its row stays, without one.
pub(crate) fn take_value<T>(rows: &mut Vec<Row<T>>, full: &mut usize, number: u64) -> Option<T>
    requires { IsTable rows.old.items full.old }
    ensures value { result ≡ value_at (live_rows rows.old.items) number }
    ensures live { live_rows rows.new.items ≡ without (live_rows rows.old.items) number }
    ensures table { IsTable rows.new.items full.new }
{
    match find(rows.as_slice(), number) {
        Ok(place) => take_out(rows, full, place, number),
        Err(_) => None,
    }
}

// Drops the value of a row.
fn clear_row<T: Drop>(rows: &mut Vec<Row<T>>, full: &mut usize, place: usize, number: u64)
    requires at { IsRowOf rows.old.items number place }
    requires table { IsTable rows.old.items full.old }
    ensures live { live_rows rows.new.items ≡ without (live_rows rows.old.items) number }
    ensures table { IsTable rows.new.items full.new }
{
    if rows[place].clear() {
        *full -= 1;
    }
}

/// Drops the value at a number where it lies. Its row stays, without one.
pub(crate) fn drop_value<T: Drop>(rows: &mut Vec<Row<T>>, full: &mut usize, number: u64)
    requires { IsTable rows.old.items full.old }
    ensures live { live_rows rows.new.items ≡ without (live_rows rows.old.items) number }
    ensures table { IsTable rows.new.items full.new }
{
    match find(rows.as_slice(), number) {
        Ok(place) => clear_row(rows, full, place, number),
        Err(_) => {}
    }
}

// The rows without a value go.
fn compact<T: Drop>(rows: &mut Vec<Row<T>>)
    ensures live { live_rows rows.new.items ≡ live_rows rows.old.items }
    ensures numbers { numbers rows.new.items ≡ keys_of (live_rows rows.old.items) }
{
    rows.retain(|row| row.is_full());
}

// Fewer rows than this stay, with a value or without.
const FEW: usize = 16;

// Removes the last row if it has no value.
fn drop_last_empty<T: Drop>(rows: &mut Vec<Row<T>>, full: usize)
    requires { IsTable rows.old.items full }
    ensures live { live_rows rows.new.items ≡ live_rows rows.old.items }
    ensures table { IsTable rows.new.items full }
{
    let count = rows.len();
    if count == 0 {
        return;
    }
    if rows[count - 1].is_full() {
        return;
    }
    drop(rows.pop());
}

/// The last row goes if it has no value, and if half of the rows have none, these go.
pub(crate) fn trim<T: Drop>(rows: &mut Vec<Row<T>>, full: usize)
    requires { IsTable rows.old.items full }
    ensures live { live_rows rows.new.items ≡ live_rows rows.old.items }
    ensures table { IsTable rows.new.items full }
{
    drop_last_empty(rows, full);
    let count = rows.len();
    if count > FEW && count / 2 > full {
        compact(rows);
    }
}

// Where rows may begin that are above a number, whose own row may be at a place.
#[inline(always)]
fn start<T>(rows: &[Row<T>], after: Option<u64>, near: usize) -> usize
    requires { IsStrictlySortedBy nat_cmp (numbers rows.now) }
    ensures { entries_after after (live_rows (take result rows.now)) ≡ [] }
{
    let Some(number) = after else {
        return 0;
    };
    match find_near(rows, number, near) {
        Ok(place) => place + 1,
        Err(place) => place,
    }
}

#[inline(always)]
fn is_above(number: u64, after: Option<u64>) -> bool
    ensures { result ≡ is_after after number }
{
    match after {
        None => true,
        Some(other) => other < number,
    }
}

// Whether a row has a value, and stands above a number.
#[inline(always)]
fn is_next<T>(row: &Row<T>, after: Option<u64>) -> bool
    ensures { result ≡ (is_some (value_of row.now) && is_after after (number_of row.now)) }
{
    row.is_full() && is_above(row.number(), after)
}

/// The number of the first row above another that has a value, or of the first of all, and where that row stands. The row
/// of the other is looked for at a place first.
#[inline(always)]
pub(crate) fn next_row<T>(rows: &[Row<T>], after: Option<u64>, near: usize) -> Option<(u64, usize)>
    requires { IsStrictlySortedBy nat_cmp (numbers rows.now) }
    ensures { MatchOption result (entries_after after (live_rows rows.now) ≡ []) (λ next.
        IsSomeAnd (value_at (live_rows rows.now) next.0) (λ value.
        entries_after after (live_rows rows.now) ≡ (next.0, value) ∷ entries_after (Some next.0) (live_rows rows.now))) }
{
    for place in start(rows, after, near)..rows.len() {
        let row = &rows[place];
        if is_next(row, after) {
            return Some((row.number(), place));
        }
    }
    None
}
