//! A part of the entries of a map from texts.
ghost use Rattle.std.specs.Prelude.{◌≡◌, ◌+◌, ◌≤◌, [], ◌∷◌, IfOk, IfErr, OnOk, OnErr, length, option_copied};
ghost use Rattle.std.specs.List.Sorted.{IsStrictlySortedBy};
ghost use Rattle.std.specs.Map.{keys_of};
ghost use Rattle.sentry_plain.specs.Parts.{begins_after};
ghost use Rattle.sentry_plain.specs.Places.{IsAt, IsGap};
ghost use Rattle.sentry_plain.specs.Texts.{put, text_cmp, without, value_at};

use crate::plain_clone::PlainClone;
use crate::text::Text;
use std::alloc::{AllocError, Global};
use std::cmp::Ordering;
use std::marker::Model;

/// Entries in the order of the keys. Contracts see the list of them.
#[derive(Debug)]
pub(crate) struct Part<V> {
    entries: Vec<(Text, V)>,
}

impl<V: Drop> Drop for Part<V> {
    fn drop(self) {
        let Part { entries: _ } = self;
    }
}

impl<V> Model for Part<V> {
    ghost use Rattle.std.specs.Prelude.{List};
    ghost use Rattle.sentry_plain.specs.Texts.{Bytes};

    ghost Value = { List (Bytes × V) };

    ghost view = { λ a. a.entries.items };
}

// The order of two texts by their bytes.
fn compare<'x>(one: &'x str, other: &'x str) -> Ordering
    ensures { result ≡ text_cmp one.now other.now }
{
    Ord::cmp(&one, &other)
}

// Where a key stands in a list, or where it would.
fn find<V>(entries: &[(Text, V)], key: &str) -> Result<usize, usize>
    requires { IsStrictlySortedBy text_cmp (keys_of entries.now) }
    ensures found { IfOk result (IsAt text_cmp entries.now key.now) }
    ensures absent { IfErr result (IsGap text_cmp entries.now key.now) }
{
    entries.binary_search_by(
        |entry: &(Text, V)| -> Ordering
            ensures { result ≡ text_cmp entry.now.0 key.entry.now }
        { compare(entry.0.as_str(), key) },
    )
}

// The value at a key of a list.
fn get_listed<'a, V>(entries: &'a [(Text, V)], key: &str) -> Option<&'a V>
    requires { IsStrictlySortedBy text_cmp (keys_of entries.now) }
    ensures { option_copied result ≡ value_at entries.now key.now }
{
    match find(entries, key) {
        Ok(place) => Some(&entries[place].1),
        Err(_) => None,
    }
}

// Whether the first key of a list is above a key.
fn begins_listed<V>(entries: &[(Text, V)], key: &str) -> bool
    ensures { result ≡ begins_after key.now entries.now }
{
    match entries.first() {
        None => false,
        Some(entry) => compare(key, entry.0.as_str()).is_lt(),
    }
}

// Puts a value at a key of a list, and returns how many entries there are more.
fn insert_listed<V: Drop>(
    entries: &mut Vec<(Text, V)>,
    key: Text,
    value: V,
) -> Result<usize, AllocError>
    requires { IsStrictlySortedBy text_cmp (keys_of entries.old.items) }
    ensures ok { OnOk result (entries.new.items ≡ put entries.old.items key value) }
    ensures count { IfOk result (λ more. length entries.new.items ≡ length entries.old.items + more) }
    ensures one { IfOk result (λ more. more ≤ 1) }
    ensures err { OnErr result (entries.new.items ≡ entries.old.items) }
{
    match find(entries.as_slice(), key.as_str()) {
        Ok(place) => {
            entries[place] = (key, value);
            Ok(0)
        }
        Err(place) => {
            entries.insert(place, (key, value))?;
            Ok(1)
        }
    }
}

// Removes the value at a key of a list.
fn remove_listed<V>(entries: &mut Vec<(Text, V)>, key: &str) -> Option<V>
    requires { IsStrictlySortedBy text_cmp (keys_of entries.old.items) }
    ensures value { result ≡ value_at entries.old.items key.now }
    ensures rest { entries.new.items ≡ without entries.old.items key.now }
{
    match find(entries.as_slice(), key) {
        Ok(place) => {
            let (_, value) = entries.remove(place);
            Some(value)
        }
        Err(_) => None,
    }
}

// Clones of the entries of a list.
fn copy_listed<V: PlainClone + Drop>(
    alloc: Global,
    entries: &[(Text, V)],
) -> Result<Vec<(Text, V)>, AllocError>
    ensures { IfOk result (λ copies. copies.items ≡ entries.now) }
{
    let mut copies = Vec::with_capacity(alloc, entries.len())?;
    for entry in entries {
        copies.push((entry.0.clone()?, entry.1.clone()?))?;
    }
    Ok(copies)
}

impl<V> Part<V> {
    /// No entries. It takes no memory.
    pub fn new(alloc: Global) -> Part<V>
        ensures { result ≡ [] }
    {
        Part {
            entries: Vec::new(alloc),
        }
    }

    pub fn as_slice(&self) -> &[(Text, V)]
        ensures { result.now ≡ self.now }
    {
        self.entries.as_slice()
    }

    pub fn len(&self) -> usize
        ensures { result ≡ length self.now }
    {
        self.entries.len()
    }

    /// The value at a key.
    pub fn get(&self, key: &str) -> Option<&V>
        requires { IsStrictlySortedBy text_cmp (keys_of self.now) }
        ensures { option_copied result ≡ value_at self.now key.now }
    {
        get_listed(self.entries.as_slice(), key)
    }

    /// Whether the first key is above a key.
    pub fn begins_after(&self, key: &str) -> bool
        ensures { result ≡ begins_after key.now self.now }
    {
        begins_listed(self.entries.as_slice(), key)
    }

    /// Removes and returns the value at a key.
    pub fn remove(&mut self, key: &str) -> Option<V>
        requires { IsStrictlySortedBy text_cmp (keys_of self.old) }
        ensures value { result ≡ value_at self.old key.now }
        ensures rest { self.new ≡ without self.old key.now }
    {
        remove_listed(&mut self.entries, key)
    }
}

impl<V: Drop> Part<V> {
    /// One entry.
    pub fn of_one(alloc: Global, key: Text, value: V) -> Result<Part<V>, AllocError>
        ensures { IfOk result (λ part. part ≡ (key, value) ∷ []) }
    {
        let mut entries = Vec::new(alloc);
        entries.reserve(1)?;
        entries.push_reserved((key, value));
        Ok(Part { entries })
    }

    /// Puts a value at a key, and returns how many entries there are more.
    pub fn insert(&mut self, key: Text, value: V) -> Result<usize, AllocError>
        requires { IsStrictlySortedBy text_cmp (keys_of self.old) }
        ensures ok { OnOk result (self.new ≡ put self.old key value) }
        ensures count { IfOk result (λ more. length self.new ≡ length self.old + more) }
        ensures one { IfOk result (λ more. more ≤ 1) }
        ensures err { OnErr result (self.new ≡ self.old) }
    {
        let more = insert_listed(&mut self.entries, key, value)?;
        Ok(more)
    }
}

impl<V: PlainClone + Drop> Part<V> {
    /// Clones of entries.
    pub fn of_clones(alloc: Global, entries: &[(Text, V)]) -> Result<Part<V>, AllocError>
        ensures { IfOk result (λ part. part ≡ entries.now) }
    {
        Ok(Part {
            entries: copy_listed(alloc, entries)?,
        })
    }
}

impl<V: PlainClone + Drop> Clone for Part<V> {
    ghost is_clone = { λ old new. new ≡ old };

    fn clone(&self) -> Result<Part<V>, AllocError> {
        Part::of_clones(*self.entries.allocator(), self.entries.as_slice())
    }
}
