//! The entries of a map from texts.
ghost use Rattle.std.specs.Prelude.{◌≡◌, ◌<◌, ◌+◌, ◌≤◌, ◌==◌, [], ◌∷◌, IfOk, OnOk, OnErr, length, not, option_copied, slice_set};
ghost use Rattle.std.specs.List.{remove};
ghost use Rattle.std.specs.List.Sorted.{IsStrictlySortedBy};
ghost use Rattle.std.specs.Map.{keys_of};
ghost use Rattle.std.specs.Cmp.Lexicographic.{pointwise, lists_per};
ghost use Rattle.sentry_plain.specs.EntriesView.{entries_of, InOrder, IsCounted, IsSameBody, HasPut};
ghost use Rattle.sentry_plain.specs.Equality.{same_entry, per_entry};
ghost use Rattle.sentry_plain.specs.Parts.{joined, AllFilled, begins_after, Belongs, part_at};
ghost use Rattle.sentry_plain.specs.Texts.{put, text_cmp, without, value_at};

use super::iter::TextMapIter;
use super::part::Part;
use crate::collection::Collection;
use crate::plain_clone::PlainClone;
use crate::shared::Shared;
use crate::text::Text;
use std::alloc::{AllocError, Global};
use std::marker::Model;

// With this many entries the first part goes behind a share.
const ALONE: usize = 64;

// With this many entries another part is divided.
const FULL: usize = 32;

#[derive(Debug, Drop)]
struct Body<V> {
    first: Part<V>,
    // None of them is empty. Copies of the entries share them.
    others: Vec<Shared<Part<V>>>,
}

/// Entries by key, in parts that follow each other in the order of the keys. A copy shares all but the first: of what is
/// written while it is shared only one part is copied. Few entries are all in the first part. Contracts see the list of
/// the entries in the order of the keys' bytes.
#[derive(Debug)]
pub struct Entries<V> {
    alloc: Global,
    count: usize,
    body: Body<V>,
}

impl<V: Drop> Drop for Entries<V> {
    fn drop(self) {
        let Entries {
            alloc: _,
            count: _,
            body: _,
        } = self;
    }
}

impl<V> Model for Entries<V> {
    ghost use Rattle.std.specs.Prelude.{List};
    ghost use Rattle.sentry_plain.specs.Texts.{Bytes};

    ghost Value = { List (Bytes × V) };

    ghost use Rattle.sentry_plain.specs.EntriesView.{entries_of, IsCounted};

    ghost view = { λ a. entries_of a.body };

    ghost invariant = { λ a. IsCounted a.body a.count };
}

impl<V> Collection for Entries<V> {
    ghost empty = { [] };

    fn new_empty(alloc: Global) -> Entries<V> {
        Entries {
            alloc,
            count: 0,
            body: Body {
                first: Part::new(alloc),
                others: Vec::new(alloc),
            },
        }
    }
}

// Removes the value at a key of a part, which is copied first where it is shared.
fn remove_shared<V: PlainClone + Drop>(
    share: &mut Shared<Part<V>>,
    key: &str,
) -> Result<Option<V>, AllocError>
    requires { IsStrictlySortedBy text_cmp (keys_of share.old) }
    ensures value { IfOk result (λ value. value ≡ value_at share.old key.now) }
    ensures ok { OnOk result (share.new ≡ without share.old key.now) }
    ensures err { OnErr result (share.new ≡ share.old) }
{
    match share.make_mut() {
        Ok(part) => Ok(part.remove(key)),
        Err(error) => Err(error),
    }
}

// Puts a value at a key of a part, which is copied first where it is shared. Returns how many entries there are more.
fn insert_shared<V: PlainClone + Drop>(
    share: &mut Shared<Part<V>>,
    key: Text,
    value: V,
) -> Result<usize, AllocError>
    requires { IsStrictlySortedBy text_cmp (keys_of share.old) }
    ensures ok { OnOk result (share.new ≡ put share.old key value) }
    ensures count { IfOk result (λ more. length share.new ≡ length share.old + more) }
    ensures one { IfOk result (λ more. more ≤ 1) }
    ensures err { OnErr result (share.new ≡ share.old) }
{
    match share.make_mut() {
        Ok(part) => match part.insert(key, value) {
            Ok(more) => Ok(more),
            Err(error) => Err(error),
        },
        Err(error) => Err(error),
    }
}

// Drops a part that is empty. The others aren't.
fn drop_empty<V: Drop>(parts: &mut Vec<Shared<Part<V>>>, place: usize)
    requires inside { place < length parts.old.items }
    requires filled { AllFilled (remove parts.old.items place) }
    ensures same { joined parts.new.items ≡ joined parts.old.items }
    ensures filled { AllFilled parts.new.items }
{
    if parts[place].get().len() > 0 {
        return;
    }
    drop(parts.remove(place));
}

// Removes the value at a key of one of several parts.
fn remove_in<V: PlainClone + Drop>(
    parts: &mut Vec<Shared<Part<V>>>,
    place: usize,
    key: &str,
) -> Result<Option<V>, AllocError>
    requires inside { place < length parts.old.items }
    requires filled { AllFilled parts.old.items }
    requires order { IsStrictlySortedBy text_cmp (keys_of (part_at parts.old.items place)) }
    ensures value { IfOk result (λ value. value ≡ value_at (part_at parts.old.items place) key.now) }
    ensures ok { OnOk result (joined parts.new.items ≡ joined (slice_set parts.old.items place (without (part_at parts.old.items place) key.now))) }
    ensures err { OnErr result (parts.new.items ≡ parts.old.items) }
    ensures filled { AllFilled parts.new.items }
{
    let value = remove_shared(&mut parts[place], key)?;
    drop_empty(parts, place);
    Ok(value)
}

// Divides a part that is full into halves.
fn divide<V: PlainClone + Drop>(
    alloc: Global,
    parts: &mut Vec<Shared<Part<V>>>,
    place: usize,
) -> Result<(), AllocError>
    requires inside { place < length parts.old.items }
    requires filled { AllFilled parts.old.items }
    ensures same { joined parts.new.items ≡ joined parts.old.items }
    ensures filled { AllFilled parts.new.items }
{
    let entries = parts[place].get().as_slice();
    if entries.len() < FULL {
        return Ok(());
    }
    let half = entries.len() / 2;
    let lower = Shared::new(alloc, Part::of_clones(alloc, &entries[..half])?)?;
    let upper = Shared::new(alloc, Part::of_clones(alloc, &entries[half..])?)?;
    parts.insert(place + 1, upper)?;
    parts[place] = lower;
    Ok(())
}

impl<V> Body<V> {
    // The part that a key belongs into: its place among the others, or `None` for the first.
    fn place(&self, key: &str) -> Option<usize>
        requires { InOrder self.now }
        ensures { Belongs key.now self.now.first self.now.others.items result }
    {
        let begun = self.others.as_slice().partition_point(
            |part: &Shared<Part<V>>| -> bool
                ensures { result ≡ not (begins_after key.entry.now part.entry.now) }
            { !part.get().begins_after(key) },
        );
        begun.checked_sub(1)
    }

    fn get(&self, key: &str) -> Option<&V>
        requires { InOrder self.now }
        ensures { option_copied result ≡ value_at (entries_of self.now) key.now }
    {
        match self.place(key) {
            None => self.first.get(key),
            Some(place) => self.others[place].get().get(key),
        }
    }
}

impl<V: PlainClone + Drop> Body<V> {
    fn copy(&self) -> Result<Body<V>, AllocError>
        requires { InOrder self.now }
        ensures { IfOk result (IsSameBody self.now) }
    {
        Ok(Body {
            first: self.first.clone()?,
            others: self.others.clone()?,
        })
    }

    // Puts the first part behind a share, if it is full.
    fn share_first(&mut self, alloc: Global) -> Result<(), AllocError>
        requires { InOrder self.old }
        ensures { IsSameBody self.old self.new }
    {
        if self.first.len() < ALONE {
            return Ok(());
        }
        let whole = Shared::new(alloc, self.first.clone()?)?;
        self.others.insert(0, whole)?;
        self.first = Part::new(alloc);
        Ok(())
    }

    // Divides the part that a key belongs into, if it is full.
    fn make_room(&mut self, alloc: Global, key: &str) -> Result<(), AllocError>
        requires { InOrder self.old }
        ensures { IsSameBody self.old self.new }
    {
        match self.place(key) {
            None => self.share_first(alloc),
            Some(place) => divide(alloc, &mut self.others, place),
        }
    }

    // Puts a value at a key, and returns how many entries there are more.
    fn insert(&mut self, key: Text, value: V) -> Result<usize, AllocError>
        requires { InOrder self.old }
        ensures ok { IfOk result (HasPut self.old self.new key value) }
        ensures err { OnErr result (IsSameBody self.old self.new) }
    {
        match self.place(key.as_str()) {
            None => self.first.insert(key, value),
            Some(place) => insert_shared(&mut self.others[place], key, value),
        }
    }

    fn remove(&mut self, key: &str) -> Result<Option<V>, AllocError>
        requires { InOrder self.old }
        ensures value { IfOk result (λ value. value ≡ value_at (entries_of self.old) key.now) }
        ensures rest { OnOk result (entries_of self.new ≡ without (entries_of self.old) key.now) }
        ensures all { OnOk result (InOrder self.new) }
        ensures err { OnErr result (IsSameBody self.old self.new) }
    {
        match self.place(key) {
            None => Ok(self.first.remove(key)),
            Some(place) => remove_in(&mut self.others, place, key),
        }
    }
}

impl<V> Entries<V> {
    /// The value at a key.
    pub fn get(&self, key: &str) -> Option<&V>
        ensures { option_copied result ≡ value_at self.now key.now }
    {
        self.body.get(key)
    }

    /// The number of entries.
    pub fn len(&self) -> usize
        ensures { result ≡ length self.now }
    {
        self.count
    }

    /// Returns `true` if there are no entries.
    pub fn is_empty(&self) -> bool
        ensures { result ≡ (length self.now == 0) }
    {
        self.count == 0
    }

    /// The entries in the order of the keys' bytes.
    pub fn iter(&self) -> TextMapIter<'_, V>
        ensures rest { result ≡ self.now }
        ensures ordered { IsStrictlySortedBy text_cmp (keys_of self.now) }
    {
        TextMapIter::new(self.body.first.as_slice(), self.body.others.as_slice())
    }
}

impl<V: Drop> Entries<V> {
    /// One entry.
    pub fn of_one(alloc: Global, key: Text, value: V) -> Result<Entries<V>, AllocError>
        ensures { IfOk result (λ made. made ≡ (key, value) ∷ []) }
    {
        Ok(Entries {
            alloc,
            count: 1,
            body: Body {
                first: Part::of_one(alloc, key, value)?,
                others: Vec::new(alloc),
            },
        })
    }
}

impl<V: PlainClone + Drop> Entries<V> {
    /// Inserts a value at a key. It replaces a value that is there.
    pub fn insert(&mut self, key: Text, value: V) -> Result<(), AllocError>
        ensures ok { OnOk result (self.new ≡ put self.old key value) }
        ensures err { OnErr result (self.new ≡ self.old) }
    {
        if self.count == usize::MAX {
            return Err(AllocError);
        }
        let alloc = self.alloc;
        self.body.make_room(alloc, key.as_str())?;
        let more = self.body.insert(key, value)?;
        self.count += more;
        Ok(())
    }

    /// Removes and returns the value at a key.
    pub fn remove(&mut self, key: &str) -> Result<Option<V>, AllocError>
        ensures value { IfOk result (λ value. value ≡ value_at self.old key.now) }
        ensures ok { OnOk result (self.new ≡ without self.old key.now) }
        ensures err { OnErr result (self.new ≡ self.old) }
    {
        match self.body.remove(key)? {
            None => Ok(None),
            Some(value) => {
                self.count -= 1;
                Ok(Some(value))
            }
        }
    }
}

impl<V: PlainClone + Drop> Clone for Entries<V> {
    ghost is_clone = { λ old new. new ≡ old };

    fn clone(&self) -> Result<Entries<V>, AllocError> {
        Ok(Entries {
            alloc: self.alloc,
            count: self.count,
            body: self.body.copy()?,
        })
    }
}

// Whether both have the same entries left.
fn is_same<V: PartialEq>(one: TextMapIter<'_, V>, mut other: TextMapIter<'_, V>) -> bool
    ensures { result ≡ pointwise (same_entry V.eq) one.entry other.entry }
{
    for (key, value) in one {
        let Some((other_key, other_value)) = other.next() else {
            return false;
        };
        if key != other_key {
            return false;
        }
        if *value != *other_value {
            return false;
        }
    }
    other.next().is_none()
}

impl<V: PartialEq> PartialEq for Entries<V> {
    ghost eq = { pointwise (same_entry V.eq) };

    ghost laws = { lists_per (per_entry V.laws) };

    fn eq(&self, other: &Entries<V>) -> bool {
        is_same(self.iter(), other.iter())
    }
}
