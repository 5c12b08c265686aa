//! How the layers that name a record are counted.
ghost use Rattle.std.specs.Prelude.{◌≡◌, ◌==◌, ℕ, ◌+◌, ◌<◌, ◌≤◌, MatchOption, count_by, length, slice_index_or, sum, nat_lt, true, false, Some, OnOk, vec_capacity};
ghost use Rattle.std.specs.Bool.{OnTrue, OnFalse};
ghost use Rattle.std.specs.Map.{values_of};
ghost use Rattle.sentry_plain.specs.Counts.{count_at, one_if};
ghost use Rattle.sentry_hub_table.specs.declared.tally.Key.{Key};
ghost use Rattle.sentry_hub_table.specs.Entries.{is_key, has_entry};
ghost use Rattle.sentry_hub_table.specs.Tallies.{tally_at, tally_total, Keeps, Raises, Lowers};

use crate::tally::{Key, Tally};
use sentry_plain::Table;
use std::alloc::{AllocError, Global};

// Of a list with fewer keys, each is found as fast as an entry.
const FEW: usize = 8;

impl Key {
    fn is(self, other: Key) -> bool
        ensures { result ≡ is_key self other }
    {
        other.tag == self.tag && other.number == self.number
    }
}

// Where a key stands in the list.
fn find_late(late: &[Key], key: Key) -> Option<usize>
    ensures { MatchOption result (count_by (is_key key) late.now ≡ 0)
        (λ i. (i < length late.now) × ((d : Key) → is_key key (slice_index_or late.now i d) ≡ true)) }
{
    for (i, other) in late.iter().enumerate() {
        if key.is(*other) {
            return Some(i);
        }
    }
    None
}

// Counts one more at a number, which has less than so many, and returns whether it has an entry.
fn raise_entry(counts: &mut Table<u128>, number: u64, most: usize) -> bool
    requires { count_at counts.old number < most }
    ensures each { OnTrue result ((n : ℕ) → count_at counts.new n ≡ count_at counts.old n + one_if (number == n)) }
    ensures total { OnTrue result (sum (values_of counts.new) ≡ sum (values_of counts.old) + 1) }
    ensures none { OnFalse result ((has_entry counts.old number ≡ false) × (counts.new ≡ counts.old)) }
{
    let Some(count) = counts.get_mut(number) else {
        return false;
    };
    *count += 1;
    true
}

// Counts one less at a number, unless it counts none, and returns whether it did.
#[tactic(auto, using(sentry_plain::proofs::ChangeLemmas::changed_same))]
fn lower_entry(counts: &mut Table<u128>, number: u64) -> bool
    ensures each { OnTrue result ((n : ℕ) → count_at counts.old n ≡ count_at counts.new n + one_if (number == n)) }
    ensures total { OnTrue result (sum (values_of counts.old) ≡ sum (values_of counts.new) + 1) }
    ensures none { OnFalse result ((count_at counts.old number ≡ 0) × (counts.new ≡ counts.old)) }
{
    let Some(count) = counts.get_mut(number) else {
        return false;
    };
    if *count == 0 {
        return false;
    }
    *count -= 1;
    true
}

// What stands at a number.
fn count_at(counts: &Table<u128>, number: u64) -> u128
    ensures { result ≡ count_at counts.now number }
{
    match counts.get(number) {
        Some(count) => *count,
        None => 0,
    }
}

impl Tally {
    /// The tally of no layers, for an engine with this tag. It takes no memory.
    pub fn new(alloc: Global, tag: u64) -> Tally
        ensures each { (key : Key) → tally_at result key ≡ 0 }
        ensures total { tally_total result ≡ 0 }
    {
        Tally {
            tag,
            counts: Table::new(alloc),
            late: Vec::new(alloc),
        }
    }

    /// Whether a layer names the record of a key.
    pub fn is_named(&self, key: Key) -> bool
        ensures { result ≡ nat_lt 0 (tally_at self.now key) }
    {
        if key.tag == self.tag && count_at(&self.counts, key.number) > 0 {
            return true;
        }
        match find_late(self.late.as_slice(), key) {
            None => false,
            Some(_place) => true,
        }
    }

    /// Makes room for the names of this many layers.
    pub fn reserve(&mut self, layers: usize) -> Result<(), AllocError>
        ensures keeps { Keeps self.old self.new }
        ensures ok { OnOk result (layers ≤ vec_capacity self.new.late) }
    {
        self.late.reserve(layers)
    }

    /// One more layer names this record, if any. It takes no memory.
    pub fn raise(&mut self, name: Option<Key>)
        requires { tally_total self.old < vec_capacity self.old.late }
        ensures { Raises self.old self.new name }
    {
        let Some(key) = name else {
            return;
        };
        let most = self.late.capacity();
        if key.tag == self.tag && raise_entry(&mut self.counts, key.number, most) {
            return;
        }
        self.late.push_reserved(key);
    }

    /// One layer less names this record, if any. It takes no memory.
    pub fn lower(&mut self, name: Option<Key>)
        requires { (key : Key) → name ≡ Some key → 0 < tally_at self.old key }
        ensures { Lowers self.old self.new name }
    {
        let Some(key) = name else {
            return;
        };
        if key.tag == self.tag && lower_entry(&mut self.counts, key.number) {
            return;
        }
        let Some(i) = find_late(self.late.as_slice(), key) else {
            unreachable!()
        };
        self.late.remove(i);
    }

    /// Whether the list is so short that names may as well stand there.
    pub fn is_short(&self) -> bool {
        self.late.len() < FEW
    }

    /// Makes an entry for a number, so that further names of it are counted there.
    pub fn expect(&mut self, number: u64) -> Result<(), AllocError>
        ensures keeps { Keeps self.old self.new }
        ensures ok { OnOk result (has_entry self.new.counts number ≡ true) }
    {
        if let Some(_count) = self.counts.get(number) {
            return Ok(());
        }
        self.counts.insert(number, 0)?;
        Ok(())
    }

    /// The same for the record of a name, if it is of this engine.
    pub fn expect_name(&mut self, name: Option<Key>) -> Result<(), AllocError>
        ensures { Keeps self.old self.new }
    {
        let Some(key) = name else {
            return Ok(());
        };
        if key.tag != self.tag {
            return Ok(());
        }
        self.expect(key.number)
    }

    /// Gives up the entry of a number that no layer names. It takes no memory.
    pub fn forget(&mut self, number: u64)
        ensures { Keeps self.old self.new }
    {
        let Some(count) = self.counts.get(number) else {
            return;
        };
        if *count != 0 {
            return;
        }
        self.counts.remove(number);
    }
}
