//! The entries of a map from texts, one by one.
ghost use Rattle.std.specs.Prelude.{◌≡◌, ◌++◌, []};
ghost use Rattle.std.specs.Map.Iter.{TakesFirst, deref_pair};
ghost use Rattle.std.specs.Slice.Iter.{iter_rest};
ghost use Rattle.sentry_plain.specs.Parts.{joined};

use super::part::Part;
use crate::shared::Shared;
use crate::text::Text;
use std::marker::Model;
use std::slice;

/// The entries of a map from texts that are left, in the order of the keys' bytes. Contracts see them as a list.
#[derive(Drop)]
pub struct TextMapIter<'a, V> {
    // Those of a part.
    part: slice::Iter<'a, (Text, V)>,
    // The parts after it.
    others: slice::Iter<'a, Shared<Part<V>>>,
}

impl<'a, V> Model for TextMapIter<'a, V> {
    ghost use Rattle.std.specs.Prelude.{List, ◌++◌};
    ghost use Rattle.std.specs.Slice.Iter.{iter_rest};
    ghost use Rattle.sentry_plain.specs.Parts.{joined};
    ghost use Rattle.sentry_plain.specs.Texts.{Bytes};

    ghost Value = { List (Bytes × V) };

    ghost view = { λ a. iter_rest a.part ++ joined (iter_rest a.others) };
}

impl<'a, V> TextMapIter<'a, V> {
    pub(crate) fn new(part: &'a [(Text, V)], others: &'a [Shared<Part<V>>]) -> Self
        ensures { result ≡ part.now ++ joined others.now }
    {
        TextMapIter {
            part: part.iter(),
            others: others.iter(),
        }
    }

    pub(crate) fn empty() -> Self
        ensures { result ≡ [] }
    {
        TextMapIter::new(&[], &[])
    }
}

impl<'a, V> Iterator for TextMapIter<'a, V> {
    type Item = (&'a str, &'a V);

    ghost use Rattle.std.specs.Prelude.{length};
    ghost use Rattle.std.specs.Iterator.{at_most};

    ghost next_gives = { TakesFirst deref_pair };

    ghost remaining = { λ s. at_most (length s) };

    fn next(&mut self) -> Option<(&'a str, &'a V)> {
        match self.part.next() {
            Some(entry) => Some((entry.0.as_str(), &entry.1)),
            None => next_of(&mut self.part, &mut self.others),
        }
    }
}

// The first entry of the parts. What its part has besides is left of the part.
fn next_of<'a, V>(
    part: &mut slice::Iter<'a, (Text, V)>,
    others: &mut slice::Iter<'a, Shared<Part<V>>>,
) -> Option<(&'a str, &'a V)>
    requires { iter_rest part.old ≡ [] }
    ensures { TakesFirst deref_pair (joined (iter_rest others.old)) result (iter_rest part.new ++ joined (iter_rest others.new)) }
{
    while let Some(share) = others.next() {
        let mut entries = share.get().as_slice().iter();
        if let Some(entry) = entries.next() {
            *part = entries;
            return Some((entry.0.as_str(), &entry.1));
        }
    }
    None
}
