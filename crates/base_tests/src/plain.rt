//! The containers that records are made of: calls that no product code makes, clones, and `==`.
use crate::records::is_its_clone;
use sentry_plain::{
    Boxed, Items, PlainString, Table, Text, TextMap, Value, ValueMap, Values, is_same,
};
use std::alloc::{AllocError, Global};
use std::test::Fail;

/// `[1, middle, 3]`, of which the middle was put in last.
fn list(alloc: Global, middle: u64) -> Result<Items<u64>, AllocError> {
    let mut list: Items<u64> = Items::new(alloc);
    list.push(0)?;
    list.push(1)?;
    list.push(3)?;
    list.insert(2, middle)?;
    list.remove(0);
    Ok(list)
}

/// A table of that list.
fn table(alloc: Global, middle: u64) -> Result<Table<Items<u64>>, AllocError> {
    let mut table = Table::new(alloc);
    table.insert(9, list(alloc, middle)?)?;
    Ok(table)
}

/// `{"list": [1, text, {}]}`
fn nested_values(alloc: Global, text: &str) -> Result<ValueMap, AllocError> {
    let mut list = Values::new(alloc);
    list.push(Value::Int(1))?;
    list.push(Value::Text(Text::new(alloc, text)?))?;
    list.push(Value::Map(ValueMap::new(alloc)))?;
    let mut map = ValueMap::new(alloc);
    map.insert(Text::new(alloc, "list")?, Value::List(list))?;
    Ok(map)
}

// Of 0, 22, 23, 24, 63 and 64 bytes.
const TEXTS: [&str; 6] = [
    "",
    "a text of twenty-two b",
    "twenty-two b\u{fc}tes and 1",
    "a text of twenty-four by",
    "sixty-three bytes of a text that shares its memory with clones.",
    "sixty-four bytes of a text that owns its memory, as its clones..",
];

#[test]
fn texts_are_kept_in_place_or_not(rt: HostRuntime) -> Result<(), Fail> {
    let alloc = rt.alloc();
    for text in TEXTS {
        let kept = Text::new(alloc, text)?;
        let copy = kept.clone()?;
        assert!(rt; copy.as_str() == text && copy == kept);
        let again = Text::from_string(kept.into_string()?)?;
        assert!(rt; again.as_str() == text);
        let plain = PlainString::new(again.into_string()?);
        assert!(rt; plain.into_string().as_str() == text);
    }
    Ok(())
}

#[test]
fn a_map_is_written_beside_its_clones(rt: HostRuntime) -> Result<(), Fail> {
    let alloc = rt.alloc();
    let mut one = TextMap::new(alloc);
    one.insert(Text::new(alloc, "a")?, Text::new(alloc, "1")?)?;
    let mut other = one.clone()?;
    other.insert(Text::new(alloc, "b")?, Text::new(alloc, "2")?)?;
    assert!(rt; other.remove("a")?.is_some());
    assert!(rt; one.len() == 1 && one.get("a").is_some());
    assert!(rt; other.len() == 1 && other.get("b").is_some());
    Ok(())
}

#[test]
fn containers_begin_empty(rt: HostRuntime) -> Result<(), Fail> {
    let alloc = rt.alloc();
    let table: Table<u64> = Table::new(alloc);
    let values = Values::from_vec(Vec::new(alloc));
    assert!(rt; table.is_empty() && values.is_empty() && values.len() == 0);
    assert!(rt; values.into_vec().is_empty());
    Ok(())
}

#[test]
fn a_box_keeps_what_is_written(rt: HostRuntime) -> Result<(), Fail> {
    let mut boxed = Boxed::new(rt.alloc(), 1u64)?;
    *boxed.get_mut() = 2;
    assert!(rt; is_same(boxed.get(), &2));
    Ok(())
}

#[test]
fn containers_are_their_clones(rt: HostRuntime) -> Result<(), Fail> {
    let alloc = rt.alloc();
    assert!(rt; list(alloc, 2)?.as_slice() == [1, 2, 3].as_slice());
    assert!(rt; is_its_clone(table(alloc, 2)?, table(alloc, 4)?)?);
    assert!(rt; is_its_clone(nested_values(alloc, "one")?, nested_values(alloc, "two")?)?);
    Ok(())
}
