//! What can be the value of an attribute of a log, and a log that is filled in part by part.
use sentry_base::protocol::LogLevel;
use sentry_batches::ToValue;
use sentry_batches::log_draft::LogDraft;
use sentry_plain::{Text, Value};
use std::alloc::{AllocError, Global};
use std::test::Fail;

/// Whether the attribute of a value is this one.
fn is_given<V: ToValue>(alloc: Global, value: &V, given: &Value) -> bool {
    match value.to_value(alloc) {
        Ok(made) => made == *given,
        Err(_) => false,
    }
}

/// Whether each type of texts gives its text, and a value itself.
fn are_texts_given(alloc: Global) -> Result<bool, AllocError> {
    let string = String::from_str(alloc, "seven")?;
    let text = Text::new(alloc, "seven")?;
    let value = Value::Text(text.clone()?);
    Ok(
        is_given(alloc, &"seven", &value)
            & is_given(alloc, &string, &value)
            & is_given(alloc, &text, &value)
            & is_given(alloc, &value, &value),
    )
}

#[test]
fn numbers_and_texts_are_values(rt: HostRuntime) -> Result<(), Fail> {
    let alloc = rt.alloc();
    let (seven, minus) = (Value::Int(7), Value::Int(-7));
    let are_given = is_given(alloc, &7u8, &seven)
        & is_given(alloc, &7u16, &seven)
        & is_given(alloc, &7u32, &seven)
        & is_given(alloc, &7u64, &seven)
        & is_given(alloc, &7usize, &seven)
        & is_given(alloc, &-7i8, &minus)
        & is_given(alloc, &-7i16, &minus)
        & is_given(alloc, &-7i32, &minus)
        & is_given(alloc, &-7i64, &minus)
        & is_given(alloc, &-7i128, &minus)
        & is_given(alloc, &true, &Value::Bool(true));
    assert!(rt; are_given & are_texts_given(alloc)?);
    Ok(())
}

#[test]
fn a_log_is_filled_in(rt: HostRuntime) -> Result<(), Fail> {
    let alloc = rt.alloc();
    let log = LogDraft::new(alloc, LogLevel::Info, 5)
        .attribute("shelf", &7u8)
        .template("{} lamps")
        .parameter(&2u64)
        .body(String::from_str(alloc, "2 lamps"))?;
    assert!(rt; log.body.as_str() == "2 lamps" && log.attributes.len() == 3);
    Ok(())
}
