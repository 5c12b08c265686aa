//! What an error and its causes tell, by each form in which they are captured.
use sentry_core::IntoErrorLinks;
use std::alloc::{AllocError, Global};
use std::error::Error;
use std::fmt;
use std::fmt::Display;
use std::test::Fail;

/// The error of a step.
#[derive(Debug, Drop)]
struct Failed(u8);

impl Display for Failed {
    fn fmt<W: fmt::Write>(&self, f: &mut fmt::Formatter<W>) -> fmt::Result {
        write!(f, "step {}", self.0)
    }
}

impl Error for Failed {}

// The links of an error as a text: what each prints for developers, and for users.
fn print_links<E: IntoErrorLinks>(alloc: Global, error: E) -> Result<String, AllocError> {
    let mut text = String::new(alloc);
    for link in error.into_error_links(alloc)? {
        write!(text, "{}: {}; ", link.debug, link.shown)?;
    }
    Ok(text)
}

#[test]
fn errors_tell_of_themselves_and_of_their_causes(rt: HostRuntime) -> Result<(), Fail> {
    let alloc = rt.alloc();
    let (outer, middle, inner) = (Failed(1), Failed(2), Failed(3));
    let alone = print_links(alloc, &outer)?;
    let caused = print_links(alloc, (&outer, &inner))?;
    let deep = print_links(alloc, (&outer, &middle, &inner))?;
    assert_eq!(rt; alone.as_str(), "Failed(1): step 1; ");
    assert_eq!(rt; caused.as_str(), "Failed(1): step 1; Failed(3): step 3; ");
    assert_eq!(rt;
        deep.as_str(),
        "Failed(1): step 1; Failed(2): step 2; Failed(3): step 3; "
    );
    Ok(())
}
