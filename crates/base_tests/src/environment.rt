//! Options from the environment.
use sentry_base::protocol::Refusal;
use sentry_options::environment::{Fault, FromEnv, Variable, with_variable};
use sentry_options::{ClientCallbacks, ClientOptions};
use std::alloc::Global;
use std::test::Fail;

/// Options with numbers in the place of callbacks.
type Options = ClientOptions<ClientCallbacks<u8, u8, u8, u8, u8, u8>>;

// What is wrong with a variable of this text. What it sets is a contract.
fn fault_of(alloc: Global, variable: Variable, text: &str) -> Option<Fault> {
    match with_variable(Options::new(alloc), variable, text) {
        Ok(_) => None,
        Err(error) => Some(error.fault),
    }
}

#[test]
fn variables_set_options(rt: HostRuntime) -> Result<(), Fail> {
    let alloc = rt.alloc();
    assert!(rt; Options::from_env(&rt).is_ok());
    assert!(rt; fault_of(alloc, Variable::SampleRate, "0.1").is_none());
    assert!(rt; fault_of(alloc, Variable::TracesSampleRate, "0.000001").is_none());
    assert!(rt; fault_of(alloc, Variable::Release, "shop@1.0.0").is_none());
    let fault = fault_of(alloc, Variable::SampleRate, "1.1");
    assert!(rt; fault == Some(Fault::Refused(Refusal::InvalidRate)));
    Ok(())
}
