//! Variables of the environment, and the options of a client that they set.
ghost use Rattle.std.specs.Prelude.{◌≡◌, IfOk, IfErr};
ghost use Rattle.sentry_options.specs.Environments.{IsSetBy};

use crate::clientoptions::{ClientCallbacks, ClientOptions};
use crate::decimals::parse_rate;
use sentry_base::protocol::Refusal;
use std::alloc::AllocGlobal;
use std::env::VarError;
use std::error::Error;
use std::rt::Env;
use std::{env, fmt};

/// A variable that sets an option.
#[derive(Clone, Copy, Debug, PartialEq, Eq)]
pub enum Variable {
    /// `SENTRY_DSN`.
    Dsn,
    /// `SENTRY_RELEASE`.
    Release,
    /// `SENTRY_ENVIRONMENT`.
    Environment,
    /// `SENTRY_SAMPLE_RATE`, a decimal from 0 to 1.
    SampleRate,
    /// `SENTRY_TRACES_SAMPLE_RATE`, a decimal from 0 to 1.
    TracesSampleRate,
}

impl Variable {
    /// The name of the variable.
    pub fn name(&self) -> &'static str {
        match self {
            Variable::Dsn => "SENTRY_DSN",
            Variable::Release => "SENTRY_RELEASE",
            Variable::Environment => "SENTRY_ENVIRONMENT",
            Variable::SampleRate => "SENTRY_SAMPLE_RATE",
            Variable::TracesSampleRate => "SENTRY_TRACES_SAMPLE_RATE",
        }
    }
}

/// What is wrong with a variable.
#[derive(Clone, Copy, Debug, PartialEq, Eq)]
pub enum Fault {
    /// It is not UTF-8.
    NotUnicode,
    /// The option refuses it, or there is no memory.
    Refused(Refusal),
}

/// Why the options were not read, and the variable at which that was.
#[derive(Clone, Copy, Debug, PartialEq, Eq)]
pub struct EnvironmentError {
    pub variable: Variable,
    pub fault: Fault,
}

impl fmt::Display for EnvironmentError {
    fn fmt<W: fmt::Write>(&self, f: &mut fmt::Formatter<W>) -> fmt::Result {
        f.write_str(self.variable.name())?;
        match self.fault {
            Fault::NotUnicode => f.write_str(": not UTF-8"),
            Fault::Refused(refusal) => write!(f, ": {refusal}"),
        }
    }
}

impl Error for EnvironmentError {}

// The options with the DSN of a text.
fn set_dsn<C: Drop>(options: ClientOptions<C>, text: &str) -> Result<ClientOptions<C>, Refusal>
    ensures { IfOk result (λ made. IsSetBy Variable.Dsn text.now options made) }
{
    let made = options.dsn(text)?;
    Ok(made)
}

// The options with the rate of events that a decimal writes.
fn set_sample_rate<C: Drop>(
    options: ClientOptions<C>,
    text: &str,
) -> Result<ClientOptions<C>, Refusal>
    ensures { IfOk result (λ made. IsSetBy Variable.SampleRate text.now options made) }
{
    match parse_rate(text) {
        Some(rate) => options.sample_rate(rate),
        None => Err(Refusal::InvalidRate),
    }
}

// The options with the rate of traces that a decimal writes.
fn set_traces_sample_rate<C: Drop>(
    options: ClientOptions<C>,
    text: &str,
) -> Result<ClientOptions<C>, Refusal>
    ensures { IfOk result (λ made. IsSetBy Variable.TracesSampleRate text.now options made) }
{
    match parse_rate(text) {
        Some(rate) => options.traces_sample_rate(rate),
        None => Err(Refusal::InvalidRate),
    }
}

// The options as a variable sets them.
fn set_option<C: Drop>(
    options: ClientOptions<C>,
    variable: Variable,
    text: &str,
) -> Result<ClientOptions<C>, Refusal>
    ensures { IfOk result (λ made. IsSetBy variable text.now options made) }
{
    match variable {
        Variable::Dsn => set_dsn(options, text),
        Variable::Release => options.release(text),
        Variable::Environment => options.environment(text),
        Variable::SampleRate => set_sample_rate(options, text),
        Variable::TracesSampleRate => set_traces_sample_rate(options, text),
    }
}

/// The options as a variable with this text sets them.
///
/// `Refused` with the variable: `InvalidDsn`, `InvalidRate`, `OutOfMemory`.
pub fn with_variable<C: Drop>(
    options: ClientOptions<C>,
    variable: Variable,
    text: &str,
) -> Result<ClientOptions<C>, EnvironmentError>
    ensures set { IfOk result (λ made. IsSetBy variable text.now options made) }
    ensures named { IfErr result (λ error. error.variable ≡ variable) }
{
    match set_option(options, variable, text) {
        Ok(made) => Ok(made),
        Err(refusal) => Err(EnvironmentError {
            variable,
            fault: Fault::Refused(refusal),
        }),
    }
}

// The options as a variable of the environment sets them. One that is missing or empty sets nothing.
fn read<C: Drop, R: Env + AllocGlobal>(
    rt: &R,
    options: ClientOptions<C>,
    variable: Variable,
) -> Result<ClientOptions<C>, EnvironmentError>
    ensures { IfErr result (λ error. error.variable ≡ variable) }
{
    let fault = match env::var(rt, variable.name()) {
        Ok(text) => {
            if text.is_empty() {
                return Ok(options);
            }
            return with_variable(options, variable, text.as_str());
        }
        Err(VarError::NotPresent) => return Ok(options),
        Err(VarError::NotUnicode) => Fault::NotUnicode,
        Err(VarError::OutOfMemory) => Fault::Refused(Refusal::OutOfMemory),
    };
    Err(EnvironmentError { variable, fault })
}

/// Options that the environment sets.
pub trait FromEnv: Sized {
    /// The default options with what `SENTRY_DSN`, `SENTRY_RELEASE`, `SENTRY_ENVIRONMENT`, `SENTRY_SAMPLE_RATE` and
    /// `SENTRY_TRACES_SAMPLE_RATE` say. A variable that is missing or empty sets nothing.
    ///
    /// The first variable that isn't UTF-8, a DSN or a rate: see `parse_rate`. `OutOfMemory`.
    fn from_env<R: Env + AllocGlobal>(rt: &R) -> Result<Self, EnvironmentError>;
}

impl<E: Drop, I: Drop, B: Drop, L: Drop, M: Drop, T: Drop> FromEnv
    for ClientOptions<ClientCallbacks<E, I, B, L, M, T>> {
    fn from_env<R: Env + AllocGlobal>(
        rt: &R,
    ) -> Result<ClientOptions<ClientCallbacks<E, I, B, L, M, T>>, EnvironmentError> {
        let options = ClientOptions::new(rt.alloc());
        let options = read(rt, options, Variable::Dsn)?;
        let options = read(rt, options, Variable::Release)?;
        let options = read(rt, options, Variable::Environment)?;
        let options = read(rt, options, Variable::SampleRate)?;
        read(rt, options, Variable::TracesSampleRate)
    }
}
