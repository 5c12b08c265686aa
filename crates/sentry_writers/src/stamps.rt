//! The names of the files of a spool, in the order in which they were made.
ghost use Rattle.std.specs.Prelude.{◌≡◌, ◌++◌, IfOk, IfSome, OnOk, string_bytes};
ghost use Rattle.sentry_writers.specs.Stamps.{digits, stamp_text, file_name, partial_name, IsNext};

use sentry_base::clock::Clock;
use std::alloc::{AllocError, Global};

/// How the name of a file ends that has a whole envelope.
pub const ENDING: &str = ".envelope";

/// How the name of a file ends that is being written.
pub const PARTIAL_ENDING: &str = ".part";

/// The name of the file by which a folder is tried. No stamp has it, since they count from 1.
pub const TRIAL_NAME: &str = "00000000000000000000-00000000000000000000.part";

const DIGITS: usize = 20;

/// When a file was made, in nanoseconds since the epoch, and as which.
#[derive(Clone, Copy, Debug, PartialEq, Eq)]
pub struct Stamp {
    pub moment: u64,
    pub count: u64,
}

// The last so many decimal digits.
#[tactic(auto, using(crate::proofs::DigitLemmas::no_digits, crate::proofs::DigitLemmas::more_digits))]
fn push_digits(out: &mut String, number: u64, width: usize) -> Result<(), AllocError>
    ensures { OnOk result (string_bytes out.new ≡ string_bytes out.old ++ digits width number) }
{
    if width == 0 {
        return Ok(());
    }
    push_digits(out, number / 10, width - 1)?;
    out.push((b'0' + (number % 10) as u8) as char)?;
    Ok(())
}

impl Stamp {
    fn text(self, alloc: Global) -> Result<String, AllocError>
        ensures { IfOk result (λ text. string_bytes text ≡ stamp_text self) }
    {
        let mut text = String::new(alloc);
        push_digits(&mut text, self.moment, DIGITS)?;
        text.push('-')?;
        push_digits(&mut text, self.count, DIGITS)?;
        Ok(text)
    }

    /// The name of the file: both numbers, each of 20 digits, with `-` between them, and `.envelope`.
    pub fn file_name(self, alloc: Global) -> Result<String, AllocError>
        ensures { IfOk result (λ name. string_bytes name ≡ file_name self) }
    {
        let mut name = self.text(alloc)?;
        name.push_str(ENDING)?;
        Ok(name)
    }

    /// The name that the file has while it is written: the same, with `.part` for `.envelope`.
    pub fn partial_name(self, alloc: Global) -> Result<String, AllocError>
        ensures { IfOk result (λ name. string_bytes name ≡ partial_name self) }
    {
        let mut name = self.text(alloc)?;
        name.push_str(PARTIAL_ENDING)?;
        Ok(name)
    }
}

/// Makes stamps, each later than those before it, though the clock may go back.
#[derive(Drop)]
pub struct Stamps<K> {
    clock: K,
    pub last: Stamp,
}

impl<K: Clock> Stamps<K> {
    /// The next stamp will be the first.
    pub fn new(clock: K) -> Stamps<K>
        ensures { result.last ≡ record { moment = 0; count = 0 } }
    {
        let last = Stamp {
            moment: 0,
            count: 0,
        };
        Stamps { clock, last }
    }

    /// The next stamp, or `None` after 2^64 - 1 of them.
    pub fn next(&mut self) -> Option<Stamp>
        ensures later { IfSome result (λ stamp. IsNext self.old.last stamp) }
        ensures last { IfSome result (λ stamp. self.new.last ≡ stamp) }
    {
        let count = self.last.count.checked_add(1)?;
        let moment = self.clock.now().max(self.last.moment);
        self.last = Stamp { moment, count };
        Some(self.last)
    }
}
