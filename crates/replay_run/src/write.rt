//! How a text is written.
ghost use Rattle.std.specs.Prelude.{◌≡◌, ◌≤◌, length, take, IfOk, IfErr};
ghost use Rattle.std.specs.Io.KnownBytes.{Appends, Keeps};
ghost use Rattle.replay_run.specs.Replays.{WritesText};

use crate::fault::ReplayFault;
use std::io::{ErrorKind, Write};

// Writes some of the bytes by one call, and answers how many that took: none where a signal interrupted it.
#[tactic(auto, using(sentry_framing::proofs::SendingLemmas::appends_kept, sentry_framing::proofs::SendingLemmas::keeps_appended))]
fn write_some<W: Write>(writer: &mut W, bytes: &[u8]) -> Result<usize, ReplayFault>
    ensures bound { IfOk result (λ n. n ≤ length bytes.now) }
    ensures written { IfOk result (λ n.
        Appends (W.contents writer.old) (W.contents writer.new) (take n bytes.now)) }
    ensures fault { IfErr result (λ fault.
        (fault ≡ ReplayFault.InputOutput) × Keeps (W.contents writer.old) (W.contents writer.new)) }
{
    match writer.write(bytes) {
        Ok(0) => Err(ReplayFault::InputOutput),
        Ok(count) => Ok(count),
        Err(error) => {
            if error.kind() == ErrorKind::Interrupted {
                return Ok(0);
            }
            Err(ReplayFault::InputOutput)
        }
    }
}

/// Writes the text, by as many calls of the writer as that takes. A call that a signal interrupts is made again.
///
/// # Errors
///
/// `InputOutput` where a call fails, or takes nothing. What the calls before it took stays written, once.
#[tactic(auto, using(sentry_framing::proofs::SendingLemmas::nothing_written, crate::proofs::WriteLemmas::all_written, crate::proofs::WriteLemmas::some_written))]
pub fn write_text<W: Write>(writer: &mut W, text: &[u8]) -> Result<(), ReplayFault>
    ensures { WritesText (W.contents writer.old) (W.contents writer.new) text.now result }
{
    let mut rest = text;
    for _ in 0..u64::MAX {
        if rest.is_empty() {
            return Ok(());
        }
        let count = write_some(writer, rest)?;
        rest = &rest[count..];
    }
    Err(ReplayFault::InputOutput)
}
