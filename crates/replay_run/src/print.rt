//! What is printed of answers.
ghost use Rattle.std.specs.Prelude.{◌≡◌, ◌++◌, OnOk, string_bytes};
ghost use Rattle.replay_run.specs.Answers.{answer_text};

use crate::engine::ReplayAnswer;
use replay_print::print::Print;
use std::alloc::AllocError;

/// Appends a line for each envelope of an answer, or one for its refusal.
pub fn print_answer(answer: &ReplayAnswer, text: &mut String) -> Result<(), AllocError>
    ensures { OnOk result (string_bytes text.new ≡ string_bytes text.old ++ answer_text answer.now) }
{
    match answer {
        Ok(out) => {
            for envelope in out.sent.as_slice() {
                envelope.print(text)?;
            }
            Ok(())
        }
        Err(refusal) => {
            let number = refusal.number();
            writeln!(text, "refused E{number}")
        }
    }
}
