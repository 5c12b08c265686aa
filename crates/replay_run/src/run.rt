//! A run over a whole input.
ghost use Rattle.std.specs.Prelude.{◌≡◌, IfOk};
ghost use Rattle.sentry_state.specs.Worlds.{Stands};
ghost use Rattle.replay_run.specs.Calls.{call_of};
ghost use Rattle.replay_run.specs.Engines.{ReplayWorld};
ghost use Rattle.replay_run.specs.Replays.{is_out_of_memory, MayAnswer, ExecutesLine, Writes};

use crate::call::{TAG, build_call};
use crate::command::{Command, parse_command};
use crate::engine::{ReplayAnswer, ReplayEngine};
use crate::fault::ReplayFault;
use crate::lines::next_line;
use crate::print::print_answer;
use crate::write::write_text;
use sentry_base::protocol::Refusal;
use sentry_engine::Engine;
use std::alloc::{AllocError, Global};
use std::io::{BufRead, Write};

fn is_out_of_memory(answer: &ReplayAnswer) -> bool
    ensures { result ≡ is_out_of_memory answer.now }
{
    match answer {
        Err(Refusal::OutOfMemory) => true,
        _ => false,
    }
}

// Executes the command on the line of this number, and gives the engine's answer.
fn execute(
    alloc: Global,
    engine: &mut ReplayEngine,
    number: u64,
    command: Command,
) -> Result<ReplayAnswer, AllocError>
    ensures { IfOk result (λ answer. (world : ReplayWorld) → Stands engine.old world →
        (next : ReplayWorld) × MayAnswer world (call_of number command) answer next × Stands engine.new next) }
{
    let call = build_call(alloc, number, command)?;
    let answer = engine.apply(call);
    if is_out_of_memory(&answer) {
        return Err(AllocError);
    }
    Ok(answer)
}

// Executes one line, and writes what it prints. `text` is room for that, used again for each line.
fn execute_line<W: Write>(
    alloc: Global,
    engine: &mut ReplayEngine,
    number: u64,
    line: &[u8],
    text: &mut String,
    writer: &mut W,
) -> Result<(), ReplayFault>
    ensures { ExecutesLine engine.old engine.new (W.contents writer.old) (W.contents writer.new)
        number line.now result }
{
    if line.is_empty() {
        return Ok(());
    }
    let Some(command) = parse_command(alloc, line)? else {
        return Err(ReplayFault::BadCommand(number));
    };
    let answer = execute(alloc, engine, number, command)?;
    text.clear();
    print_answer(&answer, text)?;
    write_text(writer, text.as_bytes())
}

/// Reads commands, one a line, executes them on a new engine, and writes one line for each envelope.
///
/// Each line is read, executed and printed before the next one is read, so the memory in use is that of the engine and
/// of the longest line.
///
/// # Errors
///
/// `BadCommand` on a line that isn't empty and spells no command, `OutOfMemory` where memory is refused, `InputOutput`
/// where a read or a write fails, or after 2^64-1 lines. What was written then is what the lines before print. After a
/// failed write a beginning of what its line prints follows.
pub fn run_replay<R: BufRead, W: Write>(
    alloc: Global,
    reader: &mut R,
    writer: &mut W,
) -> Result<(), ReplayFault>
    ensures { Writes (R.remaining reader.old) (R.remaining reader.new)
        (W.contents writer.old) (W.contents writer.new) result }
{
    let mut engine = Engine::new(alloc, TAG);
    let mut line = Vec::new(alloc);
    let mut text = String::new(alloc);
    for index in 0..u64::MAX {
        if !next_line(reader, &mut line)? {
            return Ok(());
        }
        execute_line(
            alloc,
            &mut engine,
            index + 1,
            line.as_slice(),
            &mut text,
            writer,
        )?;
    }
    Err(ReplayFault::InputOutput)
}
