//! A line read as a command.

ghost use Rattle.std.specs.Prelude.{◌≡◌, ◌≤◌, Err, IfOk, None, Ok, Some, length};
ghost use Rattle.serde_json.specs.View.{view};
ghost use Rattle.query_lines.specs.Commands.{command_of};
ghost use Rattle.query_lines.specs.Objects.{value_of_line};
ghost use Rattle.query_lines.specs.Weights.{weight};
ghost use Rattle.query_lines.specs.WellFormed.{IsWellFormed, line_limit};

use crate::fault::Fault;
use crate::{Command, LineError, commands_read};
use serde_json::Value;
use std::alloc::Global;

/// The JSON value of a line.
fn value_of(alloc: Global, line: &[u8]) -> Result<Value, Fault>
    ensures ok { IfOk result (λ v. value_of_line line.now ≡ Some (view v)) }
    ensures shape { result ≡ Err Fault.Shape → value_of_line line.now ≡ None }
    ensures short { IfOk result (λ v. weight (view v) ≤ length line.now) }
{
    match Value::from_slice(alloc, line) {
        Ok(value) => Ok(value),
        Err(e) => {
            if e.is_memory() {
                return Err(Fault::Memory);
            }
            Err(Fault::Shape)
        }
    }
}

fn read_command(alloc: Global, line: &[u8]) -> Result<Command, Fault>
    ensures ok { IfOk result (λ c. command_of line.now ≡ Some c) }
    ensures shape { result ≡ Err Fault.Shape → command_of line.now ≡ None }
    ensures well_formed { IfOk result (λ c. length line.now ≤ line_limit → IsWellFormed c) }
{
    commands_read::command_of(alloc, value_of(alloc, line)?)
}

/// The command of a line, which stands without its newline.
///
/// A line is one JSON object in UTF-8, read as `serde_json` reads it: of a key that stands twice the last value counts. The object
/// has exactly the keys of a row of commands, and a number is a whole one below 2^64.
/// `Syntax` where the line is of no row. `OutOfMemory` where memory is wanting.
/// The strings of texts are moved out of the parsed value, not copied. Time is linear in the line's length.
pub fn read_line(alloc: Global, line: &[u8]) -> Result<Command, LineError>
    ensures ok { IfOk result (λ c. command_of line.now ≡ Some c) }

    // Refused by the line alone.
    ensures syntax { result ≡ Err LineError.Syntax → command_of line.now ≡ None }

    // A line within the limit of lines gives commands that every call above can take.
    ensures well_formed { length line.now ≤ line_limit → IfOk result IsWellFormed }
{
    match read_command(alloc, line) {
        Ok(command) => Ok(command),
        Err(Fault::Shape) => Err(LineError::Syntax),
        Err(Fault::Memory) => Err(LineError::OutOfMemory),
    }
}
