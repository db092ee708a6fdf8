//! Writes the message of a fault as an entry of a log.
ghost use Rattle.std.specs.Prelude.{◌≡◌, ◌++◌, codes, string_bytes, OnOk};
ghost use Rattle.duration_str_refusals.specs.Messages.{EndsInsideLine, message_of};

use duration_str::Fault;
use duration_str::laws::last_line;
use std::alloc::{AllocError, Allocator};

/// Adds the message of a fault and one line feed to a log. No message ends with a line feed, so
/// each entry ends with exactly one.
///
/// ```text
/// add_entry(&mut log, &fault) // adds "overflow error\n"
/// ```
pub fn add_entry<A: Allocator>(log: &mut String<A>, fault: &Fault<'_>) -> Result<(), AllocError>
    ensures entry { OnOk result (string_bytes log.new
        ≡ string_bytes log.old ++ (message_of fault.now.text.now fault.now.cause ++ codes "\n")) }
    ensures last_line { EndsInsideLine (message_of fault.now.text.now fault.now.cause) }
{
    last_line();
    writeln!(log, "{fault}")
}
