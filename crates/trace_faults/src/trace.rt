//! Why a trace can't be read.
ghost use Rattle.std.specs.Prelude.{ℕ};
ghost use Rattle.trace_text.specs.Trace.{lines_of, IsFirstOutside};
ghost use Rattle.trace_faults.specs.Faults.{IsFirstFault};

use crate::fault::LineFault;
use crate::line::fault_of_line;
use crate::pieces::first_line;

/// Why the line of this number, counted from 1, asks for nothing, which is the first that does so.
pub fn fault_at(text: &[u8], number: u64) -> LineFault
    requires { IsFirstOutside (lines_of text.now) number }
    ensures { IsFirstFault (lines_of text.now) number result }
{
    let mut rest = text;
    let mut passed = 1;
    while passed < number {
        let (_, after) = first_line(rest);
        rest = after;
        passed += 1;
    }
    let (line, _) = first_line(rest);
    fault_of_line(line)
}
