//! The words of a command line.
ghost use Rattle.std.specs.Prelude.{◌≡◌, ◌≢◌, IfOk, IsOk, IsErr, IsErrAnd};
ghost use Rattle.std.specs.IoError.{error_kind};
ghost use Rattle.tool_command.specs.Command.{texts};
ghost use Rattle.tool_program.specs.Words.{words_behind};

use std::alloc::{AllocError, Global};
use std::env::Args;
use std::io;
use std::io::ErrorKind;

/// The words behind the program's name. Arguments that can't be had ask for nothing, but where
/// memory ran out. It fails only for want of memory.
pub(crate) fn words_of(alloc: Global, args: io::Result<Args>) -> Result<Vec<String>, AllocError>
    ensures ok { IfOk result (λ words. texts words.items ≡ words_behind args) }
    ensures memory { IsErrAnd args (λ e. error_kind e ≡ ErrorKind.OutOfMemory) → IsErr result }
    ensures other { IsErrAnd args (λ e. error_kind e ≢ ErrorKind.OutOfMemory) → IsOk result }
{
    match args {
        Ok(args) => args.skip(1).collect(alloc),
        Err(e) if e.kind() == ErrorKind::OutOfMemory => Err(AllocError),
        Err(_) => Ok(Vec::new(alloc)),
    }
}
