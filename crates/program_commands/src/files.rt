//! What the program reads of a spec file.

ghost use Rattle.std.specs.Prelude.{◌≡◌, ◌≤◌, IfOk, IfErr, IfSome, None, Option, List, ℕ, true, take, vec_len};
ghost use Rattle.program_commands.specs.Commands.{IsReadFault};

use book_commands::{FileReader, Opener};
use fault_texts::ProgramFault;
use spec_reader::MAX_BYTES;
use std::alloc::Global;
use transcripts::{Counted, ReadError};

/// One byte more than the longest spec file: a longer file is refused by what is read of it.
pub const MAX_SPEC_READ: usize = MAX_BYTES + 1;

/// The bytes of a spec file, as far as its reader looks at them.
pub(crate) fn read_spec_file<'a, O: Opener>(
    alloc: Global,
    opener: &O,
    path: &'a str,
) -> Result<Vec<u8>, ProgramFault<'a>>
    ensures short { IfOk result (λ bytes. vec_len bytes ≤ MAX_SPEC_READ) }
    ensures read { IfOk result (λ bytes. IfSome (O.bytes opener.now path.now) (λ known. bytes.items ≡ take MAX_SPEC_READ known)) }
    ensures unread { IfErr result (IsReadFault (O.bytes opener.now path.now) path.now) }
{
    let Some(reader) = opener.open(path) else {
        return Err(ProgramFault::Read { path });
    };
    let mut input = Counted::new(reader);
    match input.read_up_to(alloc, MAX_SPEC_READ) {
        Ok(bytes) => Ok(bytes),
        Err(ReadError::Fault) => Err(read_fault(path, input.into_inner().has_failed())),
        Err(ReadError::NoMemory) => Err(ProgramFault::NoMemory),
    }
}

/// A read fault is told of a reader that has failed. That no other is told of one is known to what reads, and not from its contract.
fn read_fault(path: &str, has_failed: bool) -> ProgramFault<'_>
    ensures { (known : Option (List ℕ)) → (has_failed ≡ true → known ≡ None) → IsReadFault known path.now result }
{
    if has_failed {
        return ProgramFault::Read { path };
    }
    ProgramFault::NoMemory
}
