//! The whole of a source.
ghost use Rattle.std.specs.Prelude.{◌≡◌, ◌≤◌, IfOk, IsErrOf};
ghost use Rattle.kb_edge.specs.Causes.{Rose};
ghost use Rattle.kb_top.specs.Inputs.{IsInput};

use kb_edge::{Failed, Source};
use std::alloc::Global;

/// The longest script, in bytes.
pub const SCRIPT_LIMIT: usize = 1_048_576;

// How much is read at once, in bytes.
const PIECE: usize = 4096;

/// Why a source wasn't read to its end.
#[derive(Clone, Copy, Debug, PartialEq, Eq)]
pub enum ReadEnd {
    Failed,
    Memory,
}

/// Reads a source to its end, or to one byte more than a script may have.
pub fn read_all<S: Source>(alloc: Global, source: &mut S) -> Result<Vec<u8>, ReadEnd>
    ensures bytes { IfOk result (λ bytes. IsInput (S.left source.old) bytes.items) }
    ensures later { S.faults source.old ≤ S.faults source.new }
    ensures failed { IsErrOf result ReadEnd.Failed → Rose (S.faults source.old) (S.faults source.new) }
{
    let mut bytes = Vec::new(alloc);
    let mut buffer = [0u8; PIECE];
    'pieces: while bytes.len() <= SCRIPT_LIMIT {
        let room = (SCRIPT_LIMIT + 1 - bytes.len()).min(PIECE);
        match source.read(&mut buffer[..room]) {
            Ok(0) => return Ok(bytes),
            Ok(count) => {
                if bytes.extend_from_slice(&buffer[..count]).is_err() {
                    return Err(ReadEnd::Memory);
                }
            }
            Err(Failed) => return Err(ReadEnd::Failed),
        }
    }
    Ok(bytes)
}
