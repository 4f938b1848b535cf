//! Puts over a link.
ghost use Rattle.std.specs.Prelude.{◌≡◌, ℕ, Result, true, false, Err};
ghost use Rattle.kb_edge.specs.Causes.{Rose};
ghost use Rattle.kb_folder.specs.Held.{held};
ghost use Rattle.kb_chain.specs.declared.states.PutRefusal.{PutRefusal as Why};
ghost use Rattle.kb_chain.specs.declared.states.PutRefusal.TheVariants as why;
ghost use Rattle.kb_device.specs.Links.{PutsOver};
ghost use Rattle.kb_device.specs.declared.linked.CarryFault.TheVariants as carry;

use kb_blocks::BlockHash;
use kb_chain::{FolderRequest, PutRefusal};
use kb_edge::{Link, Lost};
use kb_folder::Folder;
use kb_seal::Sealer;

/// Why a put over a link has no answer.
#[derive(Clone, Copy, Debug, PartialEq, Eq)]
pub enum CarryFault {
    /// The folder lacked memory, and did nothing.
    Memory,
    /// The link lost the request, or the reply.
    Lost,
}

// Whether a put was refused for want of memory.
fn lacks_memory(answer: &Result<u32, PutRefusal>) -> bool
    ensures lacks { result ≡ true → answer.now ≡ Err why.Memory }
    ensures other { result ≡ false → answer.now ≡ Err why.Memory → ⊥ }
{
    matches!(answer, Err(PutRefusal::Memory))
}

/// Whether the link lost something, and the folder didn't lack memory.
pub fn has_lost(fault: CarryFault) -> bool
    ensures lost { result ≡ true → fault ≡ carry.Lost }
    ensures other { result ≡ false → fault ≡ carry.Memory }
{
    matches!(fault, CarryFault::Lost)
}

/// Puts a request over a link: the folder answers where the request isn't lost, and its answer comes back where the reply
/// isn't.
pub fn put_over<S: Sealer, H: BlockHash, K: Link>(
    link: &mut K,
    folder: &mut Folder<S, H>,
    request: &FolderRequest,
) -> Result<Result<u32, PutRefusal>, CarryFault>
    ensures does { PutsOver S.signed H.hashed (held folder.old) request.now (held folder.new) (K.armed link.old) (K.armed link.new) result }
    ensures rose { result ≡ Err carry.Lost → Rose (K.faults link.old) (K.faults link.new) }
{
    match link.send() {
        Ok(()) => {}
        Err(Lost) => return Err(CarryFault::Lost),
    }
    let answer = folder.put(request);
    if lacks_memory(&answer) {
        return Err(CarryFault::Memory);
    }
    match link.answer() {
        Ok(()) => Ok(answer),
        Err(Lost) => Err(CarryFault::Lost),
    }
}
