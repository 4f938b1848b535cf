//! Opening a session.
ghost use Rattle.std.specs.Prelude.{◌≡◌, ◌≤◌, true, length, IfOk, IfErr};
ghost use Rattle.std.specs.List.{AllByRecursion};
ghost use Rattle.kb_edge.specs.Causes.{Rose};
ghost use Rattle.kb_log.specs.Images.{EachImage};
ghost use Rattle.kb_ops.specs.Grammar.{IsProper};
ghost use Rattle.kb_journal.specs.State.{HasState};
ghost use Rattle.kb_folder.specs.Held.{held, is_member};
ghost use Rattle.kb_device.specs.Fresh.{IsOwned};
ghost use Rattle.kb_device.specs.Inside.{IsRunning};
ghost use Rattle.kb_device.specs.Left.{PointsAll};
ghost use Rattle.kb_device.specs.Views.{inside, platter, read_of};
ghost use Rattle.kb_device.specs.Opening.{CanStart, taken_by, caught_by};
ghost use Rattle.kb_device.specs.Opened.{started, Resumes, StopsResuming, Begins, OpenFails};
ghost use Rattle.kb_device.specs.Sizes.{IsSized};
ghost use Rattle.kb_device.specs.declared.answers.OpenFault.TheVariants as fault;

use crate::answers::OpenFault;
use crate::opening::{Start, StartFault, catch_up, find_start, take_over};
use crate::session::Session;
use kb_blocks::BlockHash;
use kb_edge::Disk;
use kb_folder::Folder;
use kb_journal::{Journal, JournalFault};
use kb_seal::{Key, Sealer};
use std::alloc::Global;

// Notes what is taken over and then the head, and makes the session. Where the disk stops, it is given back.
fn resume<D: Disk, H: BlockHash>(journal: Journal<D>, start: Start<H>) -> Result<Session<D, H>, D>
    requires opened { journal.is_open ≡ true }
    requires durable { EachImage D.content D.dirty journal.disk (HasState journal.state) }
    requires proper { AllByRecursion IsProper journal.state.queue }
    requires can { CanStart journal.state.known journal.state.queue start.taking (read_of start.head) start.head.shown.tree }
    requires pointed { PointsAll start.head.base.tree start.head.pointers }
    ensures session { IfOk result (λ s. inside s ≡ started journal.state start.taking (read_of start.head) start.head.shown.tree start.head.role) }
    ensures running { IfOk result (λ s. IsRunning (inside s)) }
    ensures opened { IfOk result (λ s. s.journal.is_open ≡ true) }
    ensures writes { IfOk result (λ s. Resumes 8 (caught_by (taken_by journal.state start.taking) (read_of start.head)) (platter D.Disk journal.disk) (platter D.Disk s.journal.disk)) }
    ensures stops { IfErr result (λ disk. StopsResuming 8 journal.state (taken_by journal.state start.taking) (caught_by (taken_by journal.state start.taking) (read_of start.head)) (platter D.Disk journal.disk) (platter D.Disk disk)) }
    ensures rose { IfErr result (λ disk. Rose (D.faults journal.disk) (D.faults disk)) }
{
    let Start { taking, head } = start;
    let journal = match take_over(journal, &taking) {
        Ok(journal) => journal,
        Err(disk) => return Err(disk),
    };
    let journal = match catch_up(journal, &head) {
        Ok(journal) => journal,
        Err(disk) => return Err(disk),
    };
    Ok(Session {
        journal,
        base: head.base,
        ahead: 0,
        shown: head.shown,
        pointers: head.pointers,
        cache: head.cache,
        written: None,
        ring: head.ring,
        generation: head.generation,
        role: head.role,
        aloft: None,
        plan: None,
    })
}

impl<D: Disk, H: BlockHash> Session<D, H> {
    /// Opens a session of the device with this number over a folder. Where it isn't opened, the disk is given back.
    pub fn open<S: Sealer>(
        alloc: Global,
        folder: &Folder<S, H>,
        d: u16,
        secret: &Key,
        disk: D,
    ) -> Result<Session<D, H>, (D, OpenFault)>
        requires sized { IsSized (length (D.content disk)) }
        requires numbered { 1 ≤ d }
        ensures member { IfOk result (λ s. is_member (held folder.now) d ≡ true) }
        ensures begins { IfOk result (λ s. Begins S.sealed S.signed H.hashed (held folder.now) d secret.now (platter D.Disk disk) (platter D.Disk s.journal.disk) (inside s)) }
        ensures running { IfOk result (λ s. IsRunning (inside s)) }
        ensures owned { IfOk result (λ s. IsOwned d (inside s)) }
        ensures opened { IfOk result (λ s. s.journal.is_open ≡ true) }
        ensures size { IfOk result (λ s. length (D.content s.journal.disk) ≡ length (D.content disk)) }
        ensures fails { IfErr result (λ e. OpenFails S.sealed S.signed H.hashed (held folder.now) d secret.now (platter D.Disk disk) (platter D.Disk e.0) e.1) }
        ensures rose { IfErr result (λ e. e.1 ≡ fault.Stopped → Rose (D.faults disk) (D.faults e.0)) }
        ensures size_err { IfErr result (λ e. length (D.content e.0) ≡ length (D.content disk)) }
    {
        let lent = match folder.fetch(d, 0) {
            Ok(lent) => lent,
            Err(_) => return Err((disk, OpenFault::NotMember)),
        };
        let journal = match Journal::open(alloc, disk) {
            Ok(journal) => journal,
            Err((disk, JournalFault::Stopped)) => return Err((disk, OpenFault::Stopped)),
            Err((disk, JournalFault::BadDisk)) => return Err((disk, OpenFault::BadDisk)),
            Err((disk, JournalFault::Memory)) => return Err((disk, OpenFault::Memory)),
        };
        let known = journal.known();
        let start = match find_start(
            alloc,
            folder,
            d,
            secret,
            lent,
            known,
            journal.known_hash(),
            journal.queue(),
            journal.last(),
        ) {
            Ok(start) => start,
            Err(StartFault::Foreign) => return Err((
                journal.finish(),
                OpenFault::Foreign { known },
            )),
            Err(StartFault::BadFolder { number }) => {
                return Err((journal.finish(), OpenFault::BadFolder { number }));
            }
            Err(StartFault::Memory) => return Err((journal.finish(), OpenFault::Memory)),
        };
        match resume(journal, start) {
            Ok(session) => Ok(session),
            Err(disk) => Err((disk, OpenFault::Stopped)),
        }
    }
}
