//! Reading a directory's text.
ghost use Rattle.std.specs.Prelude.{◌≡◌};
ghost use Rattle.std.specs.Ordering.{nat_cmp, is_lt};
ghost use Rattle.std.specs.Cmp.Lexicographic.{slice_cmp};
ghost use Rattle.kb_dirs.specs.Dirs.{entry_text, entries_text, dir_text, is_plain, IsEntry, AreEntries};
ghost use Rattle.kb_dirs.specs.Parses.{Parses, ReadsDir, AreMany, is_above};

use crate::entries::Entry;
use crate::faults::DirFault;
use crate::fields::{
    take_flag, take_kind, take_moment, take_name, take_node, take_ptr, take_u8, take_u32, take_u64,
};
use kb_name::Name;
use kb_ops::Kind;
use kb_wire::Reader;
use std::alloc::Global;
use std::cmp::Ordering;

fn is_plain(kind: Kind, exec: bool, size: u32) -> bool
    ensures { result ≡ is_plain kind exec size }
{
    match kind {
        Kind::Dir => !exec && size == 0,
        Kind::File => true,
        Kind::Link => !exec,
    }
}

fn take_entry(alloc: Global, reader: &mut Reader) -> Result<Entry, DirFault>
    ensures { Parses (λ e. e) entry_text IsEntry reader.old reader.new result }
{
    let name = take_name(alloc, reader)?;
    let id = take_node(reader)?;
    let kind = take_kind(reader)?;
    let exec = take_flag(reader)?;
    let mtime = take_moment(reader)?;
    let size = take_u32(reader)?;
    let ptr = take_ptr(reader)?;
    if !is_plain(kind, exec, size) {
        return Err(DirFault::BadDir);
    }
    Ok(Entry {
        name,
        id,
        kind,
        exec,
        mtime,
        size,
        ptr,
    })
}

fn is_less(a: &[u8], b: &[u8]) -> bool
    ensures { result ≡ is_lt (slice_cmp nat_cmp a.now b.now) }
{
    match a.cmp(b) {
        Ordering::Less => true,
        Ordering::Equal => false,
        Ordering::Greater => false,
    }
}

// Whether the name stands behind that of the last entry.
fn is_above(entries: &[Entry], name: &Name) -> bool
    ensures { result ≡ is_above entries.now name.now }
{
    match entries.last() {
        None => true,
        Some(last) => is_less(last.name.bytes(), name.bytes()),
    }
}

fn take_entries(alloc: Global, reader: &mut Reader, count: u64) -> Result<Vec<Entry>, DirFault>
    ensures { Parses (λ es. es.items) entries_text (AreMany count) reader.old reader.new result }
{
    let mut entries = Vec::new(alloc);
    'entries: for _i in 0..count {
        let entry = take_entry(alloc, reader)?;
        if !is_above(&entries, &entry.name) {
            return Err(DirFault::BadDir);
        }
        match entries.push(entry) {
            Ok(()) => {}
            Err(_) => return Err(DirFault::Memory),
        }
    }
    Ok(entries)
}

fn take_dir(alloc: Global, reader: &mut Reader) -> Result<Vec<Entry>, DirFault>
    ensures { Parses (λ es. es.items) dir_text AreEntries reader.old reader.new result }
{
    if take_u8(reader)? != 0x44 {
        return Err(DirFault::BadDir);
    }
    let count = take_u64(reader)?;
    let entries = take_entries(alloc, reader, count)?;
    Ok(entries)
}

/// The entries that the text spells, with nothing behind them.
pub(crate) fn decode_dir(alloc: Global, text: &[u8]) -> Result<Vec<Entry>, DirFault>
    ensures { ReadsDir text.now result }
{
    let mut reader = Reader::new(text);
    let entries = take_dir(alloc, &mut reader)?;
    if reader.left() > 0 {
        return Err(DirFault::BadDir);
    }
    Ok(entries)
}
