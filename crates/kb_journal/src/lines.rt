//! The payloads of notes, in a buffer that was made at the opening.
ghost use Rattle.std.specs.Prelude.{◌≡◌, ◌+◌, ◌≤◌, ◌<◌, ◌^◌, ◌++◌, [], ◌∷◌, length, vec_len, vec_capacity};
ghost use Rattle.kb_journal.specs.declared.entries.Entry.TheVariants as entries;
ghost use Rattle.kb_journal.specs.Entries.{entry_text, IsEntry};
ghost use Rattle.kb_journal.specs.Notes.{entry_with};

use crate::entries::{Hash, Note};
use crate::pieces::{put, put_head};

fn put_landed(line: &mut Vec<u8>, number: u32, hash: &Hash)
    requires { vec_len line.old + 42 ≤ vec_capacity line.old }
    ensures text { line.new.items ≡ line.old.items ++ entry_text (entries.Landed number hash.now) }
    ensures is { IsEntry (entries.Landed number hash.now) }
    ensures room { vec_capacity line.old ≤ vec_capacity line.new }
{
    put(line, &[2]);
    put(line, &number.to_be_bytes());
    put(line, hash);
}

fn put_merged(line: &mut Vec<u8>, number: u32, hash: &Hash, count: u32)
    requires { vec_len line.old + 42 ≤ vec_capacity line.old }
    ensures text { line.new.items ≡ line.old.items ++ entry_text (entries.Merged number hash.now count) }
    ensures is { IsEntry (entries.Merged number hash.now count) }
    ensures room { vec_capacity line.old ≤ vec_capacity line.new }
{
    put(line, &[4]);
    put(line, &number.to_be_bytes());
    put(line, hash);
    put(line, &count.to_be_bytes());
}

fn put_line_head(line: &mut Vec<u8>, number: u32, hash: &Hash, seq: u32, mark: bool)
    requires { vec_len line.old + 42 ≤ vec_capacity line.old }
    ensures text { line.new.items ≡ line.old.items ++ entry_text (entries.Head number hash.now seq mark) }
    ensures is { IsEntry (entries.Head number hash.now seq mark) }
    ensures room { vec_capacity line.old ≤ vec_capacity line.new }
{
    put_head(line, number, hash, seq, mark);
}

/// Makes the payload of a note, where the last operation has this seq, and the mark is this.
pub fn make_line(line: &mut Vec<u8>, note: &Note, last: u32, mark: bool)
    requires { 42 ≤ vec_capacity line.old }
    ensures text { line.new.items ≡ entry_text (entry_with last mark note.now) }
    ensures is { IsEntry (entry_with last mark note.now) }
    ensures room { vec_capacity line.old ≤ vec_capacity line.new }
{
    line.clear();
    match note {
        Note::Landed { number, hash } => put_landed(line, *number, hash),
        Note::Branched => put(line, &[3]),
        Note::Merged {
            number,
            hash,
            count,
        } => put_merged(line, *number, hash, *count),
        Note::Head { number, hash } => put_line_head(line, *number, hash, last, mark),
    }
}
