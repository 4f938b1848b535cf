//! Whole scripts and what they print.
use crate::{Status, run_script};
use kb_edge::{MemSink, MemSource};
use kb_memdisk::Rack;
use kb_world::World;
use std::alloc::Global;
use std::test::Fail;

/// What a script prints that runs to its end.
pub fn printed(alloc: Global, script: &str) -> Result<String, Fail> {
    let bytes = script.as_bytes().to_vec(alloc)?;
    let mut source = MemSource::new(bytes, 65_536, Vec::new(alloc));
    let Ok(mut sink) = MemSink::new(alloc, 131_072, Vec::new(alloc)) else {
        return Err(Fail::from("no memory for a sink"));
    };
    let mut world = World::new(alloc, Rack);
    let ended = run_script(alloc, &mut source, &mut sink, &mut world);
    if ended != Status::Done {
        return Err(Fail::from("another end"));
    }
    match str::from_utf8(sink.bytes()) {
        Ok(text) => Ok(String::from_str(alloc, text)?),
        Err(_) => Err(Fail::from("no text")),
    }
}

/// Whether a script runs to its end and prints this.
pub fn runs(alloc: Global, script: &str, text: &str) -> Result<bool, Fail> {
    let printed = printed(alloc, script)?;
    Ok(printed.as_str() == text)
}

// The same of calls of one device with a disk of a size, which was founded and opened before.
fn prints(alloc: Global, size: u32, calls: &str, text: &str) -> Result<bool, Fail> {
    let script = format!(in alloc; "device laptop {size}\nfound laptop\nopen laptop\n{calls}")?;
    let text = format!(in alloc; "folder: at 1\nlaptop: open at 1 queue 0 last 0\n{text}")?;
    runs(alloc, script.as_str(), text.as_str())
}

#[test]
fn moves_and_what_refuses_them(rt: HostRuntime) -> Result<(), Fail> {
    let calls =
        "mkdir laptop /a\nmkfile laptop /a/f\nmkdir laptop /b\nmv laptop /a /a/x\nmv laptop /b /a\nmv laptop /a /a\nmv laptop /a/f /b\nmv laptop /b /a/f\nrm laptop /\nmkdir laptop /a\nmkdir laptop a\nmkdir laptop /none/x\nmv laptop /a/f /g\n";
    let text =
        "laptop: done 1\nlaptop: done 2\nlaptop: done 3\nlaptop: refused Inside\nlaptop: refused NotEmpty\nlaptop: same\nlaptop: refused NotFile\nlaptop: refused NotDir\nlaptop: refused NotEmpty\nlaptop: refused Exists\nlaptop: refused BadPath\nlaptop: refused NotFound\nlaptop: done 4\n";
    assert!(rt; prints(rt.alloc(), 65_536, calls, text)?);
    Ok(())
}

#[test]
fn writes_and_cuts(rt: HostRuntime) -> Result<(), Fail> {
    let calls =
        "mkfile laptop /f\nwrite laptop /f 3 =ab\ncat laptop /f\nwrite laptop /f 16777215 =x\nstat laptop /f\nwrite laptop /f 16777216 =x\ncut laptop /f 1\ncut laptop /f 1\nwrite laptop /f 0 =\ncat laptop /f 1 5\n";
    let text =
        "laptop: done 1\nlaptop: done 2\nlaptop: =%00%00%00ab\nlaptop: done 3\nlaptop: stat f 1.1.0 size 16777216 exec - mtime 0\nlaptop: refused TooBig\nlaptop: done 4\nlaptop: same\nlaptop: same\nlaptop: =\n";
    assert!(rt; prints(rt.alloc(), 65_536, calls, text)?);
    Ok(())
}

#[test]
fn small_changes_and_what_is_shown(rt: HostRuntime) -> Result<(), Fail> {
    let calls =
        "mkdir laptop /a\nmkfile laptop /a/f\ntouch laptop /a/f 7\ntouch laptop /a/f 7\nchmod laptop /a/f x\nchmod laptop /a/f x\nchmod laptop /a x\nmv laptop /a/f b\nmv laptop /a/f /g\nstat laptop /g\nls laptop /g\nls laptop /c\nls laptop //\ncat laptop /a\nlink laptop /a/B =t\ncat laptop /a/B\n";
    let text =
        "laptop: done 1\nlaptop: done 2\nlaptop: done 3\nlaptop: same\nlaptop: done 4\nlaptop: same\nlaptop: refused NotFile\nlaptop: refused BadPath\nlaptop: done 5\nlaptop: stat f 1.2.0 size 0 exec x mtime 7\nlaptop: refused NotDir\nlaptop: refused NotFound\nlaptop: refused BadPath\nlaptop: refused NotFile\nlaptop: done 6\nlaptop: =t\n";
    assert!(rt; prints(rt.alloc(), 65_536, calls, text)?);
    Ok(())
}

#[test]
fn removals_and_what_refuses_them(rt: HostRuntime) -> Result<(), Fail> {
    let calls =
        "mkdir laptop /a\nmkfile laptop /a/f\nmkdir laptop /b\nmv laptop / /\nmv laptop /b /\nmv laptop /a/f/y /none/x\nrm laptop /a\nrm laptop /a/f\nrm laptop /a\nrm laptop /b\nrm laptop /\n";
    let text =
        "laptop: done 1\nlaptop: done 2\nlaptop: done 3\nlaptop: refused Inside\nlaptop: refused NotEmpty\nlaptop: refused NotFound\nlaptop: refused NotEmpty\nlaptop: done 4\nlaptop: done 5\nlaptop: done 6\nlaptop: refused Inside\n";
    assert!(rt; prints(rt.alloc(), 65_536, calls, text)?);
    Ok(())
}

#[test]
fn deep_paths_and_long_links(rt: HostRuntime) -> Result<(), Fail> {
    let alloc = rt.alloc();
    let mut path = String::new(alloc);
    for _ in 0..64 {
        path.push_str("/d")?;
    }
    let target = letters(alloc, 't', 1024)?;
    let calls = format!(in alloc;
        "mkdir laptop {path}\nmkdir laptop {path}/d\nlink laptop /l ={target}t\nlink laptop /l ={target}\n"
    )?;
    let text =
        "laptop: refused NotFound\nlaptop: refused TooDeep\nlaptop: refused TooBig\nlaptop: done 1\n";
    assert!(rt; prints(alloc, 65_536, calls.as_str(), text)?);
    Ok(())
}

#[test]
fn calls_go_on_beside_a_flush(rt: HostRuntime) -> Result<(), Fail> {
    let calls =
        "mkdir laptop /a\npick laptop\nmkfile laptop /b\nmkfile laptop /c\nland laptop\nnote laptop\nstatus laptop\ndrain laptop\n";
    let text =
        "laptop: done 1\nlaptop: picked 1 as 2\nlaptop: done 2\nlaptop: done 3\nlaptop: landed 2\nlaptop: noted 2\nlaptop: status at 2 queue 2 last 3 merged idle\nlaptop: picked 2 as 3\nlaptop: landed 3\nlaptop: noted 3\nlaptop: picked 3 as 4\nlaptop: landed 4\nlaptop: noted 4\nlaptop: refused Idle\n";
    assert!(rt; prints(rt.alloc(), 65_536, calls, text)?);
    Ok(())
}

#[test]
fn a_stopped_note_is_taken_over(rt: HostRuntime) -> Result<(), Fail> {
    let calls =
        "mkfile laptop /f\npick laptop\nland laptop\nfuse laptop 0\nnote laptop\npower laptop new\nopen laptop\nmkfile laptop /g\nflush laptop\nfolder\n";
    let text =
        "laptop: done 1\nlaptop: picked 1 as 2\nlaptop: landed 2\nlaptop: refused Stopped\nlaptop: off\nlaptop: open at 2 queue 0 last 1\nlaptop: done 2\nlaptop: picked 2 as 3\nlaptop: landed 3\nlaptop: noted 3\nfolder: 3 revisions generation 1\n1 found laptop\n2 step laptop 1\n3 step laptop 2\n";
    assert!(rt; prints(rt.alloc(), 65_536, calls, text)?);
    Ok(())
}

// So many of a letter.
fn letters(alloc: Global, letter: char, count: u32) -> Result<String, Fail> {
    let mut text = String::new(alloc);
    for _ in 0..count {
        text.push(letter)?;
    }
    Ok(text)
}

#[test]
fn a_disk_is_full_by_one_byte(rt: HostRuntime) -> Result<(), Fail> {
    let alloc = rt.alloc();
    let first = letters(alloc, 'a', 1000)?;
    let second = letters(alloc, 'b', 875)?;
    let calls = format!(in alloc;
        "mkfile laptop /f\nwrite laptop /f 0 ={first}\nwrite laptop /f 0 ={second}\n"
    )?;
    let text = "laptop: done 1\nlaptop: done 2\nlaptop: refused Full 2041 2040\n";
    assert!(rt; prints(alloc, 4096, calls.as_str(), text)?);
    Ok(())
}

#[test]
fn a_queue_is_full(rt: HostRuntime) -> Result<(), Fail> {
    let alloc = rt.alloc();
    let mut calls = String::new(alloc);
    let mut text = String::new(alloc);
    for i in 1..4097 {
        writeln!(&mut calls, "touch laptop / {i}")?;
        writeln!(&mut text, "laptop: done {i}")?;
    }
    calls.push_str("touch laptop / 4097\ntouch laptop / 4096\n")?;
    text.push_str("laptop: refused QueueFull\nlaptop: same\n")?;
    assert!(rt; prints(alloc, 1_048_576, calls.as_str(), text.as_str())?);
    Ok(())
}

// Whether, after a stop behind so many steps of a file call and a power cut of a kind, the next opening finds so many
// queued operations.
fn finds(alloc: Global, steps: u32, pick: &str, queue: u32) -> Result<bool, Fail> {
    let calls = format!(in alloc;
        "mkdir laptop /a\nfuse laptop {steps}\nmkfile laptop /f\npower laptop {pick}\nopen laptop\n"
    )?;
    let text = format!(in alloc;
        "laptop: done 1\nlaptop: refused Stopped\nlaptop: off\nlaptop: open at 1 queue {queue} last {queue}\n"
    )?;
    prints(alloc, 65_536, calls.as_str(), text.as_str())
}

// Whether a power cut finds the old state by `old`, and this one by `new` and `noise`.
fn leaves(alloc: Global, steps: u32, queue: u32) -> Result<bool, Fail> {
    let old = finds(alloc, steps, "old", 1)?;
    let new = finds(alloc, steps, "new", queue)?;
    let noise = finds(alloc, steps, "noise", queue)?;
    Ok(old && new && noise)
}

#[test]
fn a_power_cut_leaves_what_its_kind_says(rt: HostRuntime) -> Result<(), Fail> {
    let alloc = rt.alloc();
    assert!(rt; leaves(alloc, 0, 1)?);
    assert!(rt; leaves(alloc, 1, 1)?);
    assert!(rt; leaves(alloc, 2, 2)?);
    assert!(rt; leaves(alloc, 3, 2)?);
    Ok(())
}

#[test]
fn members_are_granted_and_revoked(rt: HostRuntime) -> Result<(), Fail> {
    let script =
        "device laptop 65536\ndevice phone 65536\nfound laptop\ngrant laptop phone reader\nopen laptop\nopen phone\nmkdir laptop /notes\nflush laptop\npull phone\nls phone /\nmkfile phone /notes/mine\nrevoke laptop phone\ngrant laptop phone writer\npull phone\nmkfile phone /notes/mine\nflush phone\npull laptop\ntree laptop\nrevoke laptop phone\nmkfile phone /notes/more\nflush phone\nrevoke laptop laptop\nfolder\n";
    let text =
        "folder: at 1\nfolder: at 2\nlaptop: open at 2 queue 0 last 0\nphone: open at 2 queue 0 last 0\nlaptop: done 1\nlaptop: picked 1 as 3\nlaptop: landed 3\nlaptop: noted 3\nphone: at 3\nphone: ls 1\nd notes 0\nphone: refused ReadOnly\nfolder: at 4\nfolder: at 5\nphone: at 5\nphone: done 1\nphone: picked 1 as 6\nphone: landed 6\nphone: noted 6\nlaptop: at 6\nlaptop: tree at 6 queue 0 rows 3\nd /notes 0\nf /notes/mine 0 - 0\nfolder: at 7\nphone: done 2\nphone: picked 2 as 7\nphone: refused NotWriter\nphone: kept\nfolder: refused LastWriter\nfolder: 7 revisions generation 3\n1 found laptop\n2 grant laptop phone reader\n3 step laptop 1\n4 revoke laptop phone\n5 grant laptop phone writer\n6 step phone 1\n7 revoke laptop phone\n";
    assert!(rt; runs(rt.alloc(), script, text)?);
    Ok(())
}

#[test]
fn a_late_device_is_on_a_branch(rt: HostRuntime) -> Result<(), Fail> {
    let script =
        "device laptop 65536\ndevice phone 65536\nfound laptop\ngrant laptop phone writer\nopen laptop\nopen phone\nmkfile laptop /l\nmkfile phone /p\nflush laptop\nflush phone\nstatus phone\nmkfile phone /q\npick phone\npull phone\n";
    let text =
        "folder: at 1\nfolder: at 2\nlaptop: open at 2 queue 0 last 0\nphone: open at 2 queue 0 last 0\nlaptop: done 1\nphone: done 1\nlaptop: picked 1 as 3\nlaptop: landed 3\nlaptop: noted 3\nphone: picked 1 as 3\nphone: refused Stale 3\nphone: branched at 2\nphone: status at 2 queue 1 last 1 branched idle\nphone: done 2\nphone: refused Branched\nphone: refused Unflushed\n";
    assert!(rt; runs(rt.alloc(), script, text)?);
    Ok(())
}

#[test]
fn devices_are_declared_beside_a_flight(rt: HostRuntime) -> Result<(), Fail> {
    let script =
        "device laptop 65536\nfound laptop\nopen laptop\nmkfile laptop /a\npick laptop\ndevice phone 65536\nland laptop\ndevice tablet 65536\nnote laptop\ngrant laptop tablet reader\nopen tablet\ntree tablet\ngrant laptop phone writer\nflush laptop\nmkfile laptop /b\nflush laptop\nopen phone\nmkfile phone /c\nflush phone\npull tablet\ntree tablet\n";
    let text =
        "folder: at 1\nlaptop: open at 1 queue 0 last 0\nlaptop: done 1\nlaptop: picked 1 as 2\nlaptop: landed 2\nlaptop: noted 2\nfolder: at 3\ntablet: open at 3 queue 0 last 0\ntablet: tree at 3 queue 0 rows 2\nf /a 0 - 0\nfolder: at 4\nlaptop: refused Idle\nlaptop: done 2\nlaptop: picked 2 as 3\nlaptop: refused Stale 4\nlaptop: branched at 2\nphone: open at 4 queue 0 last 0\nphone: done 1\nphone: picked 1 as 5\nphone: landed 5\nphone: noted 5\ntablet: at 5\ntablet: tree at 5 queue 0 rows 3\nf /a 0 - 0\nf /c 0 - 0\n";
    assert!(rt; runs(rt.alloc(), script, text)?);
    Ok(())
}

#[test]
fn a_lost_reply_counts_and_a_lost_request_does_not(rt: HostRuntime) -> Result<(), Fail> {
    let reply =
        "mkfile laptop /f\nlose laptop reply\nflush laptop\nopen laptop\nmkfile laptop /g\nflush laptop\n";
    let landed =
        "laptop: done 1\nlaptop: picked 1 as 2\nlaptop: refused LinkFault\nlaptop: open at 2 queue 0 last 1\nlaptop: done 2\nlaptop: picked 2 as 3\nlaptop: landed 3\nlaptop: noted 3\n";
    assert!(rt; prints(rt.alloc(), 65_536, reply, landed)?);
    let request =
        "mkfile laptop /f\nlose laptop request\nflush laptop\nopen laptop\nmkfile laptop /g\nflush laptop\n";
    let waiting =
        "laptop: done 1\nlaptop: picked 1 as 2\nlaptop: refused LinkFault\nlaptop: open at 1 queue 1 last 1\nlaptop: done 2\nlaptop: picked 1 as 2\nlaptop: landed 2\nlaptop: noted 2\n";
    assert!(rt; prints(rt.alloc(), 65_536, request, waiting)?);
    Ok(())
}
