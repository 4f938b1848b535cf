//! Whole scripts of branches and what they print.
use crate::tests::scripts::runs;
use std::alloc::Global;
use std::test::Fail;

// Whether these calls print this once two devices wrote one file, so that the second has a branch at revision 3.
fn resolves(alloc: Global, calls: &str, text: &str) -> Result<bool, Fail> {
    let script = format!(in alloc;
        "at 1714521600\ndevice laptop 65536\ndevice phone 65536\nfound laptop\ngrant laptop phone writer\nopen laptop\nmkfile laptop /f.txt\nflush laptop\nopen phone\nwrite laptop /f.txt 0 =left\nwrite phone /f.txt 0 =right\nflush laptop\nflush phone\n{calls}"
    )?;
    let text = format!(in alloc;
        "folder: at 1\nfolder: at 2\nlaptop: open at 2 queue 0 last 0\nlaptop: done 1\nlaptop: picked 1 as 3\nlaptop: landed 3\nlaptop: noted 3\nphone: open at 3 queue 0 last 0\nlaptop: done 2\nphone: done 1\nlaptop: picked 2 as 4\nlaptop: landed 4\nlaptop: noted 4\nphone: picked 1 as 4\nphone: refused Stale 4\nphone: branched at 3\n{text}"
    )?;
    runs(alloc, script.as_str(), text.as_str())
}

#[test]
fn two_wrote_one_file(rt: HostRuntime) -> Result<(), Fail> {
    let calls = "resolve phone\npull laptop\ntree laptop\ncat phone /f.txt\n";
    let text =
        "phone: fetched 4\nphone: merged 5 copies 1 renamed 1 joined 0\nlaptop: at 5\nlaptop: tree at 5 queue 0 rows 3\nf /f.conflicted%20(phone%20copy%202024-05-01).txt 5 - 1714521600\nf /f.txt 4 - 1714521600\nphone: =left\n";
    assert!(rt; resolves(rt.alloc(), calls, text)?);
    Ok(())
}

#[test]
fn a_plan_gone_stale_is_dropped(rt: HostRuntime) -> Result<(), Fail> {
    let calls =
        "fetch phone\nmkfile laptop /h\nflush laptop\nsettle phone\nsettle phone\nresolve phone\n";
    let text =
        "phone: fetched 4\nlaptop: done 3\nlaptop: picked 3 as 5\nlaptop: landed 5\nlaptop: noted 5\nphone: refused Stale 5\nphone: refused NoPlan\nphone: fetched 5\nphone: merged 6 copies 1 renamed 1 joined 0\n";
    assert!(rt; resolves(rt.alloc(), calls, text)?);
    Ok(())
}

#[test]
fn a_stopped_merge_is_taken_over(rt: HostRuntime) -> Result<(), Fail> {
    let calls =
        "fetch phone\nfuse phone 0\nsettle phone\npower phone old\nopen phone\nflush phone\nfolder\ntree phone\npull laptop\ntree laptop\n";
    let text =
        "phone: fetched 4\nphone: refused Stopped\nphone: off\nphone: open at 5 queue 0 last 1\nphone: refused Idle\nfolder: 5 revisions generation 1\n1 found laptop\n2 grant laptop phone writer\n3 step laptop 1\n4 step laptop 2\n5 merge phone 1 1\nphone: tree at 5 queue 0 rows 3\nf /f.conflicted%20(phone%20copy%202024-05-01).txt 5 - 1714521600\nf /f.txt 4 - 1714521600\nlaptop: at 5\nlaptop: tree at 5 queue 0 rows 3\nf /f.conflicted%20(phone%20copy%202024-05-01).txt 5 - 1714521600\nf /f.txt 4 - 1714521600\n";
    assert!(rt; resolves(rt.alloc(), calls, text)?);
    Ok(())
}
