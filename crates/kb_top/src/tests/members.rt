//! Scripts that change the members of a folder.
use crate::tests::scripts::runs;
use std::test::Fail;

#[test]
fn who_changes_the_members(rt: HostRuntime) -> Result<(), Fail> {
    let script =
        "device laptop 65536\ndevice phone 65536\ndevice tablet 65536\nfound laptop\ngrant phone tablet writer\ngrant laptop phone writer\ngrant laptop phone reader\ngrant phone tablet reader\nrevoke tablet laptop\nrevoke phone laptop\nopen laptop\nrevoke phone laptop\nrevoke phone phone\ngrant phone laptop reader\nopen laptop\nmkfile laptop /f\n";
    let text =
        "folder: at 1\nfolder: refused NotWriter\nfolder: at 2\nfolder: refused Known\nfolder: at 3\nfolder: refused NotWriter\nfolder: at 4\nlaptop: refused NotMember\nfolder: refused NotMember\nfolder: refused LastWriter\nfolder: at 5\nlaptop: open at 5 queue 0 last 0\nlaptop: refused ReadOnly\n";
    assert!(rt; runs(rt.alloc(), script, text)?);
    Ok(())
}

#[test]
fn keys_end(rt: HostRuntime) -> Result<(), Fail> {
    let alloc = rt.alloc();
    let mut script = String::from_str(
        alloc,
        "device laptop 65536\ndevice phone 65536\nfound laptop\n",
    )?;
    let mut text = String::from_str(alloc, "folder: at 1\n")?;
    for _ in 0..64 {
        script.push_str("grant laptop phone writer\nrevoke laptop phone\n")?;
    }
    for i in 2..129 {
        writeln!(&mut text, "folder: at {i}")?;
    }
    text.push_str("folder: refused GenEnd\n")?;
    assert!(rt; runs(alloc, script.as_str(), text.as_str())?);
    Ok(())
}
