//! The worked tables of the conflict rules, each merged by what operations did and by lists of rows.
use crate::tests::scripts::printed;
use std::alloc::Global;
use std::test::Fail;

/// What is printed of a merge, and by these calls behind it, where a laptop and a phone did this to a tree. Before the
/// laptop's calls a tablet's file lands, by a step or by a merge: with a merge between, a branch is merged by rows.
pub fn merged(
    alloc: Global,
    by_rows: bool,
    tree: &str,
    laptop: &str,
    phone: &str,
    shows: &str,
) -> Result<String, Fail> {
    let tablet = if by_rows {
        "mkfile tablet /t\nflush tablet\nresolve tablet\n"
    } else {
        "pull tablet\nmkfile tablet /t\nflush tablet\n"
    };
    let script = format!(in alloc;
        "at 1714521600\ndevice laptop 65536\ndevice phone 65536\ndevice tablet 65536\nfound laptop\ngrant laptop phone writer\ngrant laptop tablet writer\nopen laptop\n{tree}drain laptop\nopen phone\nopen tablet\ntouch laptop / 5\nflush laptop\n{tablet}pull laptop\n{laptop}drain laptop\n{phone}flush phone\nresolve phone\n{shows}"
    )?;
    let text = printed(alloc, script.as_str())?;
    match text.as_str().split_once("phone: merged ") {
        Some((_, text)) => Ok(String::from_str(alloc, text)?),
        None => Err(Fail::from("no merge")),
    }
}

// Whether both ways print this.
fn merges(
    alloc: Global,
    tree: &str,
    laptop: &str,
    phone: &str,
    shows: &str,
    text: &str,
) -> Result<bool, Fail> {
    let by_actions = merged(alloc, false, tree, laptop, phone, shows)?;
    let by_rows = merged(alloc, true, tree, laptop, phone, shows)?;
    Ok(by_actions.as_str() == text && by_rows.as_str() == text)
}

#[test]
fn both_wrote_one_file(rt: HostRuntime) -> Result<(), Fail> {
    let tree = "mkfile laptop /f.txt\n";
    let laptop = "write laptop /f.txt 0 =left\n";
    let phone = "write phone /f.txt 0 =right\n";
    let shows =
        "tree phone\ncat phone /f.txt\ncat phone /f.conflicted%20(phone%20copy%202024-05-01).txt\n";
    let text =
        "8 copies 1 renamed 1 joined 0\nphone: tree at 8 queue 0 rows 4\nf /f.conflicted%20(phone%20copy%202024-05-01).txt 5 - 1714521600\nf /f.txt 4 - 1714521600\nf /t 0 - 1714521600\nphone: =left\nphone: =right\n";
    assert!(rt; merges(rt.alloc(), tree, laptop, phone, shows, text)?);
    Ok(())
}

#[test]
fn both_wrote_it_again(rt: HostRuntime) -> Result<(), Fail> {
    let tree =
        "mkfile laptop /f.txt\nmkfile laptop /f.conflicted%20(phone%20copy%202024-05-01).txt\n";
    let laptop = "write laptop /f.txt 0 =LEFT\n";
    let phone = "write phone /f.txt 0 =RIGHT\n";
    let text =
        "9 copies 1 renamed 1 joined 0\nphone: tree at 9 queue 0 rows 5\nf /f.conflicted%20(phone%20copy%202024-05-01%202).txt 5 - 1714521600\nf /f.conflicted%20(phone%20copy%202024-05-01).txt 0 - 1714521600\nf /f.txt 4 - 1714521600\nf /t 0 - 1714521600\n";
    assert!(rt; merges(rt.alloc(), tree, laptop, phone, "tree phone\n", text)?);
    Ok(())
}

#[test]
fn a_removed_directory_comes_back_for_a_kept_file(rt: HostRuntime) -> Result<(), Fail> {
    let tree = "mkdir laptop /d\nmkfile laptop /d/f\nmkfile laptop /d/g\n";
    let laptop = "rm laptop /d/f\nrm laptop /d/g\nrm laptop /d\n";
    let phone = "write phone /d/f 0 =keep\n";
    let text =
        "12 copies 0 renamed 0 joined 0\nphone: tree at 12 queue 0 rows 4\nd /d 1714521600\nf /d/f 4 - 1714521600\nf /t 0 - 1714521600\n";
    assert!(rt; merges(rt.alloc(), tree, laptop, phone, "tree phone\n", text)?);
    Ok(())
}

#[test]
fn both_made_one_directory(rt: HostRuntime) -> Result<(), Fail> {
    let laptop = "mkdir laptop /n\nmkfile laptop /n/x\nwrite laptop /n/x 0 =m\n";
    let phone = "mkdir phone /n\nmkfile phone /n/x\nwrite phone /n/x 0 =u\nmkfile phone /n/y\n";
    let text =
        "9 copies 0 renamed 1 joined 1\nphone: tree at 9 queue 0 rows 6\nd /n 1714521600\nf /n/x 1 - 1714521600\nf /n/x.conflicted%20(phone%20copy%202024-05-01) 1 - 1714521600\nf /n/y 0 - 1714521600\nf /t 0 - 1714521600\nphone: =m\n";
    let shows = "tree phone\ncat phone /n/x\n";
    assert!(rt; merges(rt.alloc(), "", laptop, phone, shows, text)?);
    Ok(())
}

#[test]
fn moves_turned_inside_out(rt: HostRuntime) -> Result<(), Fail> {
    let tree = "mkdir laptop /a\nmkdir laptop /a/b\n";
    let laptop = "mkfile laptop /z\n";
    let phone = "mv phone /a/b /b\nmv phone /a /b/a\n";
    let text =
        "9 copies 0 renamed 0 joined 0\nphone: tree at 9 queue 0 rows 5\nd /b 1714521600\nd /b/a 1714521600\nf /t 0 - 1714521600\nf /z 0 - 1714521600\n";
    assert!(rt; merges(rt.alloc(), tree, laptop, phone, "tree phone\n", text)?);
    Ok(())
}

#[test]
fn directories_moved_into_each_other(rt: HostRuntime) -> Result<(), Fail> {
    let tree = "mkdir laptop /a\nmkdir laptop /b\n";
    let laptop = "mv laptop /b /a/b\n";
    let phone = "mv phone /a /b/a\n";
    let text =
        "9 copies 0 renamed 0 joined 0\nphone: tree at 9 queue 0 rows 4\nd /a 1714521600\nd /a/b 1714521600\nf /t 0 - 1714521600\n";
    assert!(rt; merges(rt.alloc(), tree, laptop, phone, "tree phone\n", text)?);
    Ok(())
}

#[test]
fn a_file_moved_two_ways(rt: HostRuntime) -> Result<(), Fail> {
    let tree = "mkfile laptop /f\nmkdir laptop /p\nmkdir laptop /q\n";
    let laptop = "mv laptop /f /p/f\n";
    let phone = "mv phone /f /q/f\n";
    let text =
        "10 copies 1 renamed 0 joined 0\nphone: tree at 10 queue 0 rows 6\nd /p 1714521600\nf /p/f 0 - 1714521600\nd /q 1714521600\nf /q/f 0 - 1714521600\nf /t 0 - 1714521600\n";
    assert!(rt; merges(rt.alloc(), tree, laptop, phone, "tree phone\n", text)?);
    Ok(())
}

/// A directory that the phone moved below one that goes back to its place in the laptop's tree goes back too; a file
/// moved there stays.
#[test]
fn what_follows_a_directory_that_goes_back(rt: HostRuntime) -> Result<(), Fail> {
    let tree = "mkdir laptop /a\nmkdir laptop /b\nmkdir laptop /c\nmkfile laptop /f\n";
    let laptop = "mv laptop /b /a/b\n";
    let phone = "mv phone /a /b/a\nmv phone /c /b/a/c\nmv phone /f /b/a/f\n";
    let text =
        "11 copies 0 renamed 0 joined 0\nphone: tree at 11 queue 0 rows 6\nd /a 1714521600\nd /a/b 1714521600\nf /a/f 0 - 1714521600\nd /c 1714521600\nf /t 0 - 1714521600\n";
    assert!(rt; merges(rt.alloc(), tree, laptop, phone, "tree phone\n", text)?);
    Ok(())
}

#[test]
fn what_came_and_went_is_no_conflict(rt: HostRuntime) -> Result<(), Fail> {
    let laptop = "mkfile laptop /x\nrm laptop /x\n";
    let phone = "mkfile phone /x\n";
    let text =
        "8 copies 0 renamed 0 joined 0\nphone: tree at 8 queue 0 rows 3\nf /t 0 - 1714521600\nf /x 0 - 1714521600\n";
    assert!(rt; merges(rt.alloc(), "", laptop, phone, "tree phone\n", text)?);
    Ok(())
}
