// What the types allow. In each test tools/forbidden_uses.sh makes a mistake that they do not allow, and sees that it does not compile.
use crate::steps::{ended, restart, server_in};
use changes::Patch;
use std::test::Fail;

// Undo takes the receipt of redo.
#[test]
fn redo_before_undo(rt: HostRuntime) -> Result<(), Fail> {
    let mut pages = [[0; 256]; 1];
    let mut slots = [[0; 60]; 8];
    let mut server = server_in::<Patch>(rt.alloc(), &mut pages, &mut slots)?;
    let (_, receipt) = server.analysis()?;
    let (_, receipt) = server.redo(receipt)?;
    assert_eq!(rt; server.undo(receipt), Ok((0, 0)));
    Ok(())
}

// A receipt comes from the pass before.
#[test]
fn the_receipt_of_the_pass(rt: HostRuntime) -> Result<(), Fail> {
    let mut pages = [[0; 256]; 1];
    let mut slots = [[0; 60]; 8];
    let mut server = server_in::<Patch>(rt.alloc(), &mut pages, &mut slots)?;
    let (found, receipt) = server.analysis()?;
    assert_eq!(rt; receipt.numbers(), found);
    let (played, receipt) = server.redo(receipt)?;
    assert_eq!(rt; receipt.numbers(), played);
    Ok(())
}

// A commit takes the handle, so the next is of another job.
#[test]
fn a_job_for_each_commit(rt: HostRuntime) -> Result<(), Fail> {
    let mut pages = [[0; 256]; 1];
    let mut slots = [[0; 60]; 8];
    let mut server = server_in::<Patch>(rt.alloc(), &mut pages, &mut slots)?;
    restart(&mut server)?;
    let first = server.open()?;
    let second = server.open()?;
    assert_eq!(rt; ended(server.commit(first)), Ok(3));
    assert_eq!(rt; ended(server.commit(second)), Ok(4));
    Ok(())
}
