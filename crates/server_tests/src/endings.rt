// How a job ends: taken back, refused and then committed, or with power lost in its commit.
use crate::steps::{addition, changed, ended, page, patch, recorded, restart, seen, server_in};
use changes::{Addition, Patch};
use rules::{Device, Refusal};
use script::{Choice, Loss, PowerPlan, Script};
use scripted_log::ScriptedLog;
use scripted_pages::ScriptedPages;
use server::{NotEnded, Server};
use std::alloc::Global;
use std::test::Fail;

// 4,294,967,295 added to 3 gives 2; taken back, 3 again.
#[test]
fn abort_gives_the_former_bytes(rt: HostRuntime) -> Result<(), Fail> {
    let mut pages = [[0; 256]; 2];
    let mut slots = [[0; 60]; 16];
    let mut server = server_in::<Addition>(rt.alloc(), &mut pages, &mut slots)?;
    restart(&mut server)?;
    let first = changed(&mut server, 1, &addition(3), &page(1, 3))?;
    assert_eq!(rt; ended(server.commit(first)), Ok(3));
    let second = changed(&mut server, 2, &addition(4_294_967_295), &page(2, 2))?;
    assert_eq!(rt; seen(&mut server), Err(Refusal::HeldAlready));
    assert_eq!(rt; ended(server.abort(second)), Ok(()));
    assert_eq!(rt; seen(&mut server), Ok(page(3, 3)));
    Ok(())
}

#[test]
fn a_refused_commit_gives_the_handle_back(rt: HostRuntime) -> Result<(), Fail> {
    let mut pages = [[0; 256]; 2];
    let mut slots = [[0; 60]; 16];
    let mut server = server_in::<Patch>(rt.alloc(), &mut pages, &mut slots)?;
    restart(&mut server)?;
    let job = recorded(&mut server, 1, &patch(17))?;
    let Err(NotEnded::Refused(why, job)) = server.commit(job) else {
        assert!(rt; false, "the change was not shipped");
        return Ok(());
    };
    assert_eq!(rt; why, Refusal::CopyIncomplete);
    server.ship(&job, 0, &page(1, 17))?;
    assert_eq!(rt; ended(server.commit(job)), Ok(3));
    assert_eq!(rt; seen(&mut server), Ok(page(1, 17)));
    Ok(())
}

// The open's slot is forced, the change's is not yet, and power is lost in the commit. What is answered, and what is seen after a restart.
fn lost_commit(heap: Global, plan: PowerPlan) -> Result<(Result<u32, Refusal>, [u8; 256]), Fail> {
    let script = Script::new(heap)?;
    let pages = ScriptedPages::new(heap, 2, script.clone()?)?;
    let log = ScriptedLog::new(heap, 16, script.clone()?)?;
    let mut server = Server::<_, _, Patch>::new(heap, pages, log)?;
    restart(&mut server)?;
    let job = changed(&mut server, 1, &patch(17), &page(1, 17))?;
    script.set(plan);
    let answer = ended(server.commit(job));
    restart(&mut server)?;
    Ok((answer, seen(&mut server)?))
}

// In which operation power is lost, what that leaves, by how much appends raise the forced count, and the page that is seen: the job is
// kept exactly where its commit, slot 3, stands; where its change stands and not the commit, it was taken back.
#[test]
fn power_is_lost_in_a_commit(rt: HostRuntime) -> Result<(), Fail> {
    for (operation, left, raise, page) in [
        (1, Choice::Before, 0, page(0, 0)),
        (1, Choice::After, 0, page(0, 0)),
        (1, Choice::After, 2, page(1, 17)),
        (2, Choice::Count(0), 0, page(0, 0)),
        (2, Choice::Count(1), 0, page(2, 0)),
        (2, Choice::Count(2), 0, page(1, 17)),
    ] {
        let plan = PowerPlan::new(Loss::at(operation, left), raise);
        let (answer, seen) = lost_commit(rt.alloc(), plan)?;
        assert_eq!(rt; answer, Err(Refusal::PowerLost(Device::Log, 3)));
        assert_eq!(rt; seen, page, "{operation} {left:?} {raise}");
    }
    Ok(())
}
