// What a restart finds, after a loss of power, after a checkpoint, and with a server made again.
use crate::steps::{
    NOTHING_TO_DO, changed, ended, page, patch, recorded, restart, seen, server_in,
};
use changes::Patch;
use rules::{Device, Refusal};
use script::{Choice, Loss, PowerPlan, Script};
use scripted_log::ScriptedLog;
use scripted_pages::ScriptedPages;
use server::Server;
use std::test::Fail;

// A worked run of the rules: undo loses power at its force, of which one new slot stands, and a second restart goes on from there.
#[test]
fn a_loser_is_undone_after_a_power_cut(rt: HostRuntime) -> Result<(), Fail> {
    let script = Script::new(rt.alloc())?;
    let pages = ScriptedPages::new(rt.alloc(), 2, script.clone()?)?;
    let log = ScriptedLog::new(rt.alloc(), 16, script.clone()?)?;
    let mut server = Server::<_, _, Patch>::new(rt.alloc(), pages, log)?;
    restart(&mut server)?;
    let job = recorded(&mut server, 1, &patch(17))?;
    server.record(&job, 0, 2, &patch(34))?;
    server.ship(&job, 0, &page(2, 51))?;
    server.write_out(0)?;
    let (found, analysed) = server.analysis()?;
    assert_eq!(rt; found, (1, 1, 1));
    let (_, redone) = server.redo(analysed)?;
    script.set(PowerPlan::new(Loss::at(4, Choice::Count(1)), 0));
    assert_eq!(rt;
        server.undo(redone),
        Err(Refusal::PowerLost(Device::Log, 6))
    );
    assert_eq!(rt; restart(&mut server), Ok(((1, 1, 1), (2, 1), (1, 1))));
    assert_eq!(rt; seen(&mut server), Ok(page(4, 0)));
    Ok(())
}

// Another: the page is not shipped yet when the checkpoint in slots 3 to 6 is taken.
#[test]
fn a_restart_begins_at_the_checkpoint(rt: HostRuntime) -> Result<(), Fail> {
    let mut pages = [[0; 256]; 2];
    let mut slots = [[0; 60]; 16];
    let mut server = server_in::<Patch>(rt.alloc(), &mut pages, &mut slots)?;
    restart(&mut server)?;
    let job = recorded(&mut server, 1, &patch(17))?;
    assert_eq!(rt; server.checkpoint(), Ok(6));
    server.ship(&job, 0, &page(1, 17))?;
    assert_eq!(rt; ended(server.commit(job)), Ok(7));
    assert_eq!(rt; restart(&mut server), Ok(((3, 0, 1), (2, 1), (0, 0))));
    assert_eq!(rt; seen(&mut server), Ok(page(1, 17)));
    Ok(())
}

#[test]
fn a_server_made_again_goes_on(rt: HostRuntime) -> Result<(), Fail> {
    let mut pages = [[0; 256]; 2];
    let mut slots = [[0; 60]; 16];
    let mut server = server_in::<Patch>(rt.alloc(), &mut pages, &mut slots)?;
    restart(&mut server)?;
    let job = changed(&mut server, 1, &patch(17), &page(1, 17))?;
    assert_eq!(rt; ended(server.commit(job)), Ok(3));
    let (pages, log) = server.into_devices();
    let mut again = Server::<_, _, Patch>::new(rt.alloc(), pages, log)?;
    assert_eq!(rt; restart(&mut again), Ok(((1, 0, 1), (2, 1), (0, 0))));
    assert_eq!(rt; seen(&mut again), Ok(page(1, 17)));
    Ok(())
}

// `rt try --test --fail-alloc N` has the Nth allocation fail. Without memory no server is made; one that is made wants no more.
#[test]
fn memory_is_wanted_at_the_making_alone(rt: HostRuntime) -> Result<(), Fail> {
    let mut pages = [[0; 256]; 2];
    let mut slots = [[0; 60]; 16];
    let Ok(mut server) = server_in::<Patch>(rt.alloc(), &mut pages, &mut slots) else {
        return Ok(());
    };
    assert_eq!(rt; restart(&mut server), Ok(NOTHING_TO_DO));
    let job = changed(&mut server, 1, &patch(17), &page(1, 17))?;
    assert_eq!(rt; ended(server.commit(job)), Ok(3));
    Ok(())
}
