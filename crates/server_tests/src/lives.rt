// The life of a job over each pair of devices, with patches or with additions: it changes a page and commits, and then anyone may look.
use crate::steps::{
    NOTHING_TO_DO, Passes, addition, changed, ended, page, patch, restart, seen, server_in,
};
use battery::{battery_log, battery_pages};
use changes::{Addition, Patch};
use device::{LogStore, PageStore};
use format::Change;
use paged_log::PagedLog;
use rules::Refusal;
use script::Script;
use scripted_log::ScriptedLog;
use scripted_pages::ScriptedPages;
use server::{JobHandle, Server, Stage};
use span::Span;
use std::test::Fail;

// What is told of a job: the passes before it, its number, the slot of its commit, and the page that is seen then.
type Told = (Passes, u32, u32, [u8; 256]);

fn life<P: PageStore, L: LogStore, K: Change + Drop>(
    server: &mut Server<P, L, K>,
    change: &[u8; 40],
) -> Result<Told, Refusal> {
    let passes = restart(server)?;
    let job = changed(server, 1, change, &page(1, 17))?;
    let number = job.number();
    let commit = ended(server.commit(job))?;
    Ok((passes, number, commit, seen(server)?))
}

#[test]
fn over_battery_memory(rt: HostRuntime) -> Result<(), Fail> {
    let mut pages = [[0; 256]; 2];
    let mut slots = [[0; 60]; 16];
    let mut server = server_in::<Patch>(rt.alloc(), &mut pages, &mut slots)?;
    let told = life(&mut server, &patch(17))?;
    assert_eq!(rt; told, (NOTHING_TO_DO, 1, 3, page(1, 17)));
    Ok(())
}

#[test]
fn over_a_span(rt: HostRuntime) -> Result<(), Fail> {
    let mut low = [[0; 256]; 1];
    let mut high = [[0; 256]; 1];
    let mut slots = [[0; 60]; 16];
    let pages = Span::new(
        battery_pages(&mut low, None),
        battery_pages(&mut high, None),
    );
    let log = battery_log(&mut slots, None);
    let mut server = Server::<_, _, Addition>::new(rt.alloc(), pages, log)?;
    let told = life(&mut server, &addition(17))?;
    assert_eq!(rt; told, (NOTHING_TO_DO, 1, 3, page(1, 17)));
    Ok(())
}

#[test]
fn over_a_log_on_pages_over_a_span(rt: HostRuntime) -> Result<(), Fail> {
    let mut pages = [[0; 256]; 2];
    let mut low = [[0; 256]; 1];
    let mut high = [[0; 256]; 1];
    let pages = battery_pages(&mut pages, None);
    let both = Span::new(
        battery_pages(&mut low, None),
        battery_pages(&mut high, None),
    );
    let log = PagedLog::new(both);
    let mut server = Server::<_, _, Patch>::new(rt.alloc(), pages, log)?;
    let told = life(&mut server, &patch(17))?;
    assert_eq!(rt; told, (NOTHING_TO_DO, 1, 3, page(1, 17)));
    Ok(())
}

#[test]
fn over_scripted_memory(rt: HostRuntime) -> Result<(), Fail> {
    let script = Script::new(rt.alloc())?;
    let pages = ScriptedPages::new(rt.alloc(), 2, script.clone()?)?;
    let log = ScriptedLog::new(rt.alloc(), 16, script)?;
    let mut server = Server::<_, _, Addition>::new(rt.alloc(), pages, log)?;
    let told = life(&mut server, &addition(17))?;
    assert_eq!(rt; told, (NOTHING_TO_DO, 1, 3, page(1, 17)));
    Ok(())
}

// While a job is open its page is changed in the server and not in the store.
#[test]
fn what_a_tool_sees(rt: HostRuntime) -> Result<(), Fail> {
    let mut pages = [[0; 256]; 2];
    let mut slots = [[0; 60]; 16];
    let mut server = server_in::<Patch>(rt.alloc(), &mut pages, &mut slots)?;
    assert!(rt; server.stage() == Stage::OutOfService);
    restart(&mut server)?;
    let job = changed(&mut server, 1, &patch(17), &page(1, 17))?;
    assert!(rt; server.stage() == Stage::Serving);
    let open = server.jobs().first().map(|entry| (entry.job, entry.next));
    assert_eq!(rt; open, Some((1, 2)));
    assert_eq!(rt; server.copies().first().map(|copy| copy.lrc), Some(1));
    assert_eq!(rt; server.pages().read(0), Ok([0; 256]));
    assert_eq!(rt; server.log().len(), Ok(2));
    let same = JobHandle::from_number(job.number());
    assert_eq!(rt; ended(server.abort(same)), Ok(()));
    assert_eq!(rt; ended(server.commit(job)), Err(Refusal::JobNotOpen));
    Ok(())
}
