// What tests do with a server, and the bytes that they hand to it, as the formats lay them out.
use battery::{BatteryLog, BatteryPages, battery_log, battery_pages};
use device::{LogStore, PageStore};
use format::Change;
use rules::Refusal;
use server::{JobHandle, NotEnded, Server};
use std::alloc::{AllocError, Global};

// What the three passes of a restart answer.
pub(crate) type Passes = ((u32, u32, u32), (u32, u32), (u32, u32));

// Over blank devices.
pub(crate) const NOTHING_TO_DO: Passes = ((1, 0, 0), (0, 0), (0, 0));

// A server over battery memory that keeps its power.
pub(crate) fn server_in<'a, K: Change + Drop>(
    heap: Global,
    pages: &'a mut [[u8; 256]],
    slots: &'a mut [[u8; 60]],
) -> Result<Server<BatteryPages<'a>, BatteryLog<'a>, K>, AllocError> {
    Server::new(heap, battery_pages(pages, None), battery_log(slots, None))
}

pub(crate) fn restart<P: PageStore, L: LogStore, K: Change + Drop>(
    server: &mut Server<P, L, K>,
) -> Result<Passes, Refusal> {
    let (found, analysed) = server.analysis()?;
    let (replayed, redone) = server.redo(analysed)?;
    let undone = server.undo(redone)?;
    Ok((found, replayed, undone))
}

// A new job with a change of page 0, which is not shipped.
pub(crate) fn recorded<P: PageStore, L: LogStore, K: Change + Drop>(
    server: &mut Server<P, L, K>,
    lrc: u32,
    change: &[u8; 40],
) -> Result<JobHandle, Refusal> {
    let job = server.open()?;
    server.fetch(&job, 0, &mut [0; 256])?;
    server.record(&job, 0, lrc, change)?;
    Ok(job)
}

// The same, and the page is shipped.
pub(crate) fn changed<P: PageStore, L: LogStore, K: Change + Drop>(
    server: &mut Server<P, L, K>,
    lrc: u32,
    change: &[u8; 40],
    image: &[u8; 256],
) -> Result<JobHandle, Refusal> {
    let job = recorded(server, lrc, change)?;
    server.ship(&job, 0, image)?;
    Ok(job)
}

// Page 0, as a look gives it.
pub(crate) fn seen<P: PageStore, L: LogStore, K: Change + Drop>(
    server: &mut Server<P, L, K>,
) -> Result<[u8; 256], Refusal> {
    let mut page = [9; 256];
    server.look(0, &mut page)?;
    Ok(page)
}

// What commit or abort answered, without the handle.
pub(crate) fn ended<A>(answer: Result<A, NotEnded>) -> Result<A, Refusal> {
    answer.map_err(|why| match why {
        NotEnded::Refused(refusal, _) => refusal,
        NotEnded::PowerLost(device, place) => Refusal::PowerLost(device, place),
    })
}

// A patch of the first byte of the content.
pub(crate) fn patch(byte: u8) -> [u8; 40] {
    let mut bytes = [0; 40];
    bytes[0] = 1;
    bytes[2] = 1;
    bytes[4] = byte;
    bytes
}

// An addition to the first four bytes of the content.
pub(crate) fn addition(amount: u32) -> [u8; 40] {
    let mut bytes = [0; 40];
    bytes[0] = 2;
    bytes[4..8].copy_from_slice(&amount.to_le_bytes());
    bytes
}

// A page whose content begins with this byte and is zero else.
pub(crate) fn page(lrc: u8, byte: u8) -> [u8; 256] {
    let mut bytes = [0; 256];
    bytes[0] = lrc;
    bytes[4] = byte;
    bytes
}
