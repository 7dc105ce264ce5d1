// A log on pages: what pages of any bytes say, and what a loss of power leaves.
use crate::counting::Counting;
use battery::{PowerCut, battery_pages};
use device::{LogFault, LogStore};
use paged_log::PagedLog;
use span::Span;

// A page of old bytes with this count.
fn old_page(count: u8) -> [u8; 256] {
    let mut page = [9; 256];
    page[..4].copy_from_slice(&[count, 0, 0, 0]);
    page
}

// Appends a fourth slot before a page of old bytes, with the power cut in a write, and says the length after
// power is back and that of a log made again.
fn fourth_slot(at: u64, stands: u32) -> [Result<u32, LogFault>; 2] {
    let mut memory = [old_page(3), old_page(4)];
    let mut log = PagedLog::new(battery_pages(&mut memory, PowerCut::at(at, stands)));
    let _ = log.append(&[5; 60]);
    log.power_on();
    let kept = log.len();
    [kept, PagedLog::new(log.into_pages()).len()]
}

#[test]
fn nothing_old_enters_the_log(rt: HostRuntime) {
    assert_eq!(rt; fourth_slot(1, 0), [Ok(3), Ok(3)]);
    assert_eq!(rt; fourth_slot(1, 1), [Ok(3), Ok(3)]);
    assert_eq!(rt; fourth_slot(2, 0), [Ok(3), Ok(3)]);
    assert_eq!(rt; fourth_slot(2, 1), [Ok(4), Ok(4)]);
    assert_eq!(rt; fourth_slot(0, 0), [Ok(4), Ok(4)]);
}

#[test]
fn pages_of_any_bytes_are_a_log(rt: HostRuntime) {
    let mut memory = [[9; 256], old_page(1)];
    let mut log = PagedLog::new(battery_pages(&mut memory, None));
    assert_eq!(rt; log.len(), Ok(5));
    assert_eq!(rt; log.append(&[5; 60]), Ok(()));
    drop(log);
    let mut page = old_page(2);
    page[4..16].copy_from_slice(&[0; 12]);
    page[76..136].copy_from_slice(&[5; 60]);
    assert_eq!(rt; memory[1], page);
}

#[test]
fn a_log_over_a_span(rt: HostRuntime) {
    let mut low = [[0; 256]; 1];
    let mut high = [[0; 256]; 1];
    let cut = PowerCut::at(1, 0);
    let mut log = PagedLog::new(Span::new(
        battery_pages(&mut low, None),
        battery_pages(&mut high, cut),
    ));
    assert_eq!(rt; log.capacity(), 8);
    for i in 1..5 {
        assert_eq!(rt; log.append(&[i; 60]), Ok(()));
    }
    assert_eq!(rt; log.append(&[5; 60]), Err(LogFault::PowerLost(5)));
    assert_eq!(rt; log.force(), Err(LogFault::PowerLost(5)));
    log.power_on();
    assert_eq!(rt; log.len(), Ok(4));
    assert_eq!(rt; log.append(&[6; 60]), Ok(()));
    assert_eq!(rt; log.len(), Ok(5));
}

// Holds a log over a span of any two stores and asks nothing of them: the log's type asks nothing of its parameter either.
#[derive(Drop)]
struct Kept<A, B> {
    log: PagedLog<Span<A, B>>,
}

#[test]
fn a_log_held_by_a_struct_over_any_stores(rt: HostRuntime) {
    let mut low = [[0; 256]; 1];
    let mut high = [[0; 256]; 1];
    let mut kept = Kept {
        log: PagedLog::new(Span::new(
            battery_pages(&mut low, None),
            battery_pages(&mut high, None),
        )),
    };
    assert_eq!(rt; kept.log.append(&[7; 60]), Ok(()));
    assert_eq!(rt; kept.log.len(), Ok(1));
}

#[test]
fn an_append_writes_two_pages_at_most(rt: HostRuntime) {
    let mut memory = [old_page(4), old_page(3), old_page(0), old_page(0)];
    let mut log = PagedLog::new(Counting::new(battery_pages(&mut memory, None)));
    assert_eq!(rt; log.append(&[5; 60]), Ok(()));
    let pages = log.into_pages();
    assert_eq!(rt; pages.reads(), 4);
    assert_eq!(rt; pages.writes(), 2);
}
