// Battery memory: power lost at each write and at each force, with each choice of what stands.
use battery::{PowerCut, battery_log, battery_pages};
use device::{LogFault, LogStore, PageFault, PageStore};

// Three pages are written in turn; then the store ends, and the memory is looked at.
fn written(at: u64, stands: u32) -> [u8; 3] {
    let mut memory = [[0; 256]; 3];
    let mut store = battery_pages(&mut memory, PowerCut::at(at, stands));
    for page in 0..3 {
        let _ = store.write(page, &[1; 256]);
    }
    [memory[0][0], memory[1][128], memory[2][255]]
}

#[test]
fn each_write(rt: HostRuntime) {
    assert_eq!(rt; written(0, 0), [1, 1, 1]);
    assert_eq!(rt; written(1, 0), [0, 0, 0]);
    assert_eq!(rt; written(1, 1), [1, 0, 0]);
    assert_eq!(rt; written(2, 0), [1, 0, 0]);
    assert_eq!(rt; written(2, 1), [1, 1, 0]);
    assert_eq!(rt; written(3, 0), [1, 1, 0]);
    assert_eq!(rt; written(3, 9), [1, 1, 1]);
    assert_eq!(rt; written(4, 0), [1, 1, 1]);
}

// One slot is appended and forced, two more are appended and forced; power comes back, and the slots are counted.
fn forced(at: u64, stands: u32) -> Result<u32, LogFault> {
    let mut memory = [[0; 60]; 3];
    let mut log = battery_log(&mut memory, PowerCut::at(at, stands));
    let _ = log.append(&[1; 60]);
    let _ = log.force();
    let _ = log.append(&[2; 60]);
    let _ = log.append(&[3; 60]);
    let _ = log.force();
    log.power_on();
    log.len()
}

#[test]
fn each_force(rt: HostRuntime) {
    assert_eq!(rt; forced(0, 0), Ok(3));
    assert_eq!(rt; forced(1, 0), Ok(0));
    assert_eq!(rt; forced(1, 1), Ok(1));
    assert_eq!(rt; forced(2, 0), Ok(1));
    assert_eq!(rt; forced(2, 1), Ok(2));
    assert_eq!(rt; forced(2, 2), Ok(3));
    assert_eq!(rt; forced(2, 9), Ok(3));
    assert_eq!(rt; forced(3, 0), Ok(3));
}

// Writes outside and without power are not counted, and the count runs on when power comes back.
#[test]
fn pages_without_power(rt: HostRuntime) {
    let mut memory = [[0; 256]; 2];
    let mut store = battery_pages(&mut memory, PowerCut::at(2, 0));
    assert_eq!(rt; store.write(2, &[1; 256]), Err(PageFault::Outside));
    assert_eq!(rt; store.write(0, &[1; 256]), Ok(()));
    assert_eq!(rt; store.write(1, &[1; 256]), Err(PageFault::PowerLost(1)));
    assert_eq!(rt; store.write(7, &[1; 256]), Err(PageFault::PowerLost(7)));
    assert!(rt; !store.is_powered());
    store.power_on();
    assert_eq!(rt; store.write(1, &[2; 256]), Ok(()));
    assert_eq!(rt; store.write(1, &[3; 256]), Ok(()));
    assert_eq!(rt; memory[1][0], 3);
}

#[test]
fn log_without_power(rt: HostRuntime) {
    let mut memory = [[9; 60]; 2];
    let mut log = battery_log(&mut memory, PowerCut::at(1, 1));
    assert_eq!(rt; log.len(), Ok(0));
    assert_eq!(rt; log.append(&[1; 60]), Ok(()));
    assert_eq!(rt; log.append(&[2; 60]), Ok(()));
    assert_eq!(rt; log.append(&[3; 60]), Err(LogFault::Full));
    assert_eq!(rt; log.force(), Err(LogFault::PowerLost(2)));
    assert_eq!(rt; log.append(&[3; 60]), Err(LogFault::PowerLost(3)));
    assert_eq!(rt; log.force(), Err(LogFault::PowerLost(2)));
    log.power_on();
    assert_eq!(rt; log.len(), Ok(1));
    assert_eq!(rt; log.append(&[4; 60]), Ok(()));
    assert_eq!(rt; log.force(), Ok(()));
    assert_eq!(rt; [memory[0][0], memory[1][59]], [1, 4]);
}
