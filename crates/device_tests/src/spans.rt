// A span of two battery memories, with the power cut in either half.
use battery::{PowerCut, battery_pages};
use device::{PageFault, PageStore};
use span::Span;

#[test]
fn power_is_cut_in_the_second_half(rt: HostRuntime) {
    let mut low = [[1; 256]; 2];
    let mut high = [[2; 256]; 2];
    let cut = PowerCut::at(1, 1);
    let mut span = Span::new(battery_pages(&mut low, None), battery_pages(&mut high, cut));
    assert_eq!(rt; span.size(), 4);
    assert_eq!(rt; span.write(1, &[3; 256]), Ok(()));
    assert_eq!(rt; span.write(3, &[4; 256]), Err(PageFault::PowerLost(3)));
    assert!(rt; span.first.is_powered());
    assert_eq!(rt; span.write(0, &[5; 256]), Err(PageFault::PowerLost(0)));
    assert_eq!(rt; span.read(1), Err(PageFault::PowerLost(1)));
    span.power_on();
    assert_eq!(rt; span.read(0), Ok([1; 256]));
    assert_eq!(rt; span.read(1), Ok([3; 256]));
    assert_eq!(rt; span.read(2), Ok([2; 256]));
    assert_eq!(rt; span.read(3), Ok([4; 256]));
}

#[test]
fn power_is_cut_in_the_first_half(rt: HostRuntime) {
    let mut low = [[1; 256]; 2];
    let mut high = [[2; 256]; 2];
    let cut = PowerCut::at(1, 0);
    let mut span = Span::new(battery_pages(&mut low, cut), battery_pages(&mut high, None));
    assert_eq!(rt; span.write(1, &[3; 256]), Err(PageFault::PowerLost(1)));
    assert!(rt; span.second.is_powered());
    assert_eq!(rt; span.write(2, &[5; 256]), Err(PageFault::PowerLost(2)));
    assert_eq!(rt; span.write(9, &[5; 256]), Err(PageFault::PowerLost(9)));
    span.power_on();
    assert_eq!(rt; span.read(1), Ok([1; 256]));
    assert_eq!(rt; span.read(2), Ok([2; 256]));
    assert_eq!(rt; span.read(4), Err(PageFault::Outside));
}
