// Lines that are no commands, each with what is said of it.
use crate::bad_line::{Argument, BadLine};
use crate::parser::parse;

#[test]
fn bad_lines(rt: HostRuntime) {
    let cases = [
        ("frob", BadLine::Expected(Argument::Command)),
        ("; raise 1", BadLine::Expected(Argument::Command)),
        (
            "store pages=2 kind=patch",
            BadLine::Expected(Argument::Slots),
        ),
        (
            "store pages=65537 slots=8 kind=patch",
            BadLine::Expected(Argument::Pages),
        ),
        (
            "store pages=2 slots=8 kind=change",
            BadLine::Expected(Argument::Kind),
        ),
        ("fetch 1", BadLine::Expected(Argument::Page)),
        ("fetch 1 -1", BadLine::Expected(Argument::Page)),
        ("fetch 1 0 65537", BadLine::Expected(Argument::Length)),
        ("record 1 0 4294967296 00", BadLine::Expected(Argument::Lrc)),
        ("record 1 0 1 000", BadLine::Expected(Argument::Bytes)),
        ("ship 1 0 0A", BadLine::Expected(Argument::Bytes)),
        ("pokeappend 01", BadLine::Expected(Argument::SlotBytes)),
        ("dark store", BadLine::Expected(Argument::Device)),
        ("open 1", BadLine::TooManyWords),
        ("dump ; raise 1", BadLine::NotACall),
        ("open ;", BadLine::Expected(Argument::Outcome)),
        ("open ; dark 0 old", BadLine::Expected(Argument::Operation)),
        ("open ; dark 1 late", BadLine::Expected(Argument::Choice)),
        ("open ; raise", BadLine::Expected(Argument::Raise)),
        ("open ; raise 1 ; raise 2", BadLine::OutcomeTwice),
    ];
    for (line, why) in cases {
        assert_eq!(rt; parse(rt.alloc(), line).err(), Some(why), "in {line}");
    }
}
