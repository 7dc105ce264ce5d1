// The words of a line, taken one after the other.
use crate::bad_line::{Argument, BadLine};
use hex::{FromHex, FromHexError};
use std::alloc::Global;
use std::str::{FromStr, SplitAsciiWhitespace};

// A buffer is asked only whether it has 256 bytes: longer ones than this show nothing more.
const MOST_BUFFER: usize = 65536;

#[derive(Drop)]
pub struct Words<'a> {
    words: SplitAsciiWhitespace<'a>,
}

impl<'a> Words<'a> {
    pub(crate) fn new(text: &'a str) -> Words<'a> {
        Words {
            words: text.split_ascii_whitespace(),
        }
    }

    pub(crate) fn word(&mut self) -> Option<&'a str> {
        self.words.next()
    }

    pub(crate) fn number(&mut self, expected: Argument) -> Result<u32, BadLine> {
        self.word()
            .and_then(|word| word.parse().ok())
            .ok_or(BadLine::Expected(expected))
    }

    // What stands behind a key such as `pages=`.
    pub(crate) fn setting<T: FromStr>(&mut self, key: &str) -> Option<T>
    where
        T::Err: Drop,
    {
        self.word()?.strip_prefix(key)?.parse().ok()
    }

    // A buffer of the length that stands next, of 256 bytes where none does.
    pub(crate) fn buffer(&mut self, heap: Global) -> Result<Vec<u8>, BadLine> {
        let length = self
            .word()
            .map_or(Ok(256), |word| word.parse())
            .ok()
            .filter(|length| *length <= MOST_BUFFER)
            .ok_or(BadLine::Expected(Argument::Length))?;
        Ok(vec![in heap; 0; length]?)
    }

    // No bytes where they are left out.
    pub(crate) fn bytes(&mut self, heap: Global) -> Result<Vec<u8>, BadLine> {
        let digits = self.word().unwrap_or("");
        if !is_lowercase(digits) {
            return Err(BadLine::Expected(Argument::Bytes));
        }
        hex::decode(heap, digits).map_err(|error| match error {
            FromHexError::OutOfMemory => BadLine::OutOfMemory,
            _ => BadLine::Expected(Argument::Bytes),
        })
    }

    pub(crate) fn exactly<const N: usize>(
        &mut self,
        expected: Argument,
    ) -> Result<[u8; N], BadLine> {
        self.word()
            .filter(|digits| is_lowercase(digits))
            .and_then(|digits| <[u8; N] as FromHex>::from_hex(digits).ok())
            .ok_or(BadLine::Expected(expected))
    }

    pub(crate) fn finish(&mut self) -> Result<(), BadLine> {
        match self.word() {
            None => Ok(()),
            Some(_) => Err(BadLine::TooManyWords),
        }
    }
}

// The decoder takes digits of either case.
fn is_lowercase(digits: &str) -> bool {
    !digits.bytes().any(|digit| digit.is_ascii_uppercase())
}
