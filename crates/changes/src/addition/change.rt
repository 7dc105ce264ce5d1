// An addition as a kind of change: its 40 bytes, and putting it on content.
ghost use Rattle.std.specs.Prelude.{◌≡◌, take, drop, is_some};
ghost use Rattle.format.specs.Bytes.{number_at, spelled, rewritten};
ghost use Rattle.changes.specs.Additions.{addition_meaning, is_addition, addition_kind};
ghost use Rattle.changes.specs.KindLaws.{kind_lawful};
ghost use Rattle.changes.specs.AdditionLaws.{addition_sound};

use super::Addition;
use format::{Change, all_zero, number_at};

impl Change for Addition {
    ghost meaning = { addition_meaning };

    ghost lawful = { kind_lawful addition_kind addition_sound };

    fn from_bytes(bytes: &[u8; 40]) -> Option<Addition>
        ensures reads { result ≡ addition_meaning.reads bytes.now }
        ensures forms { is_some result ≡ is_addition bytes.now }
    {
        let [2, offset, 0, 0, ..] = &bytes[..] else {
            return None;
        };
        if !all_zero(&bytes[8..]) {
            return None;
        }
        Addition::new(*offset, number_at(bytes, 4))
    }

    fn to_bytes(&self) -> [u8; 40] {
        let mut bytes = [0; 40];
        bytes[0] = 2;
        bytes[1] = self.offset;
        bytes[4..8].copy_from_slice(&self.amount.to_le_bytes());
        bytes
    }

    fn put(&self, content: &mut [u8; 252]) {
        let sum = self.number(content).wrapping_add(self.amount);
        self.set_number(content, sum);
    }

    fn take_back(&self, content: &mut [u8; 252]) {
        let rest = self.number(content).wrapping_sub(self.amount);
        self.set_number(content, rest);
    }
}

impl Addition {
    // The number at the offset.
    fn number(&self, content: &[u8; 252]) -> u32
        ensures { result ≡ number_at (take 4 (drop self.now.offset content.now)) 0 }
    {
        number_at(content, self.offset as usize)
    }

    fn set_number(&self, content: &mut [u8; 252], number: u32)
        ensures { content.new ≡ rewritten self.now.offset 4 (λ _. spelled number) content.old }
    {
        let at = self.offset as usize;
        content[at..at + 4].copy_from_slice(&number.to_le_bytes());
    }
}
