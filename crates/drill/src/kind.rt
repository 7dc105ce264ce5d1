// The kinds of change that can be drilled: the changes that a script sends, and what each does to content, in code of the drill's own.
ghost use Rattle.std.specs.Prelude.{◌<◌};

use changes::{Addition, Patch};
use format::Change;

pub trait Drilled: Change + Copy {
    // The change of this number in the script. Neighbours touch some of the same bytes, and no two are alike.
    fn sample(number: u32) -> Self;

    // The ledger does not go by `Change::put`, which the server plays records with.
    fn put_plainly(&self, content: &mut [u8; 252]);
}

impl Drilled for Patch {
    fn sample(number: u32) -> Patch {
        Patch::new(offset(number), &amount(number).to_le_bytes()).unwrap()
    }

    fn put_plainly(&self, content: &mut [u8; 252]) {
        let places = content.iter_mut().skip(self.offset() as usize);
        for (byte, mask) in places.zip(self.bytes()) {
            *byte ^= *mask;
        }
    }
}

impl Drilled for Addition {
    fn sample(number: u32) -> Addition {
        Addition::new(offset(number), amount(number)).unwrap()
    }

    // Byte by byte from the lowest, with a carry that is dropped behind the fourth.
    fn put_plainly(&self, content: &mut [u8; 252]) {
        let places = content.iter_mut().skip(self.offset() as usize);
        let mut carry = 0u16;
        for (byte, more) in places.zip(self.amount().to_le_bytes()) {
            let sum = u16::from(*byte)
                .wrapping_add(u16::from(more))
                .wrapping_add(carry);
            *byte = sum.to_le_bytes()[0];
            carry = sum >> 8;
        }
    }
}

fn offset(number: u32) -> u8
    ensures { result < 5 }
{
    (number % 5) as u8
}

// Four like bytes for a low number, so that a person sees in a page which changes it has.
fn amount(number: u32) -> u32 {
    number.wrapping_mul(0x1111_1111)
}
