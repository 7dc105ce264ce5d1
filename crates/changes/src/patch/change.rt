// A patch as a kind of change: its 40 bytes, and putting it on content.
ghost use Rattle.std.specs.Prelude.{◌≡◌, length, is_some};
ghost use Rattle.changes.specs.Patches.{patch_meaning, is_patch, xored, patch_kind};
ghost use Rattle.changes.specs.KindLaws.{kind_lawful};
ghost use Rattle.changes.specs.PatchLaws.{patch_sound};

use super::Patch;
use format::{Change, all_zero};

impl Change for Patch {
    ghost meaning = { patch_meaning };

    ghost lawful = { kind_lawful patch_kind patch_sound };

    fn from_bytes(bytes: &[u8; 40]) -> Option<Patch>
        ensures reads { result ≡ patch_meaning.reads bytes.now }
        ensures forms { is_some result ≡ is_patch bytes.now }
    {
        let [1, offset, length, 0, ..] = &bytes[..] else {
            return None;
        };
        let end = 4 + *length as usize;
        if end > 36 || !all_zero(&bytes[end..]) {
            return None;
        }
        Patch::new(*offset, &bytes[4..end])
    }

    fn to_bytes(&self) -> [u8; 40] {
        let mut bytes = [0; 40];
        bytes[0] = 1;
        bytes[1] = self.offset;
        bytes[2] = self.length;
        bytes[4..36].copy_from_slice(&self.mask);
        bytes
    }

    fn put(&self, content: &mut [u8; 252]) {
        let from = self.offset as usize;
        let to = from + self.length as usize;
        xor_into(&mut content[from..to], self.bytes());
    }

    // Exclusive-or with the same bytes again gives the former content.
    fn take_back(&self, content: &mut [u8; 252]) {
        self.put(content);
    }
}

fn xor_into(part: &mut [u8], mask: &[u8])
    requires { length part.old ≡ length mask.now }
    ensures { part.new ≡ xored mask.now part.old }
{
    // By index: after `part.iter_mut().zip(mask)` no proof knows what was written.
    for (i, other) in mask.iter().enumerate() {
        part[i] ^= *other;
    }
}
