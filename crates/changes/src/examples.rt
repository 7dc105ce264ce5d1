// Worked values of the two kinds of change, proved from the contracts of the calls.
ghost use Rattle.std.specs.Prelude.{◌≡◌, ◌+◌, ◌%◌, ◌^◌, true, false, take, Some};
ghost use Rattle.format.specs.Bytes.{number_at};

use crate::addition::Addition;
use crate::patch::Patch;
use format::Change;

// A patch of 32 bytes fits at 220, and not at 221.
pub(crate) fn last_patch_places() -> (bool, bool)
    ensures { result ≡ (true, false) }
{
    let bytes = [255; 32];
    (
        Patch::new(220, &bytes).is_some(),
        Patch::new(221, &bytes).is_some(),
    )
}

// 4,294,967,295 added to 3 gives 2, and taken back 3 again.
pub(crate) fn sum_past_the_end() -> Option<(u8, u8)>
    ensures { result ≡ Some (2, 3) }
{
    let addition = Addition::new(0, 4_294_967_295)?;
    let mut content = [0; 252];
    content[0] = 3;
    addition.put(&mut content);
    let sum = content[0];
    addition.take_back(&mut content);
    Some((sum, content[0]))
}

// An addition at 248 adds to the last four bytes, and changes no other.
pub(crate) fn add_at_the_end(content: &mut [u8; 252], amount: u32)
    ensures others { take 248 content.new ≡ take 248 content.old }
    ensures sum { number_at content.new 248 ≡ (number_at content.old 248 + amount) % 2 ^ 32 }
{
    if let Some(addition) = Addition::new(248, amount) {
        addition.put(content);
    }
}
