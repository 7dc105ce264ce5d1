// A patch: a kind of change that exclusive-ors up to 32 bytes into a page's content.
ghost use Rattle.std.specs.Prelude.{◌≡◌, true};
ghost use Rattle.changes.specs.PatchForm.{patch_ok};

mod change;
mod parts;

// An array with its length beside, since a patch is copied and lies in no heap: a Vec lies in one, and the kit's ArrayVec is not Copy.
#[derive(Clone, Copy)]
pub struct Patch {
    offset: u8,
    length: u8,
    mask: [u8; 32],
    ghost formed: { patch_ok offset length mask ≡ true },
}
