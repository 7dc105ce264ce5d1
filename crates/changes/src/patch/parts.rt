// How a patch is made of an offset and bytes, and what it shows of them.
ghost use Rattle.std.specs.Prelude.{◌≡◌, length, take, is_some};
ghost use Rattle.changes.specs.PatchForm.{patch_range};
ghost use Rattle.changes.specs.Patches.{patch_of, padded};

use super::Patch;

impl Patch {
    // The patch of these bytes from `offset` on; there is none of no bytes, of more than 32, or past the content's end.
    pub fn new(offset: u8, bytes: &[u8]) -> Option<Patch>
        ensures made { result ≡ patch_of offset (length bytes.now) (padded bytes.now) }
        ensures range { is_some result ≡ patch_range offset (length bytes.now) }
    {
        if bytes.is_empty() || bytes.len() > 32 || offset as usize + bytes.len() > 252 {
            return None;
        }
        let mut mask = [0; 32];
        mask[0..bytes.len()].copy_from_slice(bytes);
        Some(Patch {
            offset,
            length: bytes.len() as u8,
            mask,
        })
    }

    pub fn offset(&self) -> u8
        ensures { result ≡ self.now.offset }
    {
        self.offset
    }

    // What is exclusive-ored with the content, from the offset on.
    pub fn bytes(&self) -> &[u8]
        ensures { result.now ≡ take self.now.length self.now.mask }
    {
        &self.mask[0..self.length as usize]
    }
}
