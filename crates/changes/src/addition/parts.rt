// How an addition is made of an offset and an amount, and what it shows of them.
ghost use Rattle.std.specs.Prelude.{◌≡◌, is_some, nat_le};
ghost use Rattle.changes.specs.Additions.{addition_of};

use super::Addition;

impl Addition {
    // The addition of `amount` to the four bytes from `offset` on; there is none past the content's end.
    pub fn new(offset: u8, amount: u32) -> Option<Addition>
        ensures made { result ≡ addition_of offset amount }
        ensures range { is_some result ≡ nat_le offset 248 }
    {
        if offset > 248 {
            return None;
        }
        Some(Addition { offset, amount })
    }

    pub fn offset(&self) -> u8
        ensures { result ≡ self.now.offset }
    {
        self.offset
    }

    pub fn amount(&self) -> u32
        ensures { result ≡ self.now.amount }
    {
        self.amount
    }
}
