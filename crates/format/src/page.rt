// A page: its LRC, which counts the records that it holds, and 252 bytes of content.
ghost use Rattle.std.specs.Prelude.{◌≡◌, ℕ, List, ◌++◌, take, drop, replicate};
ghost use Rattle.format.specs.Bytes.{spelled};
ghost use Rattle.format.specs.Pages.{page_bytes, page_of, blank_page};

use crate::bytes::number_at;

#[derive(Clone, Copy)]
pub struct Page {
    pub lrc: u32,
    pub content: [u8; 252],
}

impl Page {
    // A page that was never written: 256 zeros.
    pub fn blank() -> Page
        ensures value { result ≡ blank_page }
        ensures bytes { page_bytes result ≡ replicate 256 0 }
    {
        Page {
            lrc: 0,
            content: [0; 252],
        }
    }

    // Named as in `Change`; a `from` would not say at its call that it reads bytes.
    pub fn from_bytes(bytes: &[u8; 256]) -> Page
        ensures value { result ≡ page_of bytes.now }
        ensures bytes { page_bytes result ≡ bytes.now }
    {
        let mut content = [0; 252];
        content.copy_from_slice(&bytes[4..256]);
        Page {
            lrc: number_at(bytes, 0),
            content,
        }
    }

    pub fn to_bytes(&self) -> [u8; 256]
        ensures value { result ≡ page_bytes self.now }
        ensures reads { page_of result ≡ self.now }
    {
        let Page { lrc, content } = *self;
        let mut bytes = [0; 256];
        bytes[0..4].copy_from_slice(&lrc.to_le_bytes());
        bytes[4..256].copy_from_slice(&content);
        bytes
    }

    // Sets the LRC; the content's bytes stay.
    pub fn set_lrc(&mut self, lrc: u32)
        ensures { page_bytes self.new ≡ spelled lrc ++ drop 4 (page_bytes self.old) }
    {
        self.lrc = lrc;
    }

    // Sets the content; the LRC's bytes stay.
    pub fn set_content(&mut self, content: &[u8; 252])
        ensures { page_bytes self.new ≡ take 4 (page_bytes self.old) ++ content.now }
    {
        self.content = *content;
    }
}
