// What a kind of change is: 40 bytes that form one, and what it does to a page's content.
ghost use Rattle.std.specs.Prelude.{◌≡◌};
ghost use Rattle.format.specs.Changes.{Meaning, Lawful};

pub trait Change: Sized {
    // Which 40 bytes form a change, and what content becomes when it is put on it or taken back.
    ghost meaning: { Meaning Self };

    fn from_bytes(bytes: &[u8; 40]) -> Option<Self>
        ensures { result ≡ meaning.reads bytes.now };

    fn to_bytes(&self) -> [u8; 40]
        ensures { result ≡ meaning.bytes self.now };

    fn put(&self, content: &mut [u8; 252])
        ensures { content.new ≡ meaning.put self.now content.old };

    fn take_back(&self, content: &mut [u8; 252])
        ensures { content.new ≡ meaning.back self.now content.old };

    // Taking back what was just put gives the former content, and a change has one form in bytes.
    ghost lawful: { Lawful meaning };
}
