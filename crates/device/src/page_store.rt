// A page store: pages of 256 bytes that a write replaces whole, and power that may be lost in a write.
ghost use Rattle.std.specs.Prelude.{◌≡◌, length};
ghost use Rattle.device.specs.PageStores.{PageModel, SoundPages, PageRead, PageWritten, powered_on, fault_at};

// Pages are numbered below this.
pub const MOST_PAGES: u32 = 65_536;

// Without power every call answers `PowerLost`, but for the size, whether there is power, and to power on.
#[derive(Clone, Copy, Debug, PartialEq, Eq)]
pub enum PageFault {
    // There was no power at this page, or it was lost there.
    PowerLost(u32),
    // The store has no such page.
    Outside,
}

impl PageFault {
    // The same fault in a store that has the faulty one as a part, and numbers its pages otherwise.
    pub fn at(self, page: u32) -> PageFault
        ensures { result ≡ fault_at self page }
    {
        match self {
            PageFault::PowerLost(_) => PageFault::PowerLost(page),
            PageFault::Outside => PageFault::Outside,
        }
    }
}

pub trait PageStore {
    ghost model: { Self → PageModel };

    ghost sound: { (s : Self) → SoundPages (model s) };

    // How many pages there are; that never changes.
    fn size(&self) -> u32
        ensures { result ≡ length (model self.now).pages };

    fn is_powered(&self) -> bool
        ensures { result ≡ (model self.now).powered };

    fn read(&self, page: u32) -> Result<[u8; 256], PageFault>
        ensures { PageRead (model self.now) page result };

    fn write(&mut self, page: u32, bytes: &[u8; 256]) -> Result<(), PageFault>
        ensures { PageWritten (model self.old) page bytes.now result (model self.new) };

    fn power_on(&mut self)
        ensures { model self.new ≡ powered_on (model self.old) };
}
