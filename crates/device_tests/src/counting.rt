// A page store that counts the reads and the writes of the store that it has.
use device::{PageFault, PageStore};
use std::cell::Cell;

#[derive(Drop)]
pub struct Counting<P> {
    pages: P,
    reads: Cell<u32>,
    writes: u32,
}

impl<P> Counting<P> {
    pub(crate) fn new(pages: P) -> Counting<P> {
        Counting {
            pages,
            reads: Cell::new(0),
            writes: 0,
        }
    }

    pub(crate) fn reads(&self) -> u32 {
        self.reads.get()
    }

    pub(crate) fn writes(&self) -> u32 {
        self.writes
    }
}

impl<P: PageStore> PageStore for Counting<P> {
    ghost model = { λ s. P.PageStore.model s.pages };

    ghost sound = { λ s. P.PageStore.sound s.pages };

    fn size(&self) -> u32 {
        self.pages.size()
    }

    fn is_powered(&self) -> bool {
        self.pages.is_powered()
    }

    fn read(&self, page: u32) -> Result<[u8; 256], PageFault> {
        self.reads.set(self.reads.get().wrapping_add(1));
        self.pages.read(page)
    }

    fn write(&mut self, page: u32, bytes: &[u8; 256]) -> Result<(), PageFault> {
        self.writes = self.writes.wrapping_add(1);
        self.pages.write(page, bytes)
    }

    fn power_on(&mut self) {
        self.pages.power_on();
    }
}
