// One log page: its count and its slots.
ghost use Rattle.std.specs.Prelude.{◌≡◌, ◌/◌, ◌%◌, ◌<◌, ◌++◌, drop, replicate};
ghost use Rattle.format.specs.Bytes.{spelled};
ghost use Rattle.paged_log.specs.PagedLogs.{count_of, slot_in, page_with};

#[derive(Clone, Copy)]
pub(crate) struct LogPage {
    pub(crate) bytes: [u8; 256],
}

impl LogPage {
    pub(crate) fn count(&self) -> u32
        ensures { result ≡ count_of self.now.bytes }
    {
        format::number_at(&self.bytes, 0).min(4)
    }

    pub(crate) fn slot(&self, place: usize) -> [u8; 60]
        requires { place < 4 }
        ensures { result ≡ slot_in self.now.bytes place }
    {
        self.bytes[16..].as_chunks::<60>().0[place]
    }

    // The page gets this slot, and the count that makes it the last.
    pub(crate) fn put(&mut self, place: usize, slot: &[u8; 60])
        requires { place < 4 }
        ensures { self.new.bytes ≡ page_with self.old.bytes place slot.now }
    {
        // By its range of bytes: `as_chunks_mut` says nothing of what the page ends as.
        let at = 16 + 60 * place;
        self.bytes[at..at + 60].copy_from_slice(slot);
        self.set_count(place as u32 + 1);
    }

    fn set_count(&mut self, count: u32)
        ensures { self.new.bytes ≡ spelled count ++ (replicate 12 0 ++ drop 16 self.old.bytes) }
    {
        self.bytes[0..4].copy_from_slice(&count.to_le_bytes());
        self.bytes[4..16].copy_from_slice(&[0; 12]);
    }
}

// The page of slot n, counted from 0, and the slot's place there.
pub(crate) fn page_and_place(n: u32) -> (u32, usize)
    ensures { result ≡ (n / 4, n % 4) }
{
    (n / 4, (n % 4) as usize)
}
