// A span: two page stores, one after the other, as one page store.
#![tactic(auto)]

ghost use Rattle.std.specs.Prelude.{◌≡◌};
ghost use Rattle.span.specs.Spans.{joined, joined_sound};
ghost use Rattle.span.specs.Halves.{Found};

use device::{MOST_PAGES, PageFault, PageStore, check_power};

#[derive(Drop)]
pub struct Span<A, B> {
    pub first: A,
    pub second: B,
}

// The half that has a page; with the second, the page's number there.
#[derive(Clone, Copy)]
enum Half {
    First,
    Second(u32),
}

impl<A, B> Span<A, B> {
    pub fn new(first: A, second: B) -> Span<A, B>
        ensures { result ≡ record { first = first; second = second } }
    {
        Span { first, second }
    }
}

// Without power in either half no page is touched, also where the half that is asked still has power.
impl<A: PageStore, B: PageStore> PageStore for Span<A, B> {
    ghost model = { λ s. joined (A.PageStore.model s.first) (B.PageStore.model s.second) };

    ghost sound = { λ s. joined_sound (A.PageStore.model s.first) (B.PageStore.model s.second) (A.PageStore.sound s.first) (B.PageStore.sound s.second) };

    fn size(&self) -> u32 {
        let both = self.first.size() + self.second.size();
        both.min(MOST_PAGES)
    }

    fn is_powered(&self) -> bool {
        self.first.is_powered() && self.second.is_powered()
    }

    fn read(&self, page: u32) -> Result<[u8; 256], PageFault> {
        match self.find(page)? {
            Half::First => self.first.read(page),
            Half::Second(n) => self.second.read(n).map_err(|fault| fault.at(page)),
        }
    }

    fn write(&mut self, page: u32, bytes: &[u8; 256]) -> Result<(), PageFault> {
        match self.find(page)? {
            Half::First => self.first.write(page, bytes),
            Half::Second(n) => self.second.write(n, bytes).map_err(|fault| fault.at(page)),
        }
    }

    fn power_on(&mut self) {
        self.first.power_on();
        self.second.power_on();
    }
}

impl<A: PageStore, B: PageStore> Span<A, B> {
    fn find(&self, page: u32) -> Result<Half, PageFault>
        ensures { Found (A.PageStore.model self.now.first) (B.PageStore.model self.now.second) page result }
    {
        check_power(self.is_powered(), PageFault::PowerLost(page))?;
        if page >= self.size() {
            return Err(PageFault::Outside);
        }
        let first = self.first.size();
        if page < first {
            Ok(Half::First)
        } else {
            Ok(Half::Second(page - first))
        }
    }
}
