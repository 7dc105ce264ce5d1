// A page's last LRC: that of its newest record, or of its copy where the log has none.
ghost use Rattle.std.specs.Prelude.{◌≡◌, ◌≤◌};
ghost use Rattle.rules.specs.Playing.{last_lrc};
ghost use Rattle.rules.specs.Service.{last_of};
ghost use Rattle.rules.specs.State.{working};
ghost use Rattle.calls.specs.Outcomes.{Ready};

use crate::copies::copy_of;
use crate::reading::Reader;
use crate::state::State;
use device::{LogStore, PageStore};
use format::{Change, Slot};

impl<P: PageStore, L: LogStore> State<P, L> {
    pub(crate) fn last_lrc<K: Change + Drop>(&self, page: u32) -> u32
        requires { Ready K.Change.meaning self.now }
        ensures value { result ≡ last_of K.Change.meaning self.now.devices (working self.now.memory) page }
        ensures in_range { result ≤ 8192 }
    {
        let mut last = LastLrc {
            page,
            lrc: copy_of(&self.copies, page).lrc,
        };
        self.read_log::<K, _>(&mut last);
        last.lrc
    }
}

// Before anything is read it has the LRC of the page's copy.
#[derive(Drop)]
struct LastLrc {
    page: u32,
    lrc: u32,
}

impl<K: Change> Reader<K> for LastLrc {
    ghost says = { λ start s L. (s.page ≡ start.page) × (s.lrc ≡ last_lrc start.page start.lrc L) };

    fn note(&mut self, _number: u32, slot: &Slot<K>) {
        if let Slot::Record(record) = slot {
            if u32::from(record.page) == self.page {
                self.lrc = record.lrc;
            }
        }
    }

    ghost unread = { λ start s L said. said };
}
