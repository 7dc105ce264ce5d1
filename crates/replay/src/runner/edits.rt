// Edits of the devices from outside, whether or not they have power.
use crate::bad_line::BadLine;
use crate::command::Edit;
use scripted_log::ScriptedLog;
use scripted_pages::ScriptedPages;
use server::{Device, LogStore};

// Asked before the server is ended, so that an edit that cannot be made alters nothing.
pub(crate) fn check(edit: &Edit, pages: &ScriptedPages, log: &ScriptedLog) -> Result<(), BadLine> {
    match edit {
        Edit::SetPage(page, _) if pages.page(*page).is_none() => Err(BadLine::NoSuchPage),
        Edit::SetSlot(slot, _) if log.slot(*slot).is_none() => Err(BadLine::NoSuchSlot),
        Edit::PutSlot(_) if log.slots() >= log.capacity() => Err(BadLine::LogFull),
        _ => Ok(()),
    }
}

pub(crate) fn make(
    edit: &Edit,
    pages: &mut ScriptedPages,
    log: &mut ScriptedLog,
) -> Result<(), BadLine> {
    match edit {
        Edit::SetPage(page, bytes) => pages
            .set_page(*page, bytes)
            .map_err(|_| BadLine::NoSuchPage),
        Edit::SetSlot(slot, bytes) => log.set_slot(*slot, bytes).map_err(|_| BadLine::NoSuchSlot),
        Edit::PutSlot(bytes) => log.put_slot(bytes).map_err(|_| BadLine::LogFull),
        Edit::CutPower(Device::Pages) => {
            pages.cut_power();
            Ok(())
        }
        Edit::CutPower(Device::Log) => {
            log.cut_power();
            Ok(())
        }
    }
}
