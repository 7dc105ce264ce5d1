// A page store in owned memory whose power fails where its script says.
#![tactic(auto)]

ghost use Rattle.device.specs.PageStores.{SoundPages};

use script::Script;

mod store;
mod tools;

#[derive(Drop)]
pub struct ScriptedPages {
    pages: Vec<[u8; 256]>,
    powered: bool,
    script: Script,
    // What the interface says of every value of the type; of every model, which an `impl Model` would be asked for, it does not hold.
    pub ghost sound: { SoundPages (record { pages = pages.items; powered = powered }) },
}
