// A log store in owned memory whose power fails where its script says.
#![tactic(auto)]

ghost use Rattle.std.specs.Prelude.{vec_capacity};
ghost use Rattle.device.specs.LogStores.{SoundLog};

use script::Script;

mod store;
mod tools;

#[derive(Drop)]
pub struct ScriptedLog {
    // Room for all slots that there may be is taken at the making, so that no append wants any.
    slots: Vec<[u8; 60]>,
    forced: u32,
    powered: bool,
    script: Script,
    // What the interface says of every value of the type; of every model, which an `impl Model` would be asked for, it does not hold.
    pub ghost sound: { SoundLog (record { capacity = vec_capacity slots; slots = slots.items; forced = forced; powered = powered }) },
}
