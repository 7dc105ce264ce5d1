// Entries of the server's tables.

// An open job.
#[derive(Clone, Copy)]
pub struct JobEntry {
    pub job: u32,
    // The number of its newest change not yet taken back, or 0, as a checkpoint writes it.
    pub next: u32,
    // The pages that it holds: an array, since a set would want memory with each hold.
    pub holds: [bool; 64],
}

// A page whose stored copy may lack records, from the slot `start` on.
#[derive(Clone, Copy)]
pub struct DirtyPage {
    pub page: u8,
    pub start: u32,
}
