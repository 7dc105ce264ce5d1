// What a station holds between calls: the handle of an open job, and the receipts of a restart.
ghost use Rattle.std.specs.Prelude.{◌≡◌};

// An open job. Commit and abort take it, so that a job is ended once. Where it is dropped its job stays open, until an abort by its number or a restart.
#[derive(Debug, Drop)]
pub struct JobHandle {
    pub(crate) number: u32,
}

impl JobHandle {
    // For tools, and for calls that arrive as bytes: whether such a job is open the server asks at each call.
    pub fn from_number(number: u32) -> JobHandle
        ensures { result.number ≡ number }
    {
        JobHandle { number }
    }

    // The number of the slot by which the job was opened.
    pub fn number(&self) -> u32
        ensures { result ≡ self.now.number }
    {
        self.number
    }
}

// Analysis is done: where it began to read, how many jobs were not ended, how many pages may lack records. Redo takes it.
#[derive(Debug, Drop)]
pub struct AnalysisReceipt {
    pub(crate) found: (u32, u32, u32),
}

impl AnalysisReceipt {
    pub fn numbers(&self) -> (u32, u32, u32)
        ensures { result ≡ self.now.found }
    {
        self.found
    }
}

// Redo is done: where it began to read, or 0, and how many records it played. Undo takes it.
#[derive(Debug, Drop)]
pub struct RedoReceipt {
    pub(crate) played: (u32, u32),
}

impl RedoReceipt {
    pub fn numbers(&self) -> (u32, u32)
        ensures { result ≡ self.now.played }
    {
        self.played
    }
}
