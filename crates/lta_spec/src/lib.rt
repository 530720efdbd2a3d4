// The types of the calls. What the calls mean is in specs/, in the order of document 01.
#![tactic(auto)]

mod numbers;

// The shape of a run: C, N, B, M, S, R and Z of document 01.
#[derive(Clone, Copy, Debug, PartialEq, Eq)]
pub struct Shape {
    // C: cells, the memo's lag cells.
    pub cells: u64,
    // N: lags of a cell.
    pub lags: u64,
    // B: data bins of a bank.
    pub bins: u64,
    // M: recirculation blocks, the memo's Nblocks.
    pub blocks: u64,
    // S: the start block, the memo's Start_Blk_Y.
    pub start: u64,
    // R: ticks of a second.
    pub rate: u64,
    // Z: the second in which the run starts.
    pub second: u64,
}

// Who may be told no: a name for each number of documents 01 and 02, in the order 1 to 20.
#[derive(Clone, Copy, Debug, PartialEq, Eq)]
pub enum Refusal {
    BadShape,
    WrongMemory,
    WrongSamples,
    RunFull,
    NoCell,
    BadCommand,
    NoBin,
    NothingHeld,
    NotReady,
    ShortBuffer,
    Damaged,
    NoLag,
    WrongLength,
    WrongMark,
    WrongSum,
    BadField,
    BadRecord,
    WrongBias,
    BadValidity,
    NothingReady,
}

// The six losses, in the order 1 to 6.
#[derive(Clone, Copy, Debug, PartialEq, Eq)]
pub enum Loss {
    Ordered,
    Overrun,
    Full,
    Replaced,
    Wide,
    Holdoff,
}

// A dump or an integration: kept, the loss that it added to, nothing to do (command 111), or the length in bytes of the
// speed frame that is written (command 011).
#[derive(Clone, Copy, Debug, PartialEq, Eq)]
pub enum Moved {
    Kept,
    Lost(Loss),
    Idle,
    Sent(u64),
}

// The numbers of one loss at one lag.
#[derive(Clone, Copy, Debug, PartialEq, Eq)]
pub struct Sums {
    pub i: i64,
    pub q: i64,
    pub ticks: u64,
    pub edge: u64,
    pub centre: u64,
}

// The numbers of one line of a loss page.
#[derive(Clone, Copy, Debug, PartialEq, Eq)]
pub struct Counts {
    pub ticks: u64,
    pub edge: u64,
    pub centre: u64,
}

// The fields of a frame's header words.
#[derive(Clone, Copy, Debug, PartialEq, Eq)]
pub struct Fields {
    // The memo's frame type: 2, a frame of the accumulator; 3, a speed frame.
    pub kind: u32,
    pub cell: u32,
    // Y block, the memo's RECIRC_BLK-Y.
    pub block: u32,
    pub bin: u32,
    pub bank: u32,
    pub ticks: u32,
    pub centre: u32,
    pub edge: u32,
    // W5: the second of the stamp.
    pub second: u32,
    // W6: the ticks of the stamp within its second.
    pub offset: u32,
}

// The kinds of frames.
pub const ACCUMULATED: u32 = 2;

pub const SPEED_FRAME: u32 = 3;

// The most that one tick adds to a sum, in size: 8 × 8 × 2.
pub const PEAK: u32 = 128;

// The two bytes that stand before every frame.
pub const MARK: [u8; 2] = [0x4c, 0x54];

// A part of a slice: where it starts, and how long it is.
#[derive(Clone, Copy, Debug, PartialEq, Eq)]
pub struct Span {
    pub at: u64,
    pub length: u64,
}

// Real and imaginary part of one normalised lag.
#[derive(Clone, Copy)]
pub struct Complex {
    pub re: f64,
    pub im: f64,
}
