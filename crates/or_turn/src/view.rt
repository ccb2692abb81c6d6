//! What lies in the table's slot, what the table is told when it is made, and what a seat at it knows.
use or_bus::Bus;
use or_ghost_bytes::GhostBytes;
use or_sched::Mark;
use or_words::Config;

/// The bus with the schedule so far and its marks. It is out between a holder's take and put. It goes in and out with each
/// turn, so the bus, which is far larger than the rest, lies behind a box.
#[derive(Drop)]
pub struct Transfer {
    pub bus: Box<Bus>,
    pub schedule: Vec<u8>,
    pub marks: Vec<Mark>,
}

/// What the table is told when it is made.
#[derive(Drop)]
pub struct OpenedWith {
    pub config: Config,
    pub image: GhostBytes,
    pub input: GhostBytes,
}

/// What a board was opened with. No value of it is made; a clause reads an array as a list, of any length.
pub struct Settings {
    pub config: Config,
    pub image: [u8; 0],
    pub input: [u8; 0],
}

/// What two units had before they were joined. No value of it is made.
pub struct JoinedHalves {
    pub settings: Settings,
    pub cores: [u32; 0],
    pub seen: [u8; 0],
    pub other_settings: Settings,
    pub other_cores: [u32; 0],
    pub other_seen: [u8; 0],
}

/// Where a seat stands in its turn.
pub enum Stage {
    Idle,
    /// It waits with this ticket.
    Waits(u64),
    /// It holds the bus.
    Holds,
    /// It was joined from two seats, and has not looked since.
    Joined(JoinedHalves),
    /// Another seat has what it had.
    Spent,
}

/// What a seat knows. No value of it is made.
pub struct View {
    pub settings: Settings,
    /// The numbers of the cores that the unit holds.
    pub cores: [u32; 0],
    /// A beginning of the schedule.
    pub seen: [u8; 0],
    /// The opener token, with its count of enrolled cores.
    pub opening: Option<u32>,
    pub stage: Stage,
}
