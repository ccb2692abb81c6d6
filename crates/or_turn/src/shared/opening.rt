//! The opening.
ghost use Rattle.std.specs.Prelude.{◌≡◌, ℕ, ◌+◌, ◌*◌, ◌/◌, ◌<◌, ◌≤◌, [], ◌∷◌, length, None, Some, IfOk, MatchResult, slice_index_or, vec_len, vec_capacity};
ghost use Rattle.or_words.specs.Settings.{Fits, ram_bytes};
ghost use Rattle.or_words.specs.declared.limits.TheConstants.{IMAGE_LIMIT};
ghost use Rattle.or_elf.specs.Fault.{elf_fault};
ghost use Rattle.or_replay.specs.Board.{IsBoard};
ghost use Rattle.or_replay.specs.Opening.{FailsToOpen};
ghost use Rattle.or_turn.specs.Schedules.{first_board};
ghost use Rattle.or_turn.specs.Rule.{settings_of};
ghost use Rattle.or_turn.specs.SeatViews.{seat_view};
ghost use Rattle.or_turn.specs.Units.{Fresh, AreOpened};

use super::Shared;
use super::steps::{Top, enrol, split};
use crate::unit::{TurnSeat, TurnUnit};
use crate::view::{OpenedWith, Transfer};
use arrayvec::ArrayVec;
use atomic_table::Table;
use or_bus::Bus;
use or_core::Core;
use or_ghost_bytes::GhostBytes;
use or_replay::{Board, OpenFault};
use or_waiters::Waiters;
use or_words::limits::BLOCK;
use or_words::{Config, NoMemory};
use std::alloc::Global;

// One unit for each core.
fn seat_all(
    alloc: Global,
    top: &Top,
    first: TurnSeat,
    mut row: ArrayVec<Core, 8>,
    cores: u32,
) -> Result<Vec<TurnUnit>, NoMemory>
    requires table { (first.table_id ≡ top.now.table_id) × (top.now.table_id.words ≡ 3) × (top.now.table_id.slots ≡ 1) }
    requires fits { Fits first.me.0.settings.config × (cores ≡ first.me.0.settings.config.cores) × (row.items ≡ (first_board first.me.0.settings).cores) }
    requires first { first.me ≡ (seat_view first.me.0.settings 0, []) }
    ensures len { IfOk result (λ units. vec_len units ≡ cores) }
    ensures each { IfOk result (λ units. (n : ℕ) (d : _) → n < cores → Fresh top.now.table_id first.me.0.settings n (slice_index_or units.items n d)) }
{
    let mut units = Vec::with_capacity(alloc, cores as usize)?;
    let mut seat = first;
    for number in 0..cores {
        enrol(top, &mut seat);
        let next = split(top, &mut seat);
        units.push_reserved(TurnUnit::fresh(seat, row.remove(0)));
        seat = next;
    }
    Ok(units)
}

// The slot's first value: the bus, with no turn made, and room for all turns and their marks.
fn first_transfer(alloc: Global, config: &Config, bus: Bus) -> Result<Transfer, NoMemory>
    requires fits { Fits config.now }
    ensures bus { IfOk result (λ transfer. transfer.bus.value ≡ bus) }
    ensures none { IfOk result (λ transfer. (transfer.schedule.items ≡ []) × (transfer.marks.items ≡ [])) }
    ensures room { IfOk result (λ transfer. (config.now.cores * config.now.budget ≤ vec_capacity transfer.schedule) × (config.now.cores * config.now.budget / BLOCK ≤ vec_capacity transfer.marks)) }
{
    let turns = config.cores as usize * config.budget as usize;
    let schedule = Vec::with_capacity(alloc, turns)?;
    let marks = Vec::with_capacity(alloc, turns / BLOCK)?;
    let bus = Box::new(alloc, bus)?;
    Ok(Transfer {
        bus,
        schedule,
        marks,
    })
}

// What units share of a board before its first turn, and the units.
fn share(
    alloc: Global,
    opened: &OpenedWith,
    board: Board,
) -> Result<(Shared, Vec<TurnUnit>), NoMemory>
    requires fits { Fits opened.now.config }
    requires board { IsBoard board.cores board.bus (first_board (settings_of opened.now)) }
    ensures { IfOk result (λ r. AreOpened (settings_of opened.now) r.0 r.1) }
{
    let (row, bus) = board.into_parts();
    let transfer = first_transfer(alloc, &opened.config, bus)?;
    let mut slots = Vec::with_capacity(alloc, 1)?;
    slots.push_reserved(Some(transfer));
    let Ok((table, first)) = Table::new(alloc, &[0, 0, 0], slots, opened) else {
        return Err(NoMemory);
    };
    let units = seat_all(alloc, &table.shared, first, row, opened.config.cores)?;
    let shared = Shared {
        table,
        waiters: Waiters::new(opened.config.cores),
    };
    Ok((shared, units))
}

impl Shared {
    /// A board with these settings over an image, with the input for its console, and one unit for each core, in order of
    /// number. The image has at most 64 MiB. It reserves room for all turns of the schedule, for its marks and for all that
    /// the console can show, so that no later call takes memory.
    ///
    /// Errors: Elf exactly where the image has this fault, which is found before memory is taken; NoMemory.
    pub fn open(
        alloc: Global,
        config: &Config,
        image: &[u8],
        input: Vec<u8>,
    ) -> Result<(Shared, Vec<TurnUnit>), OpenFault>
        requires fits { Fits config.now }
        requires limit { length image.now ≤ IMAGE_LIMIT }
        ensures opened { MatchResult result
            (λ r. (elf_fault image.now (ram_bytes config.now) ≡ None) × AreOpened (record { config = config.now; image = image.now; input = input.items }) r.0 r.1)
            (λ fault. FailsToOpen image.now (ram_bytes config.now) fault) }
    {
        let opened = OpenedWith {
            config: *config,
            image: GhostBytes::of(image),
            input: GhostBytes::of(input.as_slice()),
        };
        match Board::open(alloc, config, image, input) {
            Ok(board) => match share(alloc, &opened, board) {
                Ok(both) => Ok(both),
                Err(_) => Err(OpenFault::NoMemory),
            },
            Err(fault) => Err(fault),
        }
    }
}
