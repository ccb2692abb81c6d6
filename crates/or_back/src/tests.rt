use super::*;
use or_replay::Board;
use or_words::Config;
use or_words::limits::IMAGE_LIMIT;
use std::alloc::Global;

// A file with one segment of two instructions at 00000100, a jump to itself and what stands behind it.
const LOOPS: [u8; 92] = [
    0x7F, 0x45, 0x4C, 0x46, 1, 2, 1, 0, 0, 0, 0, 0, 0, 0, 0, 0, //
    0, 2, 0, 0x5C, 0, 0, 0, 1, 0, 0, 1, 0, 0, 0, 0, 0x34, //
    0, 0, 0, 0, 0, 0, 0, 0, 0, 0x34, 0, 0x20, 0, 1, 0, 0, //
    0, 0, 0, 0, 0, 0, 0, 1, 0, 0, 0, 0x54, 0, 0, 1, 0, //
    0, 0, 1, 0, 0, 0, 0, 8, 0, 0, 0, 8, 0, 0, 0, 7, //
    0, 0, 0, 4, 0, 0, 0, 0, 0x15, 0, 0, 0,
];

// A history of so many turns of one core.
fn history_of(alloc: Global, image: &[u8], many: u32, every: u64) -> Option<History> {
    if image.len() > IMAGE_LIMIT || every == 0 {
        return None;
    }
    let config = Config {
        cores: 1,
        budget: 2000,
        ram: 1,
        latched: false,
    };
    let Ok(board) = Board::open(alloc, &config, image, Vec::new(alloc)) else {
        return None;
    };
    let mut turns = Vec::new(alloc);
    for _ in 0..many {
        if turns.push(0).is_err() {
            return None;
        }
    }
    History::open(alloc, board, turns, every).ok()
}

// Copies on the way save turns.
#[test]
fn going_back(rt: HostRuntime) {
    let alloc = rt.alloc();
    if let Some(mut history) = history_of(alloc, &LOOPS, 1000, 100) {
        for (turn, reached, made) in [
            (1000, 1000, 1000),
            (950, 950, 1050),
            (5, 5, 1055),
            (5000, 1000, 2050),
        ] {
            assert!(rt; history.to(turn) == Ok(reached), "to {turn}");
            assert_eq!(rt; history.made(), made, "to {turn}");
        }
    } else {
        assert!(rt; false, "no history");
    }
}
