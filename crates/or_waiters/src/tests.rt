use crate::{StayEnd, Waiters};

// A stay of 256 turns, the most, that ends behind so many turns of all cores.
fn full_stay(turns: u64) -> StayEnd {
    StayEnd {
        began: turns.saturating_sub(256),
        turns,
        most: 256,
        spins: false,
    }
}

#[test]
fn who_is_passed_is_woken_and_then_served(rt: HostRuntime) {
    let waiters = Waiters::new(2);
    assert_eq!(rt; waiters.choose(&full_stay(256)), None, "nobody waits");
    waiters.begin(1);
    waiters.announce(1);
    assert_eq!(rt;
        waiters.choose(&full_stay(512)),
        Some(1),
        "woken at half of the bound"
    );
    assert!(rt; waiters.may_take(0), "half of the bound");
    assert_eq!(rt; waiters.choose(&full_stay(768)), Some(1), "the bound");
    assert!(rt; !waiters.may_take(0), "the bus is kept for core 1");
    assert!(rt; waiters.may_take(1), "the bus is kept for core 1");
    waiters.end(1);
    assert_eq!(rt;
        waiters.choose(&full_stay(1024)),
        None,
        "nobody waits any more"
    );
    assert!(rt; waiters.may_take(0), "the bus is kept for nobody");
}

#[test]
fn the_bus_is_kept_for_who_waits_longest(rt: HostRuntime) {
    let waiters = Waiters::new(3);
    waiters.begin(2);
    assert_eq!(rt; waiters.choose(&full_stay(256)), None, "passed by one stay");
    waiters.begin(1);
    assert_eq!(rt;
        waiters.choose(&full_stay(1280)),
        Some(2),
        "core 2 waits longest"
    );
    assert!(rt;
        waiters.may_take(2) && !waiters.may_take(1),
        "kept for core 2"
    );
    waiters.end(2);
    assert_eq!(rt; waiters.choose(&full_stay(2304)), Some(1), "core 1 is left");
    assert!(rt;
        waiters.may_take(1) && !waiters.may_take(2),
        "kept for core 1"
    );
}

#[test]
fn who_spins_hands_over_at_once(rt: HostRuntime) {
    let waiters = Waiters::new(4);
    waiters.begin(3);
    let end = StayEnd {
        began: 100,
        turns: 101,
        most: 256,
        spins: true,
    };
    assert_eq!(rt; waiters.choose(&end), Some(3), "the only waiter");
    assert!(rt;
        waiters.may_take(3) && !waiters.may_take(0),
        "kept for core 3"
    );
}

// How many turns of others core 7 waits, while these take the bus whenever they may.
fn turns_passed(most: u32) -> u64 {
    let waiters = Waiters::new(8);
    waiters.begin(7);
    let mut turns: u64 = 0;
    for _ in 0..10_000 {
        if !waiters.may_take(0) {
            return turns;
        }
        let began = turns;
        turns = turns.wrapping_add(most as u64);
        let end = StayEnd {
            began,
            turns,
            most,
            spins: false,
        };
        let _ = waiters.choose(&end);
    }
    u64::MAX
}

#[test]
fn passed_by_fewer_turns_than_two_stays_of_each(rt: HostRuntime) {
    let stays: [u32; 4] = [1, 16, 256, 4096];
    for most in stays {
        let bound = most as u64 * 2 * 7;
        assert!(rt; turns_passed(most) <= bound, "stays of {most} turns");
    }
}
