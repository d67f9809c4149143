//! Gates that hold threads, for tests.

use std::sync::atomic::{AtomicBool, AtomicU64, Ordering};
use threads::Gate;

/// A thread that waits at a gate looks so often, and then notes that it gives up.
const TURNS: u64 = 1_000_000_000;

/// A count that threads wait for.
#[derive(Drop)]
struct Count {
    so_far: AtomicU64,
    gave_up: AtomicBool,
}

impl Count {
    fn new() -> Count {
        Count {
            so_far: AtomicU64::new(0),
            gave_up: AtomicBool::new(false),
        }
    }

    fn add_one(&self) {
        self.so_far.fetch_add(1, Ordering::SeqCst);
    }

    /// Waits until it is no less than this.
    fn wait_for(&self, least: u64) {
        for _ in 0..TURNS {
            if self.so_far.load(Ordering::SeqCst) >= least {
                return;
            }
        }
        self.gave_up.store(true, Ordering::SeqCst);
    }

    fn gave_up(&self) -> bool {
        self.gave_up.load(Ordering::SeqCst)
    }
}

/// Holds each line until all lines before it were answered, in the order of the sessions that they are of.
#[derive(Drop)]
pub struct InTurn {
    order: &'static [u8],
    answered: Count,
}

impl InTurn {
    pub fn new(order: &'static [u8]) -> InTurn {
        InTurn {
            order,
            answered: Count::new(),
        }
    }

    pub fn gave_up(&self) -> bool {
        self.answered.gave_up()
    }
}

/// The place in the order of a line of a session.
fn turn_of(order: &[u8], session: usize, line: usize) -> usize {
    let mut left = line;
    for (place, other) in order.iter().enumerate() {
        if usize::from(*other) != session {
            continue;
        }
        if left == 0 {
            return place;
        }
        left -= 1;
    }
    order.len()
}

impl Gate for InTurn {
    fn before(&self, session: usize, line: usize) {
        self.answered
            .wait_for(turn_of(self.order, session, line) as u64);
    }

    fn after(&self, _session: usize, _line: usize) {
        self.answered.add_one();
    }
}

/// Holds the first line of each of two sessions until the other one has come to its own.
#[derive(Drop)]
pub struct Meeting {
    come: Count,
}

impl Meeting {
    pub fn new() -> Meeting {
        Meeting { come: Count::new() }
    }

    pub fn gave_up(&self) -> bool {
        self.come.gave_up()
    }
}

impl Gate for Meeting {
    fn before(&self, _session: usize, line: usize) {
        if line == 0 {
            self.come.add_one();
            self.come.wait_for(2);
        }
    }

    fn after(&self, _session: usize, _line: usize) {}
}

/// Holds the first session behind its second statement until the second one, which begins after it, has committed
/// three times: each of its third lines is a COMMIT.
#[derive(Drop)]
pub struct Held {
    begun: Count,
    commits: Count,
}

impl Held {
    pub fn new() -> Held {
        Held {
            begun: Count::new(),
            commits: Count::new(),
        }
    }

    pub fn gave_up(&self) -> bool {
        self.begun.gave_up() || self.commits.gave_up()
    }
}

impl Gate for Held {
    fn before(&self, session: usize, line: usize) {
        if session == 1 && line == 0 {
            self.begun.wait_for(1);
        }
    }

    fn after(&self, session: usize, line: usize) {
        match (session, line) {
            (0, 0) => self.begun.add_one(),
            (0, 2) => self.commits.wait_for(3),
            (1, 2 | 5 | 8) => self.commits.add_one(),
            _ => {}
        }
    }
}
