//! A lane that meets others.
ghost use Rattle.std.specs.Prelude.{◌≡◌, true, false};

use lane_crew::Lane;
use std::sync::Wait;
use std::sync::atomic::{AtomicU64, Ordering};
use std::thread;

/// A lane that waits until so many lanes have come.
#[derive(Drop)]
pub struct Guest<'a> {
    pub number: u32,
    pub awaited: u64,
    pub came: &'a AtomicU64,
}

/// The lane's number, and whether it has run.
#[derive(Drop)]
pub struct Left {
    pub number: u32,
    pub ran: bool,
}

impl<'a> Lane for Guest<'a> {
    type End = Left;

    ghost ran = { λ guest end. (end.number ≡ guest.number) × (end.ran ≡ true) };

    ghost quitted = { λ guest end. (end.number ≡ guest.number) × (end.ran ≡ false) };

    fn run<R: Wait>(self, rt: &R) -> Left {
        self.came.fetch_add(1, Ordering::SeqCst);
        for _ in rt.forever() {
            if self.came.load(Ordering::SeqCst) >= self.awaited {
                break;
            }
            thread::yield_now();
        }
        Left {
            number: self.number,
            ran: true,
        }
    }

    fn quit<R: Wait>(self, _rt: &R) -> Left {
        Left {
            number: self.number,
            ran: false,
        }
    }
}
