//! Calls that are drawn at random.
use crate::call_words::call_of;
use job_calls::Call;
use mos_text::NoMemory;
use std::alloc::Global;

/// Where the next number comes from.
#[derive(Clone, Copy)]
pub struct Random(pub u32);

impl Random {
    /// The next number below this one; 0 where that is 0.
    pub fn below(&mut self, many: u32) -> u32 {
        self.0 = self.0.wrapping_mul(1_664_525).wrapping_add(1_013_904_223);
        (self.0 >> 8).checked_rem(many).unwrap_or(0)
    }

    /// One of the words.
    fn one(&mut self, words: &[&'static str]) -> &'static str {
        words
            .get(self.below(words.len().min(1_000) as u32) as usize)
            .copied()
            .unwrap_or("")
    }

    /// A call of a run, or of a lane that holds none.
    pub fn call(&mut self, alloc: Global, holds: bool) -> Result<Call, NoMemory> {
        if !holds {
            return call_of(alloc, &["claim"]);
        }
        let word = self.one(&WORDS);
        let first = self.first_of(word);
        let second = self.second_of(word);
        call_of(alloc, &[word, first, second, self.one(&["0", "5", "9"])])
    }

    /// What stands behind the word of a call.
    fn first_of(&mut self, word: &str) -> &'static str {
        match word {
            "compile" => self.one(&["c.mos", "m.mos", "d.dat"]),
            "load" => "c.bim",
            "read" | "write" => self.one(&["d.dat", "shmem:a", "shmem:b"]),
            "pipe_read" | "pipe_write" | "put" | "take" | "close" => self.one(&["p", "q"]),
            "finish" => "code",
            _ => self.one(&["1", "2", "3", "-"]),
        }
    }

    /// And what behind that.
    fn second_of(&mut self, word: &str) -> &'static str {
        match word {
            "compile" => "c.bim",
            "put" => self.one(&["1", "5", "2000"]),
            _ => self.one(&["2", "3", "7"]),
        }
    }
}

/// Words of calls, some more often than others.
const WORDS: [&str; 32] = [
    "compile",
    "load",
    "run",
    "run",
    "run",
    "wait",
    "next",
    "next",
    "peek",
    "drop",
    "is_empty",
    "send",
    "send",
    "send",
    "status",
    "exit_code",
    "stop",
    "unload",
    "read",
    "write",
    "write",
    "pipe_read",
    "pipe_read",
    "pipe_write",
    "pipe_write",
    "put",
    "put",
    "put",
    "take",
    "take",
    "close",
    "finish",
];
