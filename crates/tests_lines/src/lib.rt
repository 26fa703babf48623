//! How the cases of the test programs are written, a line each: `\n`, `\t`, `\\` and `\xHH` stand for a newline, a tab,
//! a backslash and the byte HH, and `%N*TEXT%` for TEXT, N times.
#![tactic(auto)]

use std::alloc::{AllocError, Global};

/// What the bytes so far leave open.
#[derive(Clone, Copy)]
enum State {
    Plain,
    Escape,
    High,
    Low(u8),
    Count(u32),
}

/// The bytes so far, and how often those from a place on are to stand.
#[derive(Drop)]
struct Decoder {
    alloc: Global,
    bytes: Vec<u8>,
    state: State,
    repeated: Option<(u32, usize)>,
}

/// The value of a hexadecimal digit.
fn digit_of(byte: u8) -> u8 {
    match byte {
        b'0'..=b'9' => byte - b'0',
        b'a'..=b'f' => byte - b'a' + 10,
        _ => 0,
    }
}

impl Decoder {
    fn plain(&mut self, byte: u8) -> Result<(), AllocError> {
        match byte {
            b'\\' => self.state = State::Escape,
            b'%' => match self.repeated {
                None => self.state = State::Count(0),
                Some((count, from)) => self.repeat(count, from)?,
            },
            _ => self.bytes.push(byte)?,
        }
        Ok(())
    }

    fn repeat(&mut self, count: u32, from: usize) -> Result<(), AllocError> {
        let mut part = Vec::new(self.alloc);
        part.extend_from_slice(self.bytes.get(from..).unwrap_or(&[]))?;
        self.bytes.truncate(from);
        for _ in 0..count {
            self.bytes.extend_from_slice(part.as_slice())?;
        }
        self.repeated = None;
        Ok(())
    }

    fn escape(&mut self, byte: u8) -> Result<(), AllocError> {
        self.state = State::Plain;
        match byte {
            b'n' => self.bytes.push(b'\n')?,
            b't' => self.bytes.push(b'\t')?,
            b'x' => self.state = State::High,
            _ => self.bytes.push(byte)?,
        }
        Ok(())
    }

    fn count(&mut self, count: u32, byte: u8) {
        if byte == b'*' {
            self.state = State::Plain;
            self.repeated = Some((count, self.bytes.len()));
        } else {
            self.state = State::Count(
                count
                    .saturating_mul(10)
                    .saturating_add(digit_of(byte) as u32),
            );
        }
    }

    fn take(&mut self, byte: u8) -> Result<(), AllocError> {
        match self.state {
            State::Plain => self.plain(byte)?,
            State::Escape => self.escape(byte)?,
            State::High => self.state = State::Low(digit_of(byte)),
            State::Low(high) => {
                self.bytes.push((high << 4) | digit_of(byte))?;
                self.state = State::Plain;
            }
            State::Count(count) => self.count(count, byte),
        }
        Ok(())
    }
}

/// The bytes that the text stands for.
pub fn decoded(alloc: Global, text: &str) -> Result<Vec<u8>, AllocError> {
    let mut decoder = Decoder {
        alloc,
        bytes: Vec::new(alloc),
        state: State::Plain,
        repeated: None,
    };
    for byte in text.as_bytes() {
        decoder.take(*byte)?;
    }
    Ok(decoder.bytes)
}
