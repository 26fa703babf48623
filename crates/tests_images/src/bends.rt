//! Bytes that are bent, and cut.
use crate::judged::judged;
use crate::tally::Tally;
use mos_text::NoMemory;
use std::alloc::Global;

const MASKS: [u8; 8] = [1, 2, 4, 8, 16, 32, 64, 128];

fn turn(bytes: &mut [u8], place: usize, mask: u8) {
    if let Some(byte) = bytes.get_mut(place) {
        *byte ^= mask;
    }
}

/// Each bit of the byte at a place is turned and turned back.
fn bend_byte(
    alloc: Global,
    bytes: &mut [u8],
    place: usize,
    tally: &mut Tally,
) -> Result<(), NoMemory> {
    for mask in &MASKS {
        turn(bytes, place, *mask);
        tally.add(judged(alloc, bytes)?);
        turn(bytes, place, *mask);
    }
    Ok(())
}

/// What is said where one bit is another one.
pub fn bent(alloc: Global, bytes: &mut [u8]) -> Result<String, NoMemory> {
    let mut tally = Tally::new(alloc)?;
    for place in 0..bytes.len() {
        bend_byte(alloc, bytes, place, &mut tally)?;
    }
    tally.text(alloc)
}

/// What is said of each front that is not the whole.
pub fn cut(alloc: Global, bytes: &[u8]) -> Result<String, NoMemory> {
    let mut tally = Tally::new(alloc)?;
    for end in 0..bytes.len() {
        tally.add(judged(alloc, bytes.get(..end).unwrap_or(&[]))?);
    }
    tally.text(alloc)
}
