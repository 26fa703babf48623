//! A writer of the system as a sink.
ghost use Rattle.std.specs.Prelude.{◌≡◌, ◌≢◌, ◌≤◌, [], length, IfSome, None};
ghost use Rattle.mos_text.specs.Faults.{Rose};
ghost use Rattle.mos_text.specs.SinkBytes.{TakesSome};

use crate::{Sink, Wrote};
use std::io::{ErrorKind, Write};

/// A writer of the system, as standard output. Nothing is known of its bytes to a contract. Each
/// write is flushed.
#[derive(Drop)]
pub struct OutSink<W: Write + Drop> {
    writer: W,
    faults: u64,
}

impl<W: Write + Drop> OutSink<W> {
    /// A sink that has not failed yet.
    pub fn new(writer: W) -> OutSink<W>
        ensures { ⟦<OutSink<W> as Sink>⟧.faults result ≡ 0 }
    {
        OutSink { writer, faults: 0 }
    }

    /// How often the writer has failed.
    pub fn faults(&self) -> u64
        ensures { result ≡ ⟦<OutSink<W> as Sink>⟧.faults self.now }
    {
        self.faults
    }
}

/// One write, tried again where a signal has interrupted it. It has failed where it took nothing of
/// a piece that is not empty, or where the flush failed.
fn write_and_flush<W: Write>(writer: &mut W, piece: &[u8]) -> Option<usize>
    ensures within { IfSome result (λ count. count ≤ length piece.now) }
    ensures some { IfSome result (λ count. count ≡ 0 → piece.now ≡ []) }
{
    if piece.is_empty() {
        return Some(0);
    }
    for _ in 0..u64::MAX {
        match writer.write(piece) {
            Ok(0) => return None,
            Ok(count) => return if writer.flush().is_ok() {
                Some(count)
            } else {
                None
            },
            Err(error) if error.kind() == ErrorKind::Interrupted => {}
            Err(_) => return None,
        }
    }
    None
}

impl<W: Write + Drop> Sink for OutSink<W> {
    ghost bytes = { λ _. None };

    ghost faults = { λ s. s.faults };

    fn write(&mut self, piece: &[u8]) -> Wrote
        ensures some { TakesSome result piece.now }
        ensures later { ⟦<OutSink<W> as Sink>⟧.faults self.old ≤ ⟦<OutSink<W> as Sink>⟧.faults self.new }
        ensures failed { result ≡ Wrote.Failed
            → Rose (⟦<OutSink<W> as Sink>⟧.faults self.old) (⟦<OutSink<W> as Sink>⟧.faults self.new) }
        ensures steady { result ≢ Wrote.Failed
            → ⟦<OutSink<W> as Sink>⟧.faults self.new ≡ ⟦<OutSink<W> as Sink>⟧.faults self.old }
    {
        match write_and_flush(&mut self.writer, piece) {
            Some(count) => Wrote::Took(count),
            None => {
                self.faults = self.faults.saturating_add(1);
                Wrote::Failed
            }
        }
    }
}
