//! Places that bytes are appended to, and writing a whole text to one.
ghost use Rattle.std.specs.Prelude.{◌≡◌, ℕ, ◌≤◌, List, Option};
ghost use Rattle.mos_text.specs.SinkBytes.{bytes_after, taken_part, TakesSome, AppendedPart};
ghost use Rattle.mos_text.specs.Faults.{Rose};

/// What a sink answers to `write`.
#[derive(Clone, Copy, Debug, PartialEq, Drop)]
pub enum Wrote {
    /// So many of the piece's first bytes were appended: at least one, unless the piece is empty.
    Took(usize),
    /// Nothing was appended; the sink's count of faults rose.
    Failed,
    /// Nothing was appended.
    NoMemory,
}

/// A place that bytes are appended to.
pub trait Sink {
    /// The bytes so far, where they are known.
    ghost bytes: { Self → Option (List ℕ) };

    /// How often the sink has failed; it never falls.
    ghost faults: { Self → ℕ };

    /// Appends the first bytes of the piece, as many as the answer says.
    fn write(&mut self, piece: &[u8]) -> Wrote
        ensures some { TakesSome result piece.now }
        ensures bytes { bytes self.new
            ≡ bytes_after (bytes self.old) (taken_part result piece.now) }
        ensures later { faults self.old ≤ faults self.new }
        ensures failed { result ≡ Wrote.Failed → Rose (faults self.old) (faults self.new) };
}

/// How a text was written to a sink.
#[derive(Clone, Copy, Debug, PartialEq, Drop)]
pub enum Written {
    /// All of it.
    Whole,
    /// A first part of it, then the sink failed.
    Failed,
    /// A first part of it, then memory was wanting.
    NoMemory,
}

/// Appends all the bytes, write by write.
pub fn write_whole<K: Sink>(sink: &mut K, text: &[u8]) -> Written
    ensures whole { result ≡ Written.Whole
        → K.bytes sink.new ≡ bytes_after (K.bytes sink.old) text.now }
    ensures part { AppendedPart (K.bytes sink.old) (K.bytes sink.new) text.now }
    ensures later { K.faults sink.old ≤ K.faults sink.new }
    ensures failed { result ≡ Written.Failed → Rose (K.faults sink.old) (K.faults sink.new) }
{
    let mut done = 0;
    while done < text.len() {
        match sink.write(&text[done..]) {
            Wrote::Took(count) => done += count,
            Wrote::Failed => return Written::Failed,
            Wrote::NoMemory => return Written::NoMemory,
        }
    }
    Written::Whole
}
