//! Readers and writers as sources and sinks. They don't tell what they have left or hold.

ghost use Rattle.std.specs.Prelude.{◌≡◌, IfOk};

use hops_base::{Given, NoMemory, Sink, Source, Taken};
use std::alloc::Global;
use std::io::{Read, Write};

// The most bytes of one read.
const PIECE: usize = 65_536;

/// What a reader has, as standard input.
#[derive(Drop)]
pub struct InputSource<R> {
    reader: R,
    buffer: Vec<u8>,
    faults: u64,
}

impl<R: Read + Drop> InputSource<R> {
    /// A source of all that the reader has.
    pub fn new(alloc: Global, reader: R) -> Result<InputSource<R>, NoMemory>
        ensures { IfOk result (λ source. source.faults ≡ 0) }
    {
        let buffer = vec![in alloc; 0; PIECE]?;
        Ok(InputSource {
            reader,
            buffer,
            faults: 0,
        })
    }
}

impl<R: Read> Source for InputSource<R> {
    ghost use Rattle.std.specs.Prelude.{None};

    ghost stock = { λ s. record { left = None; faults = s.faults } };

    fn take(&mut self, into: &mut Vec<u8>, max: usize) -> Taken {
        let most = self.buffer.len().min(max);
        // The room comes first, so that no byte that was read is lost.
        if into.reserve(most).is_err() {
            return Taken::NoMemory;
        }
        let piece = &mut self.buffer[..most];
        match self.reader.read(piece) {
            Ok(0) => Taken::End,
            Ok(count) => match into.extend_from_slice(&piece[..count]) {
                Ok(()) => Taken::Got(count),
                Err(_) => unreachable!(),
            },
            Err(_) => {
                self.faults = self.faults.saturating_add(1);
                Taken::Failed
            }
        }
    }
}

/// What a writer takes, as standard output. It is for writers that hold nothing back.
#[derive(Drop)]
pub struct OutputSink<W> {
    writer: W,
    faults: u64,
}

impl<W: Write> OutputSink<W> {
    /// A sink that gives all to the writer.
    pub fn new(writer: W) -> OutputSink<W>
        ensures { result.faults ≡ 0 }
    {
        OutputSink { writer, faults: 0 }
    }
}

impl<W: Write> Sink for OutputSink<W> {
    ghost use Rattle.std.specs.Prelude.{None};

    ghost store = { λ s. record { held = None; faults = s.faults } };

    fn give(&mut self, bytes: &[u8]) -> Given {
        match self.writer.write(bytes) {
            Ok(count) if count > 0 => Given::Took(count),
            _ => {
                self.faults = self.faults.saturating_add(1);
                Given::Failed
            }
        }
    }
}

#[cfg(test)]
mod tests;
