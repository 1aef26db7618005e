//! A source over a reader and a sink over a writer, as those of the system. They tell what their reader or writer tells of
//! the bytes that pass; those of the system tell nothing.
//!
//! That a call of the adapter calls its reader or writer at all is no clause, and stands in a test.

ghost use Rattle.std.specs.Prelude.{◌≡◌};
ghost use Rattle.td_io.specs.Faults.{none_yet};

use crate::faults::Faults;
use crate::traits::{Failed, Sink, Source};
use std::io::{Read, Write};
use std::marker::Model;

/// A reader, as standard input. A contract sees the reader, and its faults so far.
#[derive(Drop)]
pub struct ReaderSource<R> {
    reader: R,
    faults: Faults,
}

impl<R> Model for ReaderSource<R> {
    ghost use Rattle.td_io.specs.Counted.{Counted};

    ghost Value = { Counted R };

    ghost view = { λ s. record { inner = s.reader; faults = s.faults } };
}

impl<R: Read> ReaderSource<R> {
    /// A source over this reader, of which nothing was read yet. Takes no memory.
    pub fn over(reader: R) -> ReaderSource<R>
        ensures { result ≡ record { inner = reader; faults = none_yet } }
    {
        ReaderSource {
            reader,
            faults: Faults::none_yet(),
        }
    }
}

impl<R: Read> Source for ReaderSource<R> {
    ghost state = { λ s. record { left = R.remaining s.inner; faults = s.faults } };

    /// Reads once. Each error of the reader is a fault.
    fn read(&mut self, buf: &mut [u8]) -> Result<usize, Failed> {
        let Ok(n) = self.reader.read(buf) else {
            self.faults.note_fault();
            return Err(Failed);
        };
        self.faults.note_work();
        Ok(n)
    }
}

/// A writer, as standard output or standard error. A contract sees the writer, and its faults so far.
#[derive(Drop)]
pub struct WriterSink<W> {
    writer: W,
    faults: Faults,
}

impl<W> Model for WriterSink<W> {
    ghost use Rattle.td_io.specs.Counted.{Counted};

    ghost Value = { Counted W };

    ghost view = { λ s. record { inner = s.writer; faults = s.faults } };
}

impl<W: Write> WriterSink<W> {
    /// A sink over this writer, to which nothing was written yet. Takes no memory.
    pub fn over(writer: W) -> WriterSink<W>
        ensures { result ≡ record { inner = writer; faults = none_yet } }
    {
        WriterSink {
            writer,
            faults: Faults::none_yet(),
        }
    }
}

impl<W: Write> Sink for WriterSink<W> {
    ghost state = { λ s. record { written = W.contents s.inner; faults = s.faults } };

    /// Writes once. Each error of the writer is a fault, and so is a write that takes nothing of a piece that isn't
    /// empty.
    fn write(&mut self, piece: &[u8]) -> Result<usize, Failed> {
        match self.writer.write(piece) {
            Ok(n) if n > 0 || piece.is_empty() => {
                self.faults.note_work();
                Ok(n)
            }
            _ => {
                self.faults.note_fault();
                Err(Failed)
            }
        }
    }
}
