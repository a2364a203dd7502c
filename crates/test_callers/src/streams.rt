//! A reader that gives one byte a call and a writer that takes one byte a call. One call of the
//! two may fail. Both count their calls in one place, so that a test sees how often they were
//! called, and in which order.

ghost use Rattle.std.specs.Prelude.{IfOk};
ghost use Rattle.bitlines.specs.Output.{IsOutput};

use bitlines::program::run_text;
use std::alloc::Global;
use std::cell::Cell;
use std::io;
use std::io::{ErrorKind, Read, Write};
use std::test::Fail;

/// The one call that fails, counted from 1, and how it does.
#[derive(Clone, Copy, PartialEq, Eq)]
pub enum Failure {
    Nowhere,
    Read { call: usize, kind: ErrorKind },
    Write { call: usize, kind: ErrorKind },
    /// The write takes none of the bytes.
    TakesNothing { call: usize },
    /// The first flush.
    Flush { kind: ErrorKind },
}

/// The calls of a reader and a writer.
#[derive(Drop)]
pub struct Calls {
    reads: Cell<usize>,
    writes: Cell<usize>,
    flushes: Cell<usize>,
    is_in_order: Cell<bool>,
}

impl Calls {
    pub fn new() -> Calls {
        Calls {
            reads: Cell::new(0),
            writes: Cell::new(0),
            flushes: Cell::new(0),
            is_in_order: Cell::new(true),
        }
    }

    /// How often the reader was called, the writer to write, and the writer to flush.
    pub fn counts(&self) -> (usize, usize, usize) {
        (self.reads.get(), self.writes.get(), self.flushes.get())
    }

    /// Whether no read came after a write or a flush, and no write after a flush.
    pub fn are_in_order(&self) -> bool {
        self.is_in_order.get()
    }

    // Counts a read, and returns how many there are.
    fn read(&self) -> usize {
        if self.writes.get() != 0 || self.flushes.get() != 0 {
            self.is_in_order.set(false);
        }
        self.reads.set(self.reads.get().wrapping_add(1));
        self.reads.get()
    }

    fn write(&self) -> usize {
        if self.flushes.get() != 0 {
            self.is_in_order.set(false);
        }
        self.writes.set(self.writes.get().wrapping_add(1));
        self.writes.get()
    }

    fn flush(&self) -> usize {
        self.flushes.set(self.flushes.get().wrapping_add(1));
        self.flushes.get()
    }
}

#[derive(Drop)]
pub struct Source<'a> {
    pub bytes: &'a [u8],
    calls: &'a Calls,
    failure: Failure,
}

impl<'a> Source<'a> {
    ghost use Rattle.std.specs.Prelude.{◌≡◌};

    pub fn new(bytes: &'a [u8], calls: &'a Calls, failure: Failure) -> Source<'a>
        ensures { result.bytes.now ≡ bytes.now }
    {
        Source {
            bytes,
            calls,
            failure,
        }
    }
}

impl<'a> Read for Source<'a> {
    ghost use Rattle.std.specs.Prelude.{Some};

    ghost remaining = { λ source. Some source.bytes.now };

    fn read(&mut self, buffer: &mut [u8]) -> io::Result<usize> {
        let read = self.calls.read();
        match self.failure {
            Failure::Read { call, kind } if call == read => return Err(io::Error::from(kind)),
            _ => {}
        }
        let Some((first, rest)) = self.bytes.split_first() else {
            return Ok(0);
        };
        if buffer.is_empty() {
            return Ok(0);
        }
        buffer[0] = *first;
        self.bytes = rest;
        Ok(1)
    }
}

#[derive(Drop)]
pub struct Sink<'a> {
    pub taken: Vec<u8>,
    calls: &'a Calls,
    failure: Failure,
}

impl<'a> Sink<'a> {
    ghost use Rattle.std.specs.Prelude.{◌≡◌};

    pub fn new(taken: Vec<u8>, calls: &'a Calls, failure: Failure) -> Sink<'a>
        ensures { result.taken ≡ taken }
    {
        Sink {
            taken,
            calls,
            failure,
        }
    }
}

impl<'a> Write for Sink<'a> {
    ghost use Rattle.std.specs.Prelude.{Some};

    ghost contents = { λ sink. Some sink.taken.items };

    fn write(&mut self, bytes: &[u8]) -> io::Result<usize> {
        let write = self.calls.write();
        match self.failure {
            Failure::Write { call, kind } if call == write => return Err(io::Error::from(kind)),
            Failure::TakesNothing { call } if call == write => return Ok(0),
            _ => {}
        }
        let Some(first) = bytes.first() else {
            return Ok(0);
        };
        self.taken.push(*first)?;
        Ok(1)
    }

    fn flush(&mut self) -> io::Result<()> {
        let flush = self.calls.flush();
        match self.failure {
            Failure::Flush { kind } if flush == 1 => Err(io::Error::from(kind)),
            _ => Ok(()),
        }
    }
}

/// What the program writes for an input.
pub fn output_of(alloc: Global, input: &[u8]) -> Result<Vec<u8>, Fail>
    ensures { IfOk result (λ output. IsOutput input.now output.items) }
{
    let mut reader = input;
    let mut output = Vec::new(alloc);
    run_text(alloc, &mut reader, &mut output)?;
    Ok(output)
}
