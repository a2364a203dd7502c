//! How a call went, and the line that says so.

use bitlines::lines::LineFault;
use fixedbitset::{ExtendFault, JsonFault};
use std::alloc::AllocError;
use std::io;

/// Why a call did not do what it does with ample memory.
#[derive(Clone, Copy)]
pub enum Fault {
    /// It failed to allocate, and left all as it promises.
    Memory,
    /// Anything else.
    Other,
}

impl From<AllocError> for Fault {
    fn from(_: AllocError) -> Fault {
        Fault::Memory
    }
}

impl From<ExtendFault> for Fault {
    fn from(fault: ExtendFault) -> Fault {
        match fault {
            ExtendFault::Memory => Fault::Memory,
            ExtendFault::Position => Fault::Other,
        }
    }
}

impl From<JsonFault> for Fault {
    fn from(fault: JsonFault) -> Fault {
        match fault {
            JsonFault::Memory => Fault::Memory,
            _ => Fault::Other,
        }
    }
}

impl From<LineFault> for Fault {
    fn from(fault: LineFault) -> Fault {
        match fault {
            LineFault::Memory => Fault::Memory,
            LineFault::NotACommand => Fault::Other,
        }
    }
}

/// Counts the calls, and whether each of them did right.
#[derive(Drop)]
pub struct Tally {
    pub calls: usize,
    pub is_right: bool,
}

impl Tally {
    pub fn new() -> Tally {
        Tally {
            calls: 0,
            is_right: true,
        }
    }

    /// Counts a call, and writes a line where it failed to allocate or did wrong. `Ok(true)` is a
    /// call that did what it does with ample memory.
    pub fn count(
        &mut self,
        rt: &impl Print,
        name: &str,
        outcome: Result<bool, Fault>,
    ) -> io::Result<()> {
        self.calls = self.calls.saturating_add(1);
        match outcome {
            Ok(true) => Ok(()),
            Err(Fault::Memory) => println!(rt; "refused {name}"),
            Ok(false) | Err(Fault::Other) => {
                self.is_right = false;
                println!(rt; "wrong {name}")
            }
        }
    }
}
