//! The calls that may fail to allocate and make a value, and those of commands and lines.

use crate::calls::Call;
use crate::outcome::Fault;
use crate::starts::{BOTH, LONG, SHORT, Starts, is_long, is_short, is_value};
use bitcommands::commands::{Change, Command, Look, Reply, run};
use bitlines::lines::parse_line;
use bitranks::Ranks;
use bitrows::BitRows;
use fixedbitset::{FixedBitSet, Steps, counted};
use std::alloc::{AllocError, Global};

#[derive(Clone, Copy)]
pub enum Making {
    WithCapacity,
    WithCapacityAndBlocks,
    FromIter,
    Clone,
    Bitand,
    Bitor,
    Bitxor,
    CountedBitand,
    CountedBitor,
    CountedBitxor,
    Slice,
    FromBytes,
    FromBits,
    ToBytes,
    RanksOf,
    BitRowsNew,
    FromValue,
    ToValue,
    Text,
    PushText,
    Run,
}

pub const CALLS: &[(&str, Call); 21] = &[
    ("with_capacity", Call::Making(Making::WithCapacity)),
    (
        "with_capacity_and_blocks",
        Call::Making(Making::WithCapacityAndBlocks),
    ),
    ("from_iter", Call::Making(Making::FromIter)),
    ("clone", Call::Making(Making::Clone)),
    ("bitand", Call::Making(Making::Bitand)),
    ("bitor", Call::Making(Making::Bitor)),
    ("bitxor", Call::Making(Making::Bitxor)),
    ("counted::bitand", Call::Making(Making::CountedBitand)),
    ("counted::bitor", Call::Making(Making::CountedBitor)),
    ("counted::bitxor", Call::Making(Making::CountedBitxor)),
    ("slice", Call::Making(Making::Slice)),
    ("from_bytes", Call::Making(Making::FromBytes)),
    ("from_bits", Call::Making(Making::FromBits)),
    ("to_bytes", Call::Making(Making::ToBytes)),
    ("Ranks::of", Call::Making(Making::RanksOf)),
    ("BitRows::new", Call::Making(Making::BitRowsNew)),
    ("from_value", Call::Making(Making::FromValue)),
    ("to_value", Call::Making(Making::ToValue)),
    ("to_string", Call::Making(Making::Text)),
    ("push_text", Call::Making(Making::PushText)),
    ("run", Call::Making(Making::Run)),
];

/// Makes the call, looks at the value that it makes, and that the sets which it is given stay.
pub fn made(alloc: Global, starts: &mut Starts, call: Making) -> Result<bool, Fault> {
    let outcome = value_made(alloc, starts, call);
    if is_short(&starts.short) && is_long(&starts.long) {
        outcome
    } else {
        Ok(false)
    }
}

fn value_made(alloc: Global, starts: &mut Starts, call: Making) -> Result<bool, Fault> {
    match call {
        Making::WithCapacityAndBlocks => blocks_made(alloc),
        Making::FromIter => items_made(alloc),
        Making::ToBytes => bytes_made(alloc, starts),
        Making::RanksOf => ranks_made(alloc, starts),
        Making::BitRowsNew => table_made(alloc),
        Making::FromValue => json_read(alloc, starts),
        Making::ToValue => json_made(alloc, starts),
        Making::Text => text_made(alloc, starts),
        Making::PushText => text_pushed(starts),
        Making::Run => commands_run(alloc, starts),
        _ => set_made(alloc, starts, call),
    }
}

fn set_made(alloc: Global, starts: &Starts, call: Making) -> Result<bool, Fault> {
    let set = make_set(alloc, starts, call)?;
    Ok(is_made(&set, call))
}

// Whether the set is what the call makes.
fn is_made(set: &FixedBitSet, call: Making) -> bool {
    match call {
        Making::WithCapacity => is_value(set, LONG, &[]),
        Making::FromBytes => is_short(set),
        Making::Clone | Making::FromBits => is_long(set),
        Making::Slice => is_value(set, 70, &[69]),
        Making::Bitand | Making::CountedBitand => is_value(set, 10, &[]),
        Making::Bitor | Making::Bitxor | Making::CountedBitor | Making::CountedBitxor => {
            is_value(set, LONG, BOTH)
        }
        _ => false,
    }
}

// Any call that has no arm here is wrong, and is not made.
fn make_set(alloc: Global, starts: &Starts, call: Making) -> Result<FixedBitSet, Fault> {
    let (short, long) = (&starts.short, &starts.long);
    let outcome: Result<FixedBitSet, AllocError> = match call {
        Making::WithCapacity => FixedBitSet::with_capacity(alloc, LONG),
        Making::FromBytes => FixedBitSet::from_bytes(alloc, 10, &[8]),
        Making::FromBits => FixedBitSet::from_bits(alloc, long.as_bits()),
        Making::Clone => long.clone(),
        Making::Slice if long.len() == LONG => long.slice(alloc, LONG - 70..),
        Making::Bitand => long.bitand(short),
        Making::Bitor => short.bitor(long),
        Making::Bitxor => short.bitxor(long),
        Making::CountedBitand => counted::bitand(long, short, &mut Steps::new()),
        Making::CountedBitor => counted::bitor(short, long, &mut Steps::new()),
        Making::CountedBitxor => counted::bitxor(short, long, &mut Steps::new()),
        _ => return Err(Fault::Other),
    };
    Ok(outcome?)
}

fn items_made(alloc: Global) -> Result<bool, Fault> {
    let set = FixedBitSet::from_iter(alloc, [LONG])?;
    Ok(is_value(&set, LONG + 1, &[LONG]))
}

fn json_read(alloc: Global, starts: &Starts) -> Result<bool, Fault> {
    let set = FixedBitSet::from_value(alloc, &starts.json)?;
    Ok(is_short(&set))
}

fn bytes_made(alloc: Global, starts: &Starts) -> Result<bool, Fault> {
    let bytes = starts.short.to_bytes(alloc)?;
    Ok(bytes.as_slice() == [8, 0, 0, 0, 0, 0, 0, 0].as_slice())
}

fn ranks_made(alloc: Global, starts: &Starts) -> Result<bool, Fault> {
    let ranks = Ranks::of(alloc, &starts.long)?;
    Ok(ranks.select(0) == Some(LONG - 1))
}

// A call that is refused takes no item of an iterator that is borrowed.
fn blocks_made(alloc: Global) -> Result<bool, Fault> {
    let words = [8];
    let mut lent = words.iter().copied();
    match FixedBitSet::with_capacity_and_blocks(alloc, LONG, lent.by_ref()) {
        Ok(set) => Ok(is_value(&set, LONG, SHORT)),
        Err(fault) => {
            let next = lent.next();
            if next == Some(8) {
                Err(Fault::from(fault))
            } else {
                Ok(false)
            }
        }
    }
}

fn table_made(alloc: Global) -> Result<bool, Fault> {
    let mut table = BitRows::new(alloc, 2, LONG)?;
    if table.rows() != 2 || table.columns() != LONG {
        return Ok(false);
    }
    table.set(1, LONG - 1, true);
    Ok(table.get(1, LONG - 1) && !table.get(0, LONG - 1))
}

fn json_made(alloc: Global, starts: &Starts) -> Result<bool, Fault> {
    let value = starts.short.to_value(alloc)?;
    Ok(FixedBitSet::check_value(&value) == Ok(10))
}

fn text_made(alloc: Global, starts: &Starts) -> Result<bool, Fault> {
    let text = starts.short.to_string(alloc)?;
    Ok(text.as_str() == "0001000000")
}

fn text_pushed(starts: &mut Starts) -> Result<bool, Fault> {
    match Reply::Done.push_text(&mut starts.full) {
        Ok(()) => Ok(starts.full.as_slice() == "ok".as_bytes()),
        Err(fault) if starts.full.is_empty() => Err(Fault::from(fault)),
        Err(_) => Ok(false),
    }
}

// Of three commands that do not allocate the places of the replies alone are asked for.
fn commands_run(alloc: Global, starts: &mut Starts) -> Result<bool, Fault> {
    let commands = [
        Command::Change(Change::Toggle { set: 0, bit: 3 }),
        Command::Look(Look::IsClear { set: 0 }),
        Command::Change(Change::Put { set: 0, bit: 9 }),
    ];
    let outcome = run(alloc, starts.run_sets.as_mut_slice(), &commands, LONG);
    match starts.run_sets.first() {
        Some(set) => are_run(outcome, set),
        None => Ok(false),
    }
}

fn are_run(outcome: Result<Vec<Reply>, AllocError>, set: &FixedBitSet) -> Result<bool, Fault> {
    match outcome {
        Ok(replies) => Ok(are_replies(&replies) && is_value(set, 10, &[9])),
        Err(fault) if is_short(set) => Err(Fault::from(fault)),
        Err(_) => Ok(false),
    }
}

fn are_replies(replies: &[Reply]) -> bool {
    matches!(
        replies,
        [Reply::Done, Reply::Bool(true), Reply::Bool(false)]
    )
}

/// One line of each command that holds a list or a JSON value.
pub const LINES: &[(&str, Call); 10] = &[
    ("with_capacity_and_blocks 0 9 1", Call::Line),
    ("from_iter 0 1", Call::Line),
    ("from_value 0 [3,[5]]", Call::Line),
    ("extend 0 1", Call::Line),
    ("ones 0 f", Call::Line),
    ("into_ones 0 f", Call::Line),
    ("union 0 1 f", Call::Line),
    ("intersection 0 1 f", Call::Line),
    ("difference 0 1 f", Call::Line),
    ("symmetric_difference 0 1 f", Call::Line),
];

/// Reads the line.
pub fn line_read(alloc: Global, line: &str) -> Result<bool, Fault> {
    match parse_line(alloc, line.as_bytes()) {
        Ok(_) => Ok(true),
        Err(fault) => Err(Fault::from(fault)),
    }
}
