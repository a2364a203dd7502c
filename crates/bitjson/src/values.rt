//! Words from the items of a JSON list, and words as a value in the form.

ghost use Rattle.std.specs.Prelude.{◌≡◌, ◌<◌, ◌≤◌, ◌+◌, ◌*◌, ◌^◌, IfOk};
ghost use Rattle.std.specs.Prelude.{length, map, slice_index, vec_len};
ghost use Rattle.std.specs.List.{range_with_len};
ghost use Rattle.serde_json.specs.View.{view, items_view};
ghost use Rattle.bitjson.specs.Form as json;
ghost use Rattle.bitjson.specs.Bytes as bytes;

use crate::fills::byte_of_words;
use crate::form::byte_of;
use bitlanes::Block;
use serde_json::{Value, json};
use std::alloc::{AllocError, Global};

/// The first `count` words that the items are the bytes of: eight items for each word,
/// the lowest byte first. A byte is 0 where there is no item, and where the item is no
/// whole number from 0 to 255.
///
/// It looks at no more than `8 * count` items, each once, and allocates the words at once. `Err` is
/// returned only on allocation failure.
///
/// ```
/// let value = Value::from_str(alloc, "[1,2]")?;
/// let items = value.as_array().ok_or("no list")?;
/// let words = values::words_of_items(alloc, items.as_slice(), 2)?;
/// assert_eq!(rt; words.as_slice(), [513, 0].as_slice());
/// ```
#[tactic(auto, using(crate::proofs::Grown::grown))]
pub fn words_of_items(
    alloc: Global,
    items: &[Value],
    count: usize,
) -> Result<Vec<Block>, AllocError>
    requires { 8 * count ≤ 2 ^ 64 }
    ensures words { IfOk result
        (λ words. words.items
        ≡ map (bytes.word_of (map json.item_byte items.now)) (range_with_len 0 count)) }
    ensures len { IfOk result (λ words. vec_len words ≡ count) }
{
    let mut words = Vec::with_capacity(alloc, count)?;
    for index in 0..count {
        words.push(word_at(items, index))?;
    }
    Ok(words)
}

/// The object whose `length` is `bits` and whose `data` is the list of the bytes of the words:
/// eight for each word, the lowest byte first.
///
/// It makes one item for each byte, and allocates the items at once. `Err` is returned only where
/// the allocation of them or of the object failed.
///
/// ```
/// let text = values::value_of_words(alloc, 10, &[513])?.to_string(alloc)?;
/// assert_eq!(rt; text.as_str(), "{\"data\":[1,2,0,0,0,0,0,0],\"length\":10}");
/// ```
#[tactic(auto, unfolding(crate::specs::Form::object_of, crate::specs::Bytes::bytes_of), using(crate::proofs::Grown::grown))]
pub fn value_of_words(alloc: Global, bits: usize, words: &[Block]) -> Result<Value, AllocError>
    requires { 8 * length words.now < 2 ^ 64 }
    ensures { IfOk result (λ value. view value ≡ json.object_of bits (bytes.bytes_of words.now)) }
{
    let count = 8 * words.len();
    let mut data = Vec::with_capacity(alloc, count)?;
    for index in 0..count {
        let byte = byte_of_words(words, index);
        data.push(Value::from(byte))?;
    }
    let value = object_of(alloc, bits, data)?;
    Ok(value)
}

// The word of eight items.
#[tactic(auto, unfolding(crate::specs::Bytes::word_of))]
fn word_at(items: &[Value], index: usize) -> Block
    requires { 8 * index + 8 ≤ 2 ^ 64 }
    ensures { result ≡ bytes.word_of (map json.item_byte items.now) index }
{
    let start = 8 * index;
    Block::from_le_bytes([
        byte_at(items, start),
        byte_at(items, start + 1),
        byte_at(items, start + 2),
        byte_at(items, start + 3),
        byte_at(items, start + 4),
        byte_at(items, start + 5),
        byte_at(items, start + 6),
        byte_at(items, start + 7),
    ])
}

// The byte that an item is, and 0 past the last item.
fn byte_at(items: &[Value], index: usize) -> u8
    ensures { result ≡ slice_index (map json.item_byte items.now) index }
{
    if index < items.len() {
        byte_of(&items[index]).unwrap_or(0)
    } else {
        0
    }
}

// The object with this length and these data.
fn object_of(alloc: Global, length: usize, items: Vec<Value>) -> Result<Value, AllocError>
    ensures { IfOk result (λ value. view value ≡ json.object_with length (items_view items.items)) }
{
    json!(in alloc; {"length": length, "data": items})
}
