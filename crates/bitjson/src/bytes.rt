//! Words from bytes, and words as bytes, in an allocation of their own.

ghost use Rattle.std.specs.Prelude.{◌≡◌, ℕ, ◌<◌, ◌≤◌, ◌*◌, ◌^◌, IfOk, get_or, length, map, vec_len};
ghost use Rattle.std.specs.List.{range_with_len};
ghost use Rattle.bitjson.specs.Bytes as bytes;

use crate::fills::{fill_bytes, fill_words};
use bitlanes::Block;
use std::alloc::{AllocError, Global};

/// The first `count` words that `source` are the bytes of: eight for each word, the lowest byte
/// first. Past its end a byte is 0.
///
/// It looks at no more than `8 * count` bytes, each once, and allocates the words at once. `Err` is
/// returned only on allocation failure. Words past the bytes are 0 as they are made, and not
/// written again.
///
/// ```
/// let words = bytes::words_of_bytes(alloc, &[1, 2], 2)?;
/// assert_eq!(rt; words.as_slice(), [513, 0].as_slice());
/// ```
pub fn words_of_bytes(alloc: Global, source: &[u8], count: usize) -> Result<Vec<Block>, AllocError>
    requires { 8 * count ≤ 2 ^ 64 }
    ensures words { IfOk result
        (λ words. words.items ≡ map (bytes.word_of source.now) (range_with_len 0 count)) }
    ensures len { IfOk result (λ words. vec_len words ≡ count) }
{
    let mut words = vec![in alloc; 0; count]?;
    fill_zeros(source, &mut words);
    Ok(words)
}

/// The bytes of the words: eight for each word, the lowest byte first.
///
/// It allocates the bytes at once. `Err` is returned only on allocation failure.
///
/// ```
/// let data = bytes::bytes_of_words(alloc, &[513])?;
/// assert_eq!(rt; data.as_slice(), [1, 2, 0, 0, 0, 0, 0, 0].as_slice());
/// ```
pub fn bytes_of_words(alloc: Global, words: &[Block]) -> Result<Vec<u8>, AllocError>
    requires { 8 * length words.now < 2 ^ 64 }
    ensures { IfOk result (λ made. made.items ≡ bytes.bytes_of words.now) }
{
    let mut made = vec![in alloc; 0; 8 * words.len()]?;
    fill_bytes(words, &mut made);
    Ok(made)
}

// Writes over words that are 0 those that `source` are the bytes of. Words past the bytes stay.
fn fill_zeros(source: &[u8], words: &mut [Block])
    requires fits { 8 * length words.old ≤ 2 ^ 64 }
    requires zeros { (k : ℕ) → get_or words.old k 0 ≡ 0 }
    ensures { words.new
        ≡ map (bytes.word_of source.now) (range_with_len 0 (length words.old)) }
{
    let used = words.len().min(source.len().div_ceil(8));
    fill_words(source, &mut words[..used]);
}
