//! Words written from bytes, and bytes from words, over those that are there.

ghost use Rattle.std.specs.Prelude.{◌≡◌, ◌<◌, ◌≤◌, ◌+◌, ◌*◌, ◌^◌, length, map, slice_index};
ghost use Rattle.std.specs.List.{range_with_len};
ghost use Rattle.bitjson.specs.Bytes as bytes;

use bitlanes::Block;

/// Writes over the words those that `source` are the bytes of, as
/// [`words_of_bytes`](crate::bytes::words_of_bytes) makes them.
///
/// It looks at no more than eight bytes for a word, each once, and does not allocate.
///
/// ```
/// let mut words = [7, 7];
/// fills::fill_words(&[1, 2], &mut words);
/// assert_eq!(rt; words, [513, 0]);
/// ```
#[tactic(auto, using(crate::proofs::Grown::written_all))]
pub fn fill_words(source: &[u8], words: &mut [Block])
    requires { 8 * length words.old ≤ 2 ^ 64 }
    ensures { words.new
        ≡ map (bytes.word_of source.now) (range_with_len 0 (length words.old)) }
{
    for index in 0..words.len() {
        words[index] = word_of_bytes(source, index);
    }
}

/// Writes the bytes of the words over those of `made`, as
/// [`bytes_of_words`](crate::bytes::bytes_of_words) makes them. There have to be
/// eight bytes for each word.
///
/// It does not allocate.
///
/// ```
/// let mut made = [7; 8];
/// fills::fill_bytes(&[513], &mut made);
/// assert_eq!(rt; made, [1, 2, 0, 0, 0, 0, 0, 0]);
/// ```
#[tactic(auto, unfolding(crate::specs::Bytes::bytes_of), using(crate::proofs::Grown::written_all))]
pub fn fill_bytes(words: &[Block], made: &mut [u8])
    requires { length made.old ≡ 8 * length words.now }
    ensures { made.new ≡ bytes.bytes_of words.now }
{
    for index in 0..made.len() {
        made[index] = byte_of_words(words, index) as u8;
    }
}

// The word of eight bytes.
#[tactic(auto, unfolding(crate::specs::Bytes::word_of))]
fn word_of_bytes(source: &[u8], index: usize) -> Block
    requires { 8 * index + 8 ≤ 2 ^ 64 }
    ensures { result ≡ bytes.word_of source.now index }
{
    let first = 8 * index;
    Block::from_le_bytes([
        byte_or_zero(source, first),
        byte_or_zero(source, first + 1),
        byte_or_zero(source, first + 2),
        byte_or_zero(source, first + 3),
        byte_or_zero(source, first + 4),
        byte_or_zero(source, first + 5),
        byte_or_zero(source, first + 6),
        byte_or_zero(source, first + 7),
    ])
}

// A byte, and 0 past the last one.
fn byte_or_zero(source: &[u8], index: usize) -> u8
    ensures { result ≡ slice_index source.now index }
{
    if index < source.len() {
        source[index]
    } else {
        0
    }
}

// One of the bytes of the words.
pub(crate) fn byte_of_words(words: &[Block], index: usize) -> Block
    requires { index < 8 * length words.now }
    ensures { result ≡ bytes.byte_of words.now index }
{
    (words[index / 8] >> (8 * (index % 8))) % 256
}
