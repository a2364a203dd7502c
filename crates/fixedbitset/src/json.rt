//! Sets as JSON values: a length and bytes.

ghost use Rattle.std.specs.Prelude.{◌≡◌, ◌≢◌, ◌⊎◌, Ok, Err, IfOk, IfErr, IsOk};
ghost use Rattle.serde_json.specs.View.{view};
ghost use Rattle.bitjson.specs.declared.fault.JsonFault.TheVariants.{Memory};
ghost use Rattle.fixedbitset.specs.Json as json;

use crate::set::FixedBitSet;
use crate::views::storage_words;
pub use bitjson::JsonFault;
use bitjson::form::read_form;
use bitjson::values::{value_of_words, words_of_items};
use bitwords::positions;
use serde_json::Value;
use std::alloc::{AllocError, Global};

impl FixedBitSet {
    /// The set as a JSON value: an object with the keys `length`, which is `len()`, and
    /// `data`, a list of bytes.
    ///
    /// Position `p` is bit `p % 8` of byte `p / 8`. There are eight bytes for each word of
    /// `as_slice`, so those at the end may be 0. `from_value` makes the same set of it.
    ///
    /// It makes one item for each byte, and allocates them once. `Err` is returned only where the
    /// allocation of them or of the object failed.
    ///
    /// Upstream has the trait `Serialize` of `serde` in place of this call.
    ///
    /// ```
    /// let set = FixedBitSet::from_iter(alloc, [2, 9])?;
    /// let text = set.to_value(alloc)?.to_string(alloc)?;
    /// assert_eq!(rt; text.as_str(), "{\"data\":[4,2,0,0,0,0,0,0],\"length\":10}");
    /// ```
    pub fn to_value(&self, alloc: Global) -> Result<Value, AllocError>
        ensures { IfOk result (λ value. view value ≡ json.written self.now) }
    {
        value_of_words(alloc, self.len(), self.as_slice())
    }

    /// The length of the set that `from_value` makes of a value, or the first error of the value.
    ///
    /// So a caller can look at the length before memory is allocated. It looks at each item of the
    /// data once, does not allocate, and never returns `JsonFault::Memory`.
    ///
    /// Upstream has no such call.
    ///
    /// ```
    /// let value = Value::from_str(alloc, "[70,[255]]")?;
    /// assert_eq!(rt; FixedBitSet::check_value(&value), Ok(70));
    /// let value = Value::from_str(alloc, "[70,[255,256]]")?;
    /// assert_eq!(rt; FixedBitSet::check_value(&value), Err(JsonFault::Item(1)));
    /// ```
    pub fn check_value(value: &Value) -> Result<usize, JsonFault>
        ensures value { result ≡ json.length_of (view value.now) }
        ensures no_memory { IfErr result (λ fault. fault ≢ Memory) }
    {
        let (length, _) = read_form(value)?;
        Ok(length)
    }

    /// The set that a value in the form means. The form is an object with exactly the keys `length`
    /// and `data`, or a list of these two in this order. `length` is a whole number from 0 to 2 ^
    /// 64 - 1, and `data` a list of whole numbers from 0 to 255.
    ///
    /// Position `p` is set where it is below the length and bit `p % 8` of byte `p / 8` is set. So
    /// bytes that are missing count as 0, and bits past the length are dropped.
    ///
    /// `Err` says the first error of the value, or that the value is in the form and an allocation
    /// failed. Nothing is allocated before the value is known to be in the form. It looks at each
    /// item of the data at most twice, and writes each word of the set once.
    ///
    /// Upstream has the trait `Deserialize` of `serde` in place of this call.
    ///
    /// ```
    /// let value = Value::from_str(alloc, "[10,[76,255]]")?;
    /// let set = FixedBitSet::from_value(alloc, &value)?;
    /// assert_eq!(rt; set.len(), 10);
    /// assert_eq!(rt; set.as_slice(), [844].as_slice());
    /// ```
    pub fn from_value(alloc: Global, value: &Value) -> Result<Self, JsonFault>
        ensures ok { IfOk result (λ set. json.meaning (view value.now) ≡ Ok set) }
        ensures err { IfErr result
            (λ fault. (json.meaning (view value.now) ≡ Err fault)
            ⊎ ((fault ≡ Memory) × IsOk (json.meaning (view value.now)))) }
    {
        let (length, items) = read_form(value)?;
        let mut words = words_of_items(alloc, items, storage_words(length))?;
        positions::clear_from(&mut words, length);
        Ok(FixedBitSet { words, length })
    }
}
