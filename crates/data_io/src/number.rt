ghost use Rattle.std.specs.Prelude.{◌≡◌, ◌+◌, ◌<◌, ◌^◌, map, option_map};
ghost use Rattle.serde_json.specs.View.{view};
ghost use Rattle.store_core.specs.Values.{is_index};
ghost use Rattle.data_io.specs.DataFaults.{Answers, number_faults, element_faults, whole, word_of, found};

use crate::data::DataError;
use fl_ast::{Decl, Kind, Name};
use fl_base::Items;
use serde_json::Value;
use std::alloc::Global;
use std::str;

fn fits_index(number: i64) -> bool
    ensures { result ≡ is_index number }
{
    -0x8000_0000 <= number && number < 0x8000_0000
}

/// The word of a number that was given for a name.
pub(crate) fn word(alloc: Global, decl: &Decl, at: u64, value: &Value) -> Result<u64, DataError>
    ensures { Answers result (number_faults decl.now at (whole (view value.now)))
        (word_of (view value.now)) }
{
    match value.as_i64() {
        Some(number) => {
            if decl.kind == Kind::Ring || fits_index(number) {
                Ok(number.cast_unsigned())
            } else {
                Err(DataError::IndexRange {
                    name: decl.name.clone(alloc)?,
                    at,
                })
            }
        }
        None => Err(DataError::NotWhole {
            name: decl.name.clone(alloc)?,
            at,
        }),
    }
}

/// The words of an array's elements.
pub(crate) fn words(alloc: Global, decl: &Decl, items: &[Value]) -> Result<Items<u64>, DataError>
    ensures { Answers result (element_faults decl.now 1 (map view items.now))
        (map word_of (map view items.now)) }
{
    let mut words = Items::new(alloc);
    for (i, item) in items.iter().enumerate() {
        words.push(word(alloc, decl, i as u64 + 1, item)?)?;
    }
    Ok(words)
}

/// What a JSON object has at a name.
pub(crate) fn find<'v>(value: &'v Value, name: &Name) -> Option<&'v Value>
    ensures { option_map (λ v. view v.now) result ≡ found name.now (view value.now) }
{
    match str::from_utf8(name.bytes()) {
        Ok(key) => value.get(key),
        Err(_) => None,
    }
}
