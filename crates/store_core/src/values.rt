ghost use Rattle.std.specs.Prelude.{◌≡◌};
ghost use Rattle.store_core.specs.Values.{index_of, value_in, words_in};

use fl_base::{Items, Name};

/// The words of a name: exactly one of a scalar, and of an array all in column-major order. A number of the index kind
/// is held as the word of its 64-bit two's complement.
#[derive(Drop)]
pub struct Entry {
    pub name: Name,
    pub scalar: bool,
    pub words: Items<u64>,
}

/// The values of the arguments, in the order of the argument list.
#[derive(Drop)]
pub struct Args {
    pub entries: Items<Entry>,
}

/// Words of adjoints by name, as a seed or an answer has them.
#[derive(Drop)]
pub struct Weights {
    pub entries: Items<Entry>,
}

/// Words of tangents by name.
#[derive(Drop)]
pub struct Direction {
    pub entries: Items<Entry>,
}

/// The number of a word, 0 where it is no number of the index kind.
fn index(word: u64) -> i32
    ensures { result ≡ index_of word }
{
    let number = word.cast_signed();
    if -0x8000_0000 <= number && number < 0x8000_0000 {
        number as i32
    } else {
        0
    }
}

/// The value of an index scalar, 0 where it has none.
pub(crate) fn value(entries: &[Entry], name: &Name) -> i32
    ensures { result ≡ value_in entries.now name.now }
{
    match words(entries, name) {
        [word, ..] => index(*word),
        [] => 0,
    }
}

/// The words of the first entry with a name, none where there is no entry.
pub(crate) fn words<'e>(entries: &'e [Entry], name: &Name) -> &'e [u64]
    ensures { result.now ≡ words_in entries.now name.now }
{
    for entry in entries {
        if name.is(&entry.name) {
            return entry.words.as_slice();
        }
    }
    &[]
}
