ghost use Rattle.std.specs.Prelude.{◌≡◌, length, slice_index, slice_set};
ghost use Rattle.ring_core.specs.Ring.{ring_add};

/// The word at a position, 0 after the last.
#[inline(always)]
pub(crate) fn word_at(words: &[u64], at: usize) -> u64
    ensures { result ≡ slice_index words.now at }
{
    if at < words.len() { words[at] } else { 0 }
}

/// Sets the word at a position, where there is one.
#[inline(always)]
pub(crate) fn set_word(words: &mut Vec<u64>, at: usize, word: u64)
    ensures { words.new.items ≡ slice_set words.old.items at word }
{
    if at < words.len() {
        words[at] = word;
    }
}

/// Makes words those of another list.
pub(crate) fn copy_words(from: &[u64], to: &mut Vec<u64>)
    requires { length to.old.items ≡ length from.now }
    ensures { to.new.items ≡ from.now }
{
    to.copy_from_slice(from);
}

/// Adds to the word at a position, where there is one.
#[inline(always)]
pub(crate) fn add_word(words: &mut Vec<u64>, at: usize, amount: u64)
    ensures { words.new.items ≡ slice_set words.old.items at (ring_add (slice_index words.old.items at) amount) }
{
    let word = word_at(words, at);
    set_word(words, at, word.wrapping_add(amount));
}
