ghost use Rattle.std.specs.Prelude.{◌≡◌, ◌≤◌};
ghost use Rattle.std.specs.List.{list_all};
ghost use Rattle.std.specs.Char.{is_ascii_digit};
ghost use Rattle.formad_words.specs.Numbers.{is_numeral as is_numeral_lem, number_up_to};

fn are_digits(text: &[u8]) -> bool
    ensures { result ≡ list_all is_ascii_digit text.now }
{
    for byte in text {
        if !byte.is_ascii_digit() {
            return false;
        }
    }
    true
}

fn is_numeral(text: &[u8]) -> bool
    ensures { result ≡ is_numeral_lem text.now }
{
    match text {
        [first, ..] => *first != b'0' && are_digits(text),
        [] => false,
    }
}

/// A decimal number of at most `most`, without sign and without leading zero.
pub(crate) fn read_number(text: &[u8], most: u32) -> Option<u32>
    requires { most ≤ 1048576 }
    ensures { result ≡ number_up_to most text.now }
{
    if !is_numeral(text) {
        return None;
    }
    let mut number = 0;
    for byte in text {
        number = number * 10 + u32::from(byte.saturating_sub(b'0'));
        if number > most {
            return None;
        }
    }
    Some(number)
}
