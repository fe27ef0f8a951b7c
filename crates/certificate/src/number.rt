//! Numbers in words.

ghost use Rattle.std.specs.Prelude.{◌≡◌, ◌≤◌, IfSome, neg_ℤ, pos, option_map, codes};
ghost use Rattle.std.specs.List.{list_all};
ghost use Rattle.std.specs.Char.{is_ascii_digit};
ghost use Rattle.std.specs.Str.{bytes_eq};
ghost use Rattle.certificate.specs.Numbers.{is_numeral as is_numeral_lem, above_zero, number_up_to, multiplier_in};

fn are_digits(text: &[u8]) -> bool
    ensures { result ≡ list_all is_ascii_digit text.now }
{
    for byte in text {
        if !byte.is_ascii_digit() {
            return false;
        }
    }
    true
}

fn is_numeral(text: &[u8]) -> bool
    ensures { result ≡ is_numeral_lem text.now }
{
    match text {
        [first, ..] => *first != b'0' && are_digits(text),
        [] => false,
    }
}

/// A decimal number from 1 to `most`.
fn read_above_zero(text: &[u8], most: u32) -> Option<u32>
    ensures value { result ≡ above_zero most text.now }
    ensures small { IfSome result (λ n. n ≤ most) }
{
    if !is_numeral(text) {
        return None;
    }
    let mut number: u64 = 0;
    for byte in text {
        number = number * 10 + u64::from(byte.saturating_sub(b'0'));
        if number > u64::from(most) {
            return None;
        }
    }
    Some(number as u32)
}

/// Whether both have the same bytes.
pub(crate) fn is_text(text: &[u8], other: &[u8]) -> bool
    ensures { result ≡ bytes_eq text.now other.now }
{
    text == other
}

/// A decimal number from 0 to `most`, without sign and without leading zero.
pub(crate) fn read_number(text: &[u8], most: u32) -> Option<u32>
    ensures value { result ≡ number_up_to most text.now }
    ensures small { IfSome result (λ n. n ≤ most) }
{
    if is_text(text, b"0") {
        return Some(0);
    }
    read_above_zero(text, most)
}

fn negated(number: u32) -> i32
    requires { number ≤ 2147483648 }
    ensures { result ≡ neg_ℤ (pos number) }
{
    (-(number as i64)) as i32
}

fn read_negative(digits: &[u8]) -> Option<i32>
    ensures { result ≡ option_map (λ n. neg_ℤ (pos n)) (above_zero 2147483648 digits.now) }
{
    match read_above_zero(digits, 2_147_483_648) {
        Some(number) => Some(negated(number)),
        None => None,
    }
}

fn read_positive(text: &[u8]) -> Option<i32>
    ensures { result ≡ option_map pos (number_up_to 2147483647 text.now) }
{
    match read_number(text, 2_147_483_647) {
        Some(number) => Some(number as i32),
        None => None,
    }
}

/// A number of 32 bits, with a minus sign where it is below 0.
pub(crate) fn read_multiplier(text: &[u8]) -> Option<i32>
    ensures { result ≡ multiplier_in text.now }
{
    match text {
        [first, digits @ ..] => {
            if *first == b'-' {
                read_negative(digits)
            } else {
                read_positive(text)
            }
        }
        [] => None,
    }
}
