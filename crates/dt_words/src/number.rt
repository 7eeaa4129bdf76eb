ghost use Rattle.std.specs.Prelude.{◌≡◌, ◌≤◌, ◌&&◌, IfSome, not};
ghost use Rattle.std.specs.List.{list_all};
ghost use Rattle.dt_words.specs.Number.{is_digit, is_number, has_leading_zero, number_in};

/// The greatest number of digits of a number.
pub const DIGITS: usize = 10;

// Whether every byte is a decimal digit.
fn are_digits(bytes: &[u8]) -> bool
    ensures { result ≡ list_all is_digit bytes.now }
{
    bytes.iter().all(|byte| b'0' <= *byte && *byte <= b'9')
}

// Whether there are two bytes or more, and the first is 0.
fn leads_with_zero(bytes: &[u8]) -> bool
    ensures { result ≡ has_leading_zero bytes.now }
{
    bytes.len() > 1 && bytes[0] == b'0'
}

// Whether the bytes are a number.
fn is_number(bytes: &[u8]) -> bool
    ensures { result ≡ is_number bytes.now }
{
    if bytes.is_empty() || DIGITS < bytes.len() {
        return false;
    }
    are_digits(bytes) && !leads_with_zero(bytes)
}

// The number that the text writes, if it writes one from `least` to `most`.
pub(crate) fn number_in(text: &str, least: u64, most: u64) -> Option<u64>
    ensures value { result ≡ number_in least most text.now }
    ensures in_range { IfSome result (λ number. (least ≤ number) × (number ≤ most)) }
{
    if !is_number(text.as_bytes()) {
        return None;
    }
    match text.parse::<u64>() {
        Ok(number) => {
            if least <= number && number <= most {
                Some(number)
            } else {
                None
            }
        }
        Err(_) => None,
    }
}
