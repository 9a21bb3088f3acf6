// Numbers that are written in decimal digits.

ghost use Rattle.std.specs.Prelude.{◌≡◌, true};
ghost use Rattle.std.specs.List.{list_all};
ghost use Rattle.fv_base.specs.headline.Digits.{is_digit, is_decimal, decimal_after, decimal_of};

/// Whether the byte is a digit.
pub fn is_digit(byte: u8) -> bool
    ensures { result ≡ is_digit byte }
{
    48 <= byte && byte <= 57
}

/// The number that one to ten digits write; none for other bytes.
pub fn decimal_of(bytes: &[u8]) -> Option<u64>
    ensures { result ≡ decimal_of bytes.now }
{
    if !is_decimal(bytes) {
        return None;
    }
    Some(number_of(bytes))
}

// Whether these are one to ten digits.
fn is_decimal(bytes: &[u8]) -> bool
    ensures { result ≡ is_decimal bytes.now }
{
    !bytes.is_empty() && bytes.len() <= 10 && all_digits(bytes)
}

// Whether all bytes are digits.
fn all_digits(bytes: &[u8]) -> bool
    ensures { result ≡ list_all is_digit bytes.now }
{
    bytes.iter().all(|b| 48 <= *b && *b <= 57)
}

// The number that the digits write.
fn number_of(digits: &[u8]) -> u64
    requires { is_decimal digits.now ≡ true }
    ensures { result ≡ decimal_after 0 digits.now }
{
    let mut n = 0u64;
    for d in digits {
        n = n * 10 + u64::from(*d - b'0');
    }
    n
}
