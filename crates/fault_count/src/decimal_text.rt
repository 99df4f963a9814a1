//! Decimal numbers.
ghost use Rattle.std.specs.Prelude.{◌≡◌, ◌<◌, ◌^◌, None, Some, nat_lt, if◌then◌else◌};
ghost use Rattle.std.specs.Char.{is_ascii_digit};
ghost use Rattle.std.specs.List.{list_all};
ghost use Rattle.fault_count.specs.DecimalText.{decimal_of, number_of};

const MOST_DIGITS: usize = 20;

/// The number that these bytes spell, where they are 1 to 20 decimal digits of a number that 64 bits hold.
pub fn decimal(bytes: &[u8]) -> Option<u64>
    ensures { result ≡ decimal_of bytes.now }
{
    if !bytes.is_empty() && bytes.len() <= MOST_DIGITS && are_digits(bytes) {
        number(bytes)
    } else {
        None
    }
}

fn are_digits(bytes: &[u8]) -> bool
    ensures { result ≡ list_all is_ascii_digit bytes.now }
{
    bytes.iter().all(|byte| byte.is_ascii_digit())
}

// The number that the digits spell, if 64 bits hold it.
fn number(digits: &[u8]) -> Option<u64>
    ensures { result ≡ (if nat_lt (number_of digits.now) (2 ^ 64) then Some (number_of digits.now) else None) }
{
    let mut number = 0u64;
    for byte in digits {
        let digit = u64::from(byte.saturating_sub(b'0'));
        if number > (u64::MAX - digit) / 10 {
            return None;
        }
        number = 10 * number + digit;
    }
    Some(number)
}
