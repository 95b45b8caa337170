//! Numbers in words.
ghost use Rattle.std.specs.Prelude.{◌≡◌, ◌≤◌, ◌<◌, ◌^◌, length, true, IfSome};
ghost use Rattle.word_reader.specs.declared.limits.TheConstants.{DIGIT_LIMIT};
ghost use Rattle.word_reader.specs.Numbers.{is_digit, are_digits, number_of_digits, number_in};

/// Whether a byte is a decimal digit.
fn is_a_digit(byte: u8) -> bool
    ensures { result ≡ is_digit byte }
{
    48 <= byte && byte <= 57
}

fn are_all_digits(bytes: &[u8]) -> bool
    ensures { result ≡ are_digits bytes.now }
{
    for byte in bytes {
        if !is_a_digit(*byte) {
            return false;
        }
    }
    true
}

fn digits_number(bytes: &[u8]) -> u64
    requires digits { are_digits bytes.now ≡ true }
    requires few { length bytes.now ≤ DIGIT_LIMIT }
    ensures value { result ≡ number_of_digits bytes.now }
    ensures small { result < 10 ^ length bytes.now }
{
    let mut number: u64 = 0;
    for byte in bytes {
        number = number * 10 + (*byte - b'0') as u64;
    }
    number
}

/// The number that bytes write in 1 to `most` decimal digits, and `None` where they write none.
pub fn read_digits(bytes: &[u8], most: usize) -> Option<u64>
    requires { most ≤ DIGIT_LIMIT }
    ensures value { result ≡ number_in most bytes.now }
    ensures small { IfSome result (λ number. number < 10 ^ most) }
{
    if bytes.is_empty() || bytes.len() > most {
        return None;
    }
    if are_all_digits(bytes) {
        Some(digits_number(bytes))
    } else {
        None
    }
}

/// The number that a word writes in 1 to `most` decimal digits, and `None` where it writes none.
pub fn read_number(word: &str, most: usize) -> Option<u64>
    requires { most ≤ DIGIT_LIMIT }
    ensures { result ≡ number_in most word.now }
{
    read_digits(word.as_bytes(), most)
}
