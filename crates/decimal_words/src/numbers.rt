ghost use Rattle.std.specs.Prelude.{◌≡◌, ◌&&◌, length, nat_le, nat_lt};
ghost use Rattle.std.specs.List.{list_all};
ghost use Rattle.std.specs.Char.{is_ascii_digit};
ghost use Rattle.decimal_words.specs.Words.{decimal_word, is_decimal, some_if};

/// The most digits of a number among the words.
pub const DIGIT_LIMIT: usize = 20;

// Whether each byte is a digit.
fn has_digits_alone(word: &str) -> bool
    ensures { result ≡ list_all is_ascii_digit word.now }
{
    word.as_bytes().iter().all(|byte| byte.is_ascii_digit())
}

// Whether a word is 1 to `DIGIT_LIMIT` digits.
fn is_decimal(word: &str) -> bool
    ensures { result ≡ is_decimal word.now }
{
    !word.is_empty() && word.len() <= DIGIT_LIMIT && has_digits_alone(word)
}

// The number, where it lies within the limits.
fn within(number: u64, least: u64, most: u64) -> Option<u64>
    ensures { result ≡ some_if (nat_le least number && nat_le number most) number }
{
    if least <= number && number <= most {
        Some(number)
    } else {
        None
    }
}

/// The number that a word of 1 to `DIGIT_LIMIT` digits tells, where it is at least one number and at most another. Zeros may lead.
pub fn decimal_word(word: &str, least: u64, most: u64) -> Option<u64>
    ensures { result ≡ decimal_word word.now least most }
{
    if !is_decimal(word) {
        return None;
    }
    match word.parse::<u64>() {
        Ok(number) => within(number, least, most),
        Err(_) => None,
    }
}
