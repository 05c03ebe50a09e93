ghost use Rattle.std.specs.Prelude.{◌≡◌, ◌&&◌, length, nat_le, nat_lt};
ghost use Rattle.std.specs.List.{list_all};
ghost use Rattle.std.specs.Char.{is_ascii_digit};
ghost use Rattle.request_model.specs.Queries.{page_size_of, size_digits};
ghost use Rattle.request_model.specs.Words.{some_if};
ghost use Rattle.task_forms.specs.declared.queries.TheConstants.{PAGE_SIZE_LIMIT};

use task_forms::PAGE_SIZE_LIMIT;

/// The most digits of a page size.
const SIZE_DIGITS: usize = 9;

/// Whether each byte is a digit.
fn is_decimal(text: &str) -> bool
    ensures { result ≡ list_all is_ascii_digit text.now }
{
    text.as_bytes().iter().all(|byte| byte.is_ascii_digit())
}

/// Whether a text is 1 to `SIZE_DIGITS` digits.
fn has_size_form(text: &str) -> bool
    ensures { result ≡ (nat_lt 0 (length text.now) && nat_le (length text.now) size_digits && list_all is_ascii_digit text.now) }
{
    !text.is_empty() && text.len() <= SIZE_DIGITS && is_decimal(text)
}

/// The size, where a page may have it.
fn within_limits(size: u16) -> Option<u16>
    ensures { result ≡ some_if (nat_le 1 size && nat_le size PAGE_SIZE_LIMIT) size }
{
    if 1 <= size && size <= PAGE_SIZE_LIMIT {
        Some(size)
    } else {
        None
    }
}

/// 1 to `SIZE_DIGITS` digits, from 1 to `PAGE_SIZE_LIMIT` (Cursor Pagination profile, "page[size]").
pub fn page_size_of(value: &str) -> Option<u16>
    ensures { result ≡ page_size_of value.now }
{
    if !has_size_form(value) {
        return None;
    }
    match value.parse::<u16>() {
        Ok(size) => within_limits(size),
        Err(_) => None,
    }
}
