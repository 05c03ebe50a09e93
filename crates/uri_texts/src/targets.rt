ghost use Rattle.std.specs.Prelude.{◌≡◌, ◌==◌, ◌||◌, IsTrue, drop, length, option_map, take};
ghost use Rattle.std.specs.List.{position};
ghost use Rattle.request_model.specs.Words.{begins_in_any_case, halves_at, question_mark, slash, some_if};
ghost use Rattle.request_model.specs.Targets.{behind_authority, rooted, split_target};
ghost use Rattle.uri_texts.specs.Texts.{is_ascii_text};

/// The first bytes, or all where there are not so many.
fn front(bytes: &[u8], count: usize) -> &[u8]
    ensures { result.now ≡ take count bytes.now }
{
    &bytes[..count.min(bytes.len())]
}

/// What stands behind the scheme, where the text begins with it in any case.
fn behind_scheme<'a>(scheme: &str, text: &'a str) -> Option<&'a str>
    requires { IsTrue (is_ascii_text scheme.now) }
    ensures { option_map (λ t. t.now) result ≡ some_if (begins_in_any_case scheme.now text.now) (drop (length scheme.now) text.now) }
{
    let count = scheme.len();
    if scheme
        .as_bytes()
        .eq_ignore_ascii_case(front(text.as_bytes(), count))
    {
        Some(&text[count..])
    } else {
        None
    }
}

/// The place of the byte that ends the authority, where there is one.
fn end_of_authority(bytes: &[u8]) -> Option<usize>
    ensures { result ≡ position (λ b. b == slash || b == question_mark) bytes.now }
{
    bytes.iter().position(|byte| *byte == b'/' || *byte == b'?')
}

/// What stands behind the authority: what begins with the first `/` or `?`, or nothing.
fn behind_authority(text: &str) -> &str
    ensures { result.now ≡ behind_authority text.now }
{
    match end_of_authority(text.as_bytes()) {
        Some(place) => &text[place..],
        None => "",
    }
}

/// What stands before the first `?`, and what stands behind it.
fn halves(text: &str) -> (&str, &str)
    ensures { (result.0.now, result.1.now) ≡ halves_at question_mark text.now }
{
    match text.split_once('?') {
        Some(halves) => halves,
        None => (text, ""),
    }
}

/// Path and query of what stands behind a scheme. An empty path is `/`.
fn halves_behind_authority(text: &str) -> (&str, &str)
    ensures { (result.0.now, result.1.now) ≡ halves_at question_mark (rooted (behind_authority text.now)) }
{
    let (path, query) = halves(behind_authority(text));
    if path.is_empty() {
        ("/", query)
    } else {
        (path, query)
    }
}

/// The path and the query of a request target (RFC 9112, section 3.2). In origin form the path begins the target; behind
/// `http://` or `https://`, in any case, and the authority, an empty path is `/` (RFC 9110, section 4.2.3). The query is
/// what follows the first `?`, or empty. None exactly where the target has neither form. Takes no memory.
pub fn split_target(target: &str) -> Option<(&str, &str)>
    ensures { option_map (λ p. (p.0.now, p.1.now)) result ≡ split_target target.now }
{
    if target.starts_with('/') {
        return Some(halves(target));
    }
    if let Some(text) = behind_scheme("http://", target) {
        return Some(halves_behind_authority(text));
    }
    if let Some(text) = behind_scheme("https://", target) {
        return Some(halves_behind_authority(text));
    }
    None
}
