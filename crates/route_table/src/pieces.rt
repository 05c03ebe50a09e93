ghost use Rattle.std.specs.Prelude.{◌≡◌, ◌∷◌, option_map};
ghost use Rattle.request_model.specs.Words.{parts_at, slash};
ghost use Rattle.route_table.specs.Routes.{pieces_of};

/// What stands before the first `/`, or all, and what stands behind it, where there is one (RFC 3986, section 3.3).
pub(crate) fn first_piece(path: &str) -> (&str, Option<&str>)
    ensures { parts_at slash path.now ≡ result.0.now ∷ pieces_of (option_map (λ t. t.now) result.1) }
{
    match path.split_once('/') {
        Some((piece, rest)) => (piece, Some(rest)),
        None => (path, None),
    }
}
