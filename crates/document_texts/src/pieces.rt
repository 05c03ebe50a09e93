ghost use Rattle.std.specs.Prelude.{◌≡◌, ◌||◌};
ghost use Rattle.serde_json.specs.Written.{comma_if};
ghost use Rattle.json_texts.specs.Drafts.{Adds};

use json_texts::TextDraft;

/// Whether a member was added before, or this one is.
pub fn is_begun(before: bool, shown: bool) -> bool
    ensures { result ≡ (before || shown) }
{
    before || shown
}

/// Goes on with a comma, where something stands before.
pub fn add_comma(draft: &mut TextDraft, later: bool)
    ensures { Adds draft.old draft.new (comma_if later) }
{
    if later {
        draft.add(b",");
    }
}
