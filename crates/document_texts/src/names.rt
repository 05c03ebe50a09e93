ghost use Rattle.std.specs.Prelude.{◌≡◌, ◌++◌, codes};
ghost use Rattle.json_texts.specs.Drafts.{Adds};
ghost use Rattle.json.specs.Print.{escape};
ghost use Rattle.resource_schema.specs.Kinds.{kind_name};

use json_texts::{TextDraft, name_text};
use resource_schema::Schema;

/// The name of a type as it stands in a string.
pub fn kind_text(schema: &Schema, kind: u32) -> &[u8]
    ensures { result.now ≡ escape (kind_name schema.now kind) }
{
    match schema.kind(kind) {
        Some(kind) => name_text(&kind.name),
        None => b"",
    }
}

/// Goes on with a path behind its first slash: two parts, each as it stands in a string.
pub fn add_path(draft: &mut TextDraft, kind: &[u8], id: &[u8])
    ensures { Adds draft.old draft.new (kind.now ++ (codes "/" ++ id.now)) }
{
    draft.add(kind);
    draft.add(b"/");
    draft.add(id);
}
