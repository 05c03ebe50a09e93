ghost use Rattle.std.specs.Prelude.{◌≡◌};
ghost use Rattle.request_model.specs.Queries.{has_resources, is_page, knows, primary_kind};

use request_model::Parameter;
use resource_schema::{Schema, Target};

/// Whether a target answers with resources.
fn has_resources(target: &Target) -> bool
    ensures { result ≡ has_resources target.now }
{
    match target {
        Target::Collection(_) | Target::Resource(_) | Target::Related(_, _) => true,
        Target::Linkage(_, _) | Target::Operations => false,
    }
}

/// Whether a target answers with a page.
fn is_page(schema: &Schema, target: &Target) -> bool
    ensures { result ≡ is_page schema.now target.now }
{
    match target {
        Target::Collection(_) => true,
        Target::Related(key, rel) => schema.is_many(key.kind, *rel),
        Target::Resource(_) | Target::Linkage(_, _) | Target::Operations => false,
    }
}

/// The type of the primary data.
pub fn primary_kind(schema: &Schema, target: &Target) -> u32
    ensures { result ≡ primary_kind schema.now target.now }
{
    match target {
        Target::Collection(kind) => *kind,
        Target::Resource(key) => key.kind,
        Target::Related(key, rel) | Target::Linkage(key, rel) => schema.target_of(key.kind, *rel),
        Target::Operations => 0,
    }
}

/// Whether a target knows a parameter.
pub fn knows(schema: &Schema, target: &Target, parameter: Parameter) -> bool
    ensures { result ≡ knows schema.now target.now parameter }
{
    match parameter {
        Parameter::Include | Parameter::Fields => has_resources(target),
        Parameter::Sort | Parameter::PageSize | Parameter::PageAfter | Parameter::PageBefore =>
            is_page(schema, target),
    }
}
