ghost use Rattle.std.specs.Prelude.{◌≡◌, codes, option_map};
ghost use Rattle.request_model.specs.Queries.{in_brackets, known_parameter, parameter_of};

use crate::targets::knows;
use request_model::Parameter;
use resource_schema::{Schema, Target};

/// What stands in the brackets of `fields[..]` (JSON:API 1.1, "Sparse Fieldsets").
pub fn in_brackets(name: &str) -> Option<&str>
    ensures { option_map (λ t. t.now) result ≡ in_brackets (codes "fields") name.now }
{
    match name.strip_prefix("fields[") {
        Some(behind) => behind.strip_suffix(']'),
        None => None,
    }
}

/// The parameter of a name, whatever its target.
fn parameter_of(name: &str) -> Option<Parameter>
    ensures { result ≡ parameter_of name.now }
{
    if name == "include" {
        Some(Parameter::Include)
    } else if name == "sort" {
        Some(Parameter::Sort)
    } else if name == "page[size]" {
        Some(Parameter::PageSize)
    } else if name == "page[after]" {
        Some(Parameter::PageAfter)
    } else if name == "page[before]" {
        Some(Parameter::PageBefore)
    } else if in_brackets(name).is_some() {
        Some(Parameter::Fields)
    } else {
        None
    }
}

/// The parameter of a name, where the target knows it.
pub fn known_parameter(schema: &Schema, target: &Target, name: &str) -> Option<Parameter>
    ensures { result ≡ known_parameter schema.now target.now name.now }
{
    let parameter = parameter_of(name)?;
    if knows(schema, target, parameter) {
        Some(parameter)
    } else {
        None
    }
}
