ghost use Rattle.std.specs.Prelude.{◌≡◌, IfOk};
ghost use Rattle.request_model.specs.Links.{resource_link, related_link, relationship_link, path_with_query};

use form_urlencoded::Serializer;
use ident_rules::{Id, Name, NoMemory, Text};
use std::alloc::Global;

/// The link to a resource, `/TYPE/ID` (JSON:API 1.1, "Resource Links"; its form is of this project). No byte of a name
/// or an id needs an escape. Its one error is want of memory.
pub fn resource_link(alloc: Global, kind: &Name, id: &Id) -> Result<Text, NoMemory>
    ensures { IfOk result (λ t. t ≡ resource_link kind.now id.now) }
{
    let mut text = String::from_str(alloc, "/")?;
    text.push_str(kind.as_str())?;
    text.push_str("/")?;
    text.push_str(id.as_str())?;
    Ok(Text::from_string(text))
}

/// The link to what a relationship leads to, `/TYPE/ID/REL` (JSON:API 1.1, "Related Resource Links"). Its one error is
/// want of memory.
pub fn related_link(alloc: Global, kind: &Name, id: &Id, rel: &Name) -> Result<Text, NoMemory>
    ensures { IfOk result (λ t. t ≡ related_link kind.now id.now rel.now) }
{
    let mut text = resource_link(alloc, kind, id)?.into_string();
    text.push_str("/")?;
    text.push_str(rel.as_str())?;
    Ok(Text::from_string(text))
}

/// The link to a relationship itself, `/TYPE/ID/relationships/REL` (JSON:API 1.1, "Relationships"). Its one error is
/// want of memory.
pub fn relationship_link(alloc: Global, kind: &Name, id: &Id, rel: &Name) -> Result<Text, NoMemory>
    ensures { IfOk result (λ t. t ≡ relationship_link kind.now id.now rel.now) }
{
    let mut text = resource_link(alloc, kind, id)?.into_string();
    text.push_str("/relationships/")?;
    text.push_str(rel.as_str())?;
    Ok(Text::from_string(text))
}

/// The path, `?` and the pairs as a web form writes them (RFC 3986, section 3.4; the URL Standard,
/// "application/x-www-form-urlencoded serializing"). Its one error is want of memory.
pub fn with_query(alloc: Global, path: &str, pairs: &[(Text, Text)]) -> Result<Text, NoMemory>
    ensures { IfOk result (λ t. t ≡ path_with_query path.now pairs.now) }
{
    let mut form = Serializer::new(String::new(alloc));
    for (name, value) in pairs {
        form.append_pair(name.as_str(), value.as_str())?;
    }
    let mut text = String::from_str(alloc, path)?;
    text.push_str("?")?;
    text.push_str(form.finish().as_str())?;
    Ok(Text::from_string(text))
}
