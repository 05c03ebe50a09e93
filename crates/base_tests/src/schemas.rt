use ident_rules::{Id, Name, NoMemory, Text, read_name};
use resource_schema::{AttrValue, Attribute, Form, Place, Schema, copy_values};
use std::alloc::Global;
use std::test::Fail;

// A copy of a place with an integer and a text.
fn copied_place(alloc: Global) -> Result<Place, NoMemory> {
    let mut values = Vec::new(alloc);
    values.push(AttrValue::Int(-7))?;
    values.push(AttrValue::Text(Text::from_str(alloc, "a")?))?;
    let place = Place {
        values: copy_values(alloc, values.as_slice())?,
        id: Id::of_number(3),
    };
    place.copy(alloc)
}

// A copy of the built-in schema.
fn copied_notes(alloc: Global) -> Result<Schema, NoMemory> {
    Schema::notes(alloc)?.copy(alloc)
}

// A copy of an attribute with a text as its default.
fn copied_attribute(alloc: Global, name: Name) -> Result<Attribute, NoMemory> {
    let attribute = Attribute {
        name,
        form: Form::Text,
        nullable: false,
        default: Some(AttrValue::Text(Text::from_str(alloc, "none")?)),
    };
    attribute.copy(alloc)
}

#[test]
fn copies_with_ample_memory(rt: HostRuntime) -> Result<(), Fail> {
    let schema = copied_notes(rt.alloc())?;
    assert_eq!(rt; schema.kind_name(0), "notes");
    let place = copied_place(rt.alloc())?;
    assert_eq!(rt; place.id.as_str(), "3");
    Ok(())
}

#[test]
fn copies_a_default(rt: HostRuntime) -> Result<(), Fail> {
    let name = read_name("title").expect(&rt, "a name");
    let attribute = copied_attribute(rt.alloc(), name)?;
    assert!(rt; attribute.default.is_some());
    Ok(())
}
