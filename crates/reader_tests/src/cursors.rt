//! Cursors with a long text.
use cursor_codec::{read_cursor, write_cursor};
use ident_rules::{Id, List, NoMemory, Text};
use resource_schema::{AttrValue, Form, Place, TEXT_LIMIT, same_values};
use std::alloc::Global;
use std::test::Fail;

/// The place of a text of so many letters.
fn place_of(alloc: Global, count: usize) -> Result<Place, NoMemory> {
    let mut text = String::new(alloc);
    for _ in 0..count {
        text.push('x')?;
    }
    let mut values = Vec::new(alloc);
    values.push(AttrValue::Text(Text::from_string(text)))?;
    values.push(AttrValue::Null)?;
    Ok(Place {
        values: List::from_vec(values),
        id: Id::of_number(7),
    })
}

/// Whether the cursor of such a place is read as the place.
fn is_read_back(alloc: Global, count: usize) -> Result<bool, NoMemory> {
    let place = place_of(alloc, count)?;
    let cursor = write_cursor(alloc, &place)?;
    let forms = [(Form::Text, false), (Form::Int, true)];
    Ok(match read_cursor(alloc, cursor.as_str(), &forms)? {
        Some(read) => {
            read.id == place.id && same_values(read.values.as_slice(), place.values.as_slice())
        }
        None => false,
    })
}

#[test]
fn reads_back_long_cursors(rt: HostRuntime) -> Result<(), Fail> {
    assert!(rt; is_read_back(rt.alloc(), TEXT_LIMIT)?);
    assert!(rt; !is_read_back(rt.alloc(), TEXT_LIMIT + 1)?);
    Ok(())
}
