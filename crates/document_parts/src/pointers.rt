ghost use Rattle.std.specs.Prelude.{◌≡◌, ◌++◌, IfOk, OnOk, string_bytes};
ghost use Rattle.json_forms.specs.Pointer.{escape};
ghost use Rattle.document_parts.specs.Pointers.{is_plain, member_pointer, item_pointer};

use ident_rules::{NoMemory, Text};
use json_forms::escape_pointer;
use std::alloc::Global;

/// Whether a name stands in a pointer as it is.
fn is_plain(name: &[u8]) -> bool
    ensures { result ≡ is_plain name.now }
{
    name.iter().all(|byte| *byte != b'~' && *byte != b'/')
}

/// Appends a name as a part of a pointer.
fn push_name(pointer: &mut String, alloc: Global, name: &str) -> Result<(), NoMemory>
    ensures { OnOk result (string_bytes pointer.new ≡ string_bytes pointer.old ++ escape name.now) }
{
    if is_plain(name.as_bytes()) {
        Ok(pointer.push_str(name)?)
    } else {
        let escaped = escape_pointer(alloc, name)?;
        Ok(pointer.push_str(escaped.as_str())?)
    }
}

/// Appends `/` and a name to a pointer, which then leads to the member of that name.
fn push_member(pointer: &mut String, alloc: Global, name: &str) -> Result<(), NoMemory>
    ensures { OnOk result (string_bytes pointer.new ≡ member_pointer (string_bytes pointer.old) name.now) }
{
    pointer.push_str("/")?;
    push_name(pointer, alloc, name)
}

/// The pointer of the member of that name in the object that the pointer `at` leads to (RFC 6901, section 3). Its one
/// error is want of memory.
pub fn member_pointer(alloc: Global, at: &str, name: &str) -> Result<Text, NoMemory>
    ensures { IfOk result (λ t. t ≡ member_pointer at.now name.now) }
{
    let room = at.len().saturating_add(name.len()).saturating_add(1);
    let mut pointer = String::with_capacity(alloc, room)?;
    pointer.push_str(at)?;
    push_member(&mut pointer, alloc, name)?;
    Ok(Text::from_string(pointer))
}

/// The pointer of the item at that place, from 0, in the array that the pointer `at` leads to (RFC 6901, section 4). Its
/// one error is want of memory.
pub fn item_pointer(alloc: Global, at: &str, place: u32) -> Result<Text, NoMemory>
    ensures { IfOk result (λ t. t ≡ item_pointer at.now place) }
{
    let mut digits = itoa::Buffer::new();
    member_pointer(alloc, at, digits.format(place))
}

/// The pointer of the member of that name in the item at that place, from 0, in the array that the pointer `at` leads to
/// (RFC 6901, sections 3 and 4). Its one error is want of memory.
pub fn item_member_pointer(
    alloc: Global,
    at: &str,
    place: u32,
    name: &str,
) -> Result<Text, NoMemory>
    ensures { IfOk result (λ t. t ≡ member_pointer (item_pointer at.now place) name.now) }
{
    let mut digits = itoa::Buffer::new();
    let number = digits.format(place);
    let room = at.len().saturating_add(name.len()).saturating_add(12);
    let mut pointer = String::with_capacity(alloc, room)?;
    pointer.push_str(at)?;
    push_member(&mut pointer, alloc, number)?;
    push_member(&mut pointer, alloc, name)?;
    Ok(Text::from_string(pointer))
}
