use ident_rules::{Bytes, NoMemory, Text};
use std::alloc::Global;
use std::test::Fail;

fn copied_text(alloc: Global) -> Result<Text, NoMemory> {
    Text::from_str(alloc, "héllo")?.copy(alloc)
}

fn copied_bytes(alloc: Global) -> Result<Bytes, NoMemory> {
    Bytes::from_slice(alloc, b"\x00\xff")?.copy(alloc)
}

#[test]
fn copies_with_ample_memory(rt: HostRuntime) -> Result<(), Fail> {
    let text = copied_text(rt.alloc())?;
    assert_eq!(rt; text.as_str(), "héllo");
    let bytes = copied_bytes(rt.alloc())?;
    assert_eq!(rt; bytes.as_slice(), b"\x00\xff".as_slice());
    Ok(())
}
