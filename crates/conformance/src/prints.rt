//! How the output of a case is printed.
use std::io::{self, Write};

/// So often a byte stands in a row where its count is printed.
const LONG: usize = 100;

/// Prints one byte.
fn print_byte<W: Write>(out: &mut W, byte: u8) -> io::Result<()> {
    match byte {
        b'\n' => out.write_all(b"\n"),
        b'\r' => out.write_all(b"\\r"),
        b'\\' => out.write_all(b"\\\\"),
        32..=126 => out.write_all(&[byte]),
        _ => write!(out, "\\x{byte:02x}"),
    }
}

/// Prints a byte that stands so often in a row.
fn print_run<W: Write>(out: &mut W, byte: u8, count: usize) -> io::Result<()> {
    if count >= LONG {
        print_byte(out, byte)?;
        return write!(out, "\\{{{count}}}");
    }
    for _ in 0..count {
        print_byte(out, byte)?;
    }
    Ok(())
}

/// Whether a byte stands at a place.
fn stands_at(bytes: &[u8], place: usize, byte: u8) -> bool {
    match bytes.get(place) {
        Some(found) => *found == byte,
        None => false,
    }
}

/// Prints an output, run by run of equal bytes.
fn print_bytes<W: Write>(out: &mut W, bytes: &[u8]) -> io::Result<()> {
    let mut count: usize = 0;
    for (place, byte) in bytes.iter().enumerate() {
        count = count.wrapping_add(1);
        if !stands_at(bytes, place.wrapping_add(1), *byte) {
            print_run(out, *byte, count)?;
            count = 0;
        }
    }
    Ok(())
}

/// Prints what came of a case: its name, its status and its output.
pub fn print<W: Write>(out: &mut W, name: &str, status: u8, output: &[u8]) -> io::Result<()> {
    write!(out, "# {name}: status {status}\n")?;
    print_bytes(out, output)?;
    out.write_all(b"\n")
}
