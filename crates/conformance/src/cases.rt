//! Cases as they stand in data/.
use serde::Deserialize;
use std::alloc::{AllocError, Global};
use std::collections::BTreeMap;

/// A text of bytes: each character is one byte.
#[derive(Drop, Deserialize)]
#[serde(untagged)]
pub enum Written {
    /// As it stands.
    Whole(String),
    /// Part by part, each as often as its number says.
    Parts(Vec<(String, usize)>),
}

/// A case.
#[derive(Drop, Deserialize)]
#[serde(deny_unknown_fields)]
pub struct Case {
    /// What it shows.
    pub name: String,
    /// The words behind the program's name.
    pub words: Vec<String>,
    /// The input.
    pub stdin: Written,
    /// The files by their names.
    #[serde(default)]
    pub files: BTreeMap<String, Written>,
    /// The most bytes of one read of the input.
    #[serde(default)]
    pub piece: Option<usize>,
    /// The reads of the input that fail.
    #[serde(default)]
    pub failing_reads: Vec<u64>,
    /// The writes that fail.
    #[serde(default)]
    pub failing_writes: Vec<u64>,
    /// The openings of a file that fail.
    #[serde(default)]
    pub failing_opens: Vec<u64>,
    /// The reads of a file that fail.
    #[serde(default)]
    pub failing_file_reads: Vec<u64>,
}

/// The byte of a character; that of a question mark for one that is no byte.
fn byte_of(character: char) -> u8 {
    match u8::try_from(character as u32) {
        Ok(byte) => byte,
        Err(_) => b'?',
    }
}

/// Puts a part behind some bytes.
fn put(bytes: &mut Vec<u8>, part: &str) -> Result<(), AllocError> {
    for character in part.chars() {
        bytes.push(byte_of(character))?;
    }
    Ok(())
}

/// Puts a part behind some bytes, so many times.
fn put_often(bytes: &mut Vec<u8>, part: &str, count: usize) -> Result<(), AllocError> {
    for _ in 0..count {
        put(bytes, part)?;
    }
    Ok(())
}

/// The bytes of a text.
pub fn bytes_of(alloc: Global, written: &Written) -> Result<Vec<u8>, AllocError> {
    let mut bytes = Vec::new(alloc);
    match written {
        Written::Whole(text) => put(&mut bytes, text.as_str())?,
        Written::Parts(parts) => {
            for part in parts.iter() {
                put_often(&mut bytes, part.0.as_str(), part.1)?;
            }
        }
    }
    Ok(bytes)
}
