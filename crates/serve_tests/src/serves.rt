//! The command `serve` over files, connections and an output in memory, with as many stations as its words ask for.
ghost use Rattle.std.specs.Prelude.{All, IsSome};

use crate::{Client, MemoryStation, stations, were_served};
use ident_rules::{NoMemory, Text};
use outer_ends::{MemoryOpener, MemorySink};
use serve_command::serve_command;
use serve_lines::serve_words;
use std::alloc::Global;
use std::sync::Wait;
use std::test::Fail;
use std::thread::Threads;

/// The schema of the notes, which the file `s` has.
const NOTES: &[u8] = br#"{"types":{"notes":{"attributes":{"text":{"type":"text"}}}}}"#;

/// A note is made, read, and found in a list.
pub const WRITES: Client = Client {
    bytes: b"POST /notes HTTP/1.1\r\nHost: h\r\nContent-Type: application/vnd.api+json\r\nContent-Length: 55\r\n\r\n{\"data\":{\"type\":\"notes\",\"attributes\":{\"text\":\"hello\"}}}GET /notes/1 HTTP/1.1\r\nHost: h\r\n\r\nGET /notes HTTP/1.1\r\nHost: h\r\n\r\n",
    pieces: &[
        "HTTP/1.1 201 ",
        r#"{"data":{"attributes":{"text":"hello"},"id":"1","#,
        "HTTP/1.1 200 ",
        r#"{"data":{"attributes":{"text":"hello"},"id":"1","#,
        "HTTP/1.1 200 ",
        r#"{"data":[{"attributes":{"text":"hello"},"id":"1","#,
    ],
};

/// A note is asked for that is not there.
const ASKS: Client = Client {
    bytes: b"GET /notes/7 HTTP/1.1\r\nHost: h\r\n\r\n",
    pieces: &["HTTP/1.1 404 "],
};

/// Its connection is not accepted.
const WAITS: Client = Client {
    bytes: b"GET /notes/7 HTTP/1.1\r\nHost: h\r\n\r\n",
    pieces: &[],
};

/// A run of the command.
#[derive(Clone, Copy)]
struct Row {
    words: [&'static str; 5],
    /// The one connection of each station's listener, which fails then.
    clients: &'static [Client],
    status: u8,
    /// What it tells.
    told: &'static [u8],
    /// The call that fails, if any.
    fault: Fault,
}

/// A first call that fails.
#[derive(Clone, Copy, PartialEq)]
enum Fault {
    /// None.
    Nothing,
    /// That which opens the schema file.
    Open,
    /// That which reads it.
    Read,
    /// That which writes the line.
    Write,
}

/// The numbers of failing calls: 1 where the row's fault is this one.
fn failing(alloc: Global, row: &Row, fault: Fault) -> Result<Vec<u64>, NoMemory> {
    let mut numbers = Vec::new(alloc);
    if row.fault == fault {
        numbers.push(1)?;
    }
    Ok(numbers)
}

/// The words of a run.
fn words_of(alloc: Global, row: &Row) -> Result<Vec<Text>, NoMemory> {
    let mut words = Vec::new(alloc);
    for word in &row.words {
        words.push(Text::from_str(alloc, word)?)?;
    }
    Ok(words)
}

/// An opener of the file `s` alone, whose calls of those numbers fail, as those of its file do.
fn opener_of(alloc: Global, opens: Vec<u64>, reads: Vec<u64>) -> Result<MemoryOpener, NoMemory> {
    let name = Text::from_str(alloc, "s")?.into_string();
    let mut files = Vec::new(alloc);
    files.push((name, Vec::from_slice(alloc, NOTES)?, reads))?;
    Ok(MemoryOpener::new(alloc, files, opens))
}

/// An opener of the file `s` alone.
pub fn opener(alloc: Global) -> Result<MemoryOpener, NoMemory> {
    opener_of(alloc, Vec::new(alloc), Vec::new(alloc))
}

/// The exit status. None where there are not as many stations as the words ask for.
fn status_of<R: Threads + Wait + Sync>(
    rt: &R,
    alloc: Global,
    words: &[Text],
    opener: &mut MemoryOpener,
    stations: &mut [MemoryStation],
    sink: &mut MemorySink,
) -> Result<Option<u8>, NoMemory>
    requires { All (λ s. IsSome s.gate) stations.old }
{
    if let Some(asked) = serve_words(words) {
        if stations.len() != asked.workers as usize {
            return Ok(None);
        }
    }
    Ok(Some(serve_command(rt, alloc, words, opener, stations, sink)))
}

/// Whether the run comes to that.
fn comes_so<R: Threads + Wait + Sync>(rt: &R, alloc: Global, row: &Row) -> Result<bool, NoMemory> {
    let words = words_of(alloc, row)?;
    let mut stations = stations(alloc, row.clients)?;
    let opens = failing(alloc, row, Fault::Open)?;
    let mut opener = opener_of(alloc, opens, failing(alloc, row, Fault::Read)?)?;
    let mut sink = MemorySink::new(alloc, failing(alloc, row, Fault::Write)?);
    let status = status_of(rt, alloc, &words, &mut opener, &mut stations, &mut sink)?;
    let told = status == Some(row.status) && sink.written() == row.told;
    Ok(told && were_served(&stations, row.clients))
}

/// The number of the first row that does not come so.
fn first_wrong<R: Threads + Wait + Sync>(
    rt: &R,
    alloc: Global,
    rows: &[Row],
) -> Result<Option<usize>, NoMemory> {
    for (number, row) in rows.iter().enumerate() {
        if !comes_so(rt, alloc, row)? {
            return Ok(Some(number));
        }
    }
    Ok(None)
}

/// A run that is refused, for its words or for its path.
fn refused(words: [&'static str; 5], clients: &'static [Client], told: &'static [u8]) -> Row {
    Row {
        words,
        clients,
        status: 2,
        told,
        fault: Fault::Nothing,
    }
}

/// A run of one worker and one connection with a failing call.
fn failed(clients: &'static [Client], fault: Fault) -> Row {
    Row {
        words: ["serve", "s", "a", "1", "1"],
        clients,
        status: 1,
        told: b"",
        fault,
    }
}

/// The runs.
fn rows() -> [Row; 9] {
    let others = b"jsonapid: words\n";
    [
        refused(["serve", "s", "a", "0", "1"], &[], others),
        refused(["serve", "s", "a", "65", "1"], &[], others),
        refused(["serve", "s", "a", "1", "0"], &[], others),
        refused(
            ["serve", "none", "a", "1", "1"],
            &[WAITS],
            b"jsonapid: missing none\n",
        ),
        Row {
            words: ["serve", "s", "a", "2", "1"],
            clients: &[WRITES, ASKS],
            status: 0,
            told: b"sessions 2 requests 4 entries 4\n",
            fault: Fault::Nothing,
        },
        // The second accept fails.
        Row {
            words: ["serve", "s", "a", "1", "2"],
            clients: &[ASKS],
            status: 1,
            told: b"sessions 1 requests 1 entries 1\n",
            fault: Fault::Nothing,
        },
        failed(&[WAITS], Fault::Open),
        failed(&[WAITS], Fault::Read),
        failed(&[ASKS], Fault::Write),
    ]
}

#[test]
fn serves_so(rt: HostRuntime) -> Result<(), Fail> {
    assert_eq!(rt; first_wrong(&rt, rt.alloc(), &rows())?, None);
    Ok(())
}
