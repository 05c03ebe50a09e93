//! jsonapid: a server of typed, linked resources by JSON:API 1.1.
//!
//! Here stand the ends of the system alone: the words behind the program's name, standard input, standard output, files and
//! sockets. What the program does with them is `command` of the crate commands, and `serve_command` of the crate of that name.
#![tactic(auto)]

use commands::command;
use ident_rules::{NoMemory, Text};
use outer_ends::{FileOpener, Sink, StreamSink, StreamSource, send_all};
use serve_command::serve_command;
use serve_lines::{serve_address, serve_words};
use socket_stations::stations_at;
use std::alloc::Global;
use std::env::{self, Env};
use std::fs::Files;
use std::io::{self, ErrorKind};
use std::net::{Net, TcpListener, TcpStream};
use std::process::ExitCode;
use std::sync::Wait;
use std::thread::Threads;
use std::time::Clock;

/// The words behind the program's name. None stand for words of which one is not UTF-8, so that they are refused as wrong
/// words are.
fn words(rt: &(impl Env + AllocGlobal), alloc: Global) -> Result<Vec<Text>, NoMemory> {
    let mut words = Vec::new(alloc);
    let all = match env::args(rt) {
        Ok(all) => all,
        Err(error) if error.kind() == ErrorKind::OutOfMemory => return Err(NoMemory),
        Err(_) => return Ok(words),
    };
    for word in all.skip(1) {
        words.push(Text::from_string(word))?;
    }
    Ok(words)
}

/// Says that no connection can be accepted at the address.
fn cannot_listen<K: Sink>(sink: &mut K) -> u8 {
    let _ = send_all(b"jsonapid: cannot listen\n", sink);
    1
}

/// Serves connections at sockets, where the words ask for it, and answers the exit status.
fn serve<
    R: Net<Listener = TcpListener, Stream = TcpStream>
        + Clock
        + Threads
        + Wait
        + Sync
        + Files
        + Print
        + AllocGlobal,
>(rt: &R, alloc: Global, words: &[Text]) -> Option<u8> {
    let asked = serve_words(words)?;
    let address = serve_address(words)?;
    let mut sink = StreamSink::new(io::writer(rt));
    let mut opener = FileOpener::new(rt);
    let Some(stations) = stations_at(rt, alloc, address.as_str(), asked.workers) else {
        return Some(cannot_listen(&mut sink));
    };
    let mut stations = stations;
    Some(serve_command(rt, alloc, words, &mut opener, &mut stations, &mut sink))
}

/// Does what the words ask for on standard input and output, and answers the exit status.
fn run(rt: &(impl Input + Print + Files + AllocGlobal), alloc: Global, words: &[Text]) -> u8 {
    let mut sink = StreamSink::new(io::writer(rt));
    let mut source = StreamSource::new(rt.reader());
    let mut opener = FileOpener::new(rt);
    command(alloc, words, &mut opener, &mut source, &mut sink)
}

fn main(rt: HostRuntime) -> ExitCode {
    let alloc = rt.alloc();
    let Ok(words) = words(&rt, alloc) else {
        return ExitCode::from(5);
    };
    match serve(&rt, alloc, words.as_slice()) {
        Some(status) => ExitCode::from(status),
        None => ExitCode::from(run(&rt, alloc, words.as_slice())),
    }
}
