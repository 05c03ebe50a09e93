use outer_ends::{
    Failed, FileOpener, Listener, MemoryListener, MemoryOpener, MemorySink, MemorySource, OpenEnd,
    Opener, Sink, SocketListener, Source, StreamSink, StreamSource, send_all,
};
use std::alloc::{AllocError, Global};
use std::io::{self, ErrorKind, Read, Write};
use std::net::{Net, Shutdown, SocketAddr, TcpListener, TcpStream};
use std::rt::Files;
use std::test::Fail;
use std::time::Duration;
use std::{fs, process};

/// What reads into room for seven bytes give: each piece with `|` behind it, and `!` for a failed read.
fn pieces_of<S: Source>(alloc: Global, source: &mut S) -> Result<Vec<u8>, AllocError> {
    let mut pieces = Vec::new(alloc);
    for _ in 0..32 {
        let mut room = [0; 7];
        match source.read(&mut room) {
            Ok(0) => break,
            Ok(count) => {
                pieces.extend_from_slice(&room[..count])?;
                pieces.push(b'|')?;
            }
            Err(Failed) => pieces.push(b'!')?,
        }
    }
    Ok(pieces)
}

/// Opens the name and gives the source back: what it gave, or `missing` or `failed`.
fn pieces_at<O: Opener>(alloc: Global, opener: &mut O, name: &str) -> Result<Vec<u8>, AllocError> {
    match opener.open(name) {
        Ok(mut source) => {
            let pieces = pieces_of(alloc, &mut source);
            opener.done(source);
            pieces
        }
        Err(OpenEnd::Missing) => Vec::from_slice(alloc, b"missing"),
        Err(OpenEnd::Failed) => Vec::from_slice(alloc, b"failed"),
    }
}

/// What the names give, one behind another.
fn pieces_at_all<O: Opener>(
    alloc: Global,
    opener: &mut O,
    names: &[&str],
) -> Result<Vec<u8>, AllocError> {
    let mut all = Vec::new(alloc);
    for name in names {
        let pieces = pieces_at(alloc, opener, name)?;
        all.extend_from_slice(&pieces)?;
        all.push(b'/')?;
    }
    Ok(all)
}

/// A file whose second read fails.
fn file(alloc: Global, name: &str, bytes: &str) -> Result<(String, Vec<u8>, Vec<u64>), AllocError> {
    let failing = Vec::from_slice(alloc, &[2])?;
    let content = Vec::from_slice(alloc, bytes.as_bytes())?;
    Ok((String::from_str(alloc, name)?, content, failing))
}

/// An opener of three files, two of one name, whose third opening fails.
fn opener(alloc: Global) -> Result<MemoryOpener, AllocError> {
    let mut files = Vec::new(alloc);
    for (name, bytes) in [("a", "first"), ("b", "all of b"), ("a", "second")] {
        files.push(file(alloc, name, bytes)?)?;
    }
    Ok(MemoryOpener::new(alloc, files, Vec::from_slice(alloc, &[3])?))
}

#[test]
fn memory_openers_open_with_ample_memory(rt: HostRuntime) -> Result<(), Fail> {
    let mut opener = opener(rt.alloc())?;
    let all = pieces_at_all(rt.alloc(), &mut opener, &["a", "b", "a", "c", "a"])?;
    assert_eq!(rt;
        all.as_slice(),
        b"first|!/all of |!b|/failed/missing/first|!/".as_slice()
    );
    assert_eq!(rt; (opener.misses(), opener.faults()), (1, 4));
    Ok(())
}

/// What a file of ten bytes gives, and a path that is not there, and one that no file has.
fn pieces_at_paths<R: Files>(
    alloc: Global,
    opener: &mut FileOpener<R>,
    path: &str,
) -> Result<Vec<u8>, AllocError> {
    pieces_at_all(
        alloc,
        opener,
        &[path, "/tmp/outer_ends/none", "nul \0 byte"],
    )
}

#[test]
fn files_open_by_path(rt: HostRuntime) -> Result<(), Fail> {
    let path = format!(in rt.alloc(); "/tmp/outer_ends_{}", process::id(rt.process()))?;
    fs::write(&rt, path.as_str(), b"ten bytes.".as_slice())?;
    let mut opener = FileOpener::new(&rt);
    let all = pieces_at_paths(rt.alloc(), &mut opener, path.as_str());
    let removed = fs::remove_file(&rt, path.as_str());
    assert!(rt; removed.is_ok());
    assert_eq!(rt; all?.as_slice(), b"ten byt|es.|/missing/failed/".as_slice());
    assert_eq!(rt; (opener.misses(), opener.faults()), (1, 1));
    Ok(())
}

/// Reads or writes at most three bytes in one call, and fails in its second call.
#[derive(Drop)]
struct Short<T> {
    inner: T,
    calls: u8,
}

impl<T> Short<T> {
    fn is_next_failing(&mut self) -> bool {
        self.calls = self.calls.saturating_add(1);
        self.calls == 2
    }
}

impl<R: Read> Read for Short<R> {
    fn read(&mut self, room: &mut [u8]) -> io::Result<usize> {
        if self.is_next_failing() {
            return Err(io::Error::from(ErrorKind::Interrupted));
        }
        let count = room.len().min(3);
        self.inner.read(&mut room[..count])
    }
}

impl<W: Write> Write for Short<W> {
    fn write(&mut self, piece: &[u8]) -> io::Result<usize> {
        if self.is_next_failing() {
            return Ok(0);
        }
        self.inner.write(&piece[..piece.len().min(3)])
    }

    fn flush(&mut self) -> io::Result<()> {
        self.inner.flush()
    }
}

#[test]
fn stream_sources_pass_bytes_on(rt: HostRuntime) -> Result<(), Fail> {
    let inner = b"ten bytes.".as_slice();
    let mut short = StreamSource::new(Short { inner, calls: 0 });
    let pieces = pieces_of(rt.alloc(), &mut short)?;
    assert_eq!(rt; pieces.as_slice(), b"ten|! by|tes|.|".as_slice());
    assert_eq!(rt; short.faults(), 1);
    Ok(())
}

/// Whether ten bytes go out in pieces of three, and a write of nothing is no fault.
fn sends_whole(alloc: Global) -> bool {
    let inner = Vec::new(alloc);
    let mut sink = StreamSink::new(Short { inner, calls: 2 });
    send_all(b"ten bytes.", &mut sink).is_ok()
        && sink.write(b"") == Ok(0)
        && sink.faults() == 0
        && sink.into_inner().inner.as_slice() == b"ten bytes.".as_slice()
}

/// Whether a write that takes nothing ends them, as a fault.
fn sends_front(alloc: Global) -> bool {
    let inner = Vec::new(alloc);
    let mut sink = StreamSink::new(Short { inner, calls: 0 });
    send_all(b"ten bytes.", &mut sink).is_err()
        && sink.faults() == 1
        && sink.into_inner().inner.as_slice() == b"ten".as_slice()
}

#[test]
fn stream_sinks_pass_bytes_on(rt: HostRuntime) {
    assert!(rt; sends_whole(rt.alloc()));
    assert!(rt; sends_front(rt.alloc()));
}

/// Accepts a connection, sends back what it brings, and gives it back: whether it ended without a fault.
fn echo<L: Listener>(listener: &mut L) -> Option<bool> {
    let Ok((mut source, mut sink)) = listener.accept() else {
        return None;
    };
    let mut room = [0; 7];
    let mut is_good = true;
    for _ in 0..32 {
        match source.read(&mut room) {
            Ok(0) => break,
            Ok(count) => is_good = is_good && send_all(&room[..count], &mut sink).is_ok(),
            Err(Failed) => is_good = false,
        }
        if !is_good {
            break;
        }
    }
    listener.done(source, sink);
    Some(is_good)
}

/// A listener of one connection, of which the first call fails.
fn listener(alloc: Global) -> Result<MemoryListener, AllocError> {
    let bytes = Vec::from_slice(alloc, b"ten bytes.")?;
    let source = MemorySource::new(bytes, 4, Vec::new(alloc));
    let sink = MemorySink::new(alloc, Vec::new(alloc));
    let mut connections = Vec::new(alloc);
    connections.push((source, sink))?;
    Ok(MemoryListener::new(alloc, connections, Vec::from_slice(alloc, &[1])?))
}

/// Whether the one connection that came back was sent these bytes.
fn was_sent(listener: &MemoryListener, bytes: &[u8]) -> bool {
    match listener.closed() {
        [(_, sink)] => sink.written() == bytes,
        _ => false,
    }
}

#[test]
fn memory_listeners_accept_with_ample_memory(rt: HostRuntime) -> Result<(), Fail> {
    let mut listener = listener(rt.alloc())?;
    let ends = (
        echo(&mut listener),
        echo(&mut listener),
        echo(&mut listener),
    );
    assert_eq!(rt; ends, (None, Some(true), None));
    assert!(rt; was_sent(&listener, b"ten bytes."));
    assert_eq!(rt; listener.faults(), 2);
    Ok(())
}

/// Connects, and sends the bytes and that no more comes, unless there are none.
fn client<R: Net<Stream = TcpStream>>(
    rt: &R,
    address: SocketAddr,
    bytes: &[u8],
) -> io::Result<TcpStream> {
    let mut stream = TcpStream::connect(rt, address)?;
    if !bytes.is_empty() {
        stream.write_all(bytes)?;
        stream.shutdown(Shutdown::Write)?;
    }
    Ok(stream)
}

#[test]
fn sockets_pass_bytes_on(rt: HostRuntime) -> Result<(), Fail> {
    let inner = TcpListener::bind(&rt, "127.0.0.1:0")?;
    let address = inner.local_addr()?;
    let mut listener = SocketListener::new(&rt, inner, Duration::from_millis(200));
    let mut stream = client(&rt, address, b"ten bytes.")?;
    assert_eq!(rt; echo(&mut listener), Some(true));
    let mut all = Vec::new(rt.alloc());
    stream.read_to_end(&mut all)?;
    assert_eq!(rt; all.as_slice(), b"ten bytes.".as_slice());
    Ok(())
}

#[test]
fn a_silent_client_is_a_fault(rt: HostRuntime) -> Result<(), Fail> {
    let inner = TcpListener::bind(&rt, "127.0.0.1:0")?;
    let address = inner.local_addr()?;
    let mut listener = SocketListener::new(&rt, inner, Duration::from_millis(200));
    let silent = client(&rt, address, b"")?;
    assert_eq!(rt; echo(&mut listener), Some(false));
    drop(silent);
    Ok(())
}
