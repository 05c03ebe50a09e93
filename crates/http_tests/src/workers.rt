//! Workers over connections in memory, where memory is ample: how they end, what they count, and what was sent on each connection.
ghost use Rattle.std.specs.Prelude.{◌≡◌, All, OnOk};
ghost use Rattle.http_messages.specs.Replies.{bare_reply};
ghost use Rattle.outer_ends.specs.Memory.{IsNew};

use connection_workers::{Cause, WorkerEnd, serve_worker};
use http_messages::{Allow, Content, Message, Reply};
use ident_rules::{Bytes, List, NoMemory};
use outer_ends::{MemoryListener, MemorySink, MemorySource};
use session_engine::Limits;
use std::alloc::Global;
use std::test::Fail;
use task_forms::{Desk, DeskEnd, Plan, Planner, ReplyForm, Task};

/// A reply with no body.
fn bare_reply(alloc: Global, status: u16) -> Reply
    ensures { result ≡ bare_reply status }
{
    Reply {
        status,
        content: Content::Nothing,
        location: None,
        allow: Allow::Nothing,
        body: Bytes::from_vec(Vec::new(alloc)),
    }
}

/// Asks the desk for the target `/`, and finds nothing for others.
struct Chooser;

impl Planner for Chooser {
    ghost use Rattle.std.specs.Prelude.{[], codes, if◌then◌else◌, ⊤};
    ghost use Rattle.std.specs.Str.{bytes_eq};
    ghost use Rattle.http_messages.specs.Replies.{bare_reply};
    ghost use Rattle.task_forms.specs.declared.tasks.Plan.TheVariants.{Fixed, Run};
    ghost use Rattle.task_forms.specs.declared.tasks.Task.TheVariants as task;
    ghost use Rattle.task_forms.specs.declared.tasks.ReplyForm.TheVariants as reply_form;

    ghost planned = { λ _ m. if bytes_eq m.target (codes "/") then Run (task.Change [] reply_form.Empty) else Fixed (bare_reply 404) };

    ghost fit = { λ _ _. ⊤ };

    fn plan(&self, alloc: Global, message: &Message) -> Result<Plan, NoMemory> {
        if message.target.as_str() == "/" {
            Ok(Plan::Run(Task::Change {
                operations: List::from_vec(Vec::new(alloc)),
                form: ReplyForm::Empty,
            }))
        } else {
            Ok(Plan::Fixed(bare_reply(alloc, 404)))
        }
    }
}

/// Answers so many tasks, and is worn then. It promises no history.
#[derive(Drop)]
struct Few {
    alloc: Global,
    answers: u8,
}

impl Desk for Few {
    ghost use Rattle.std.specs.Prelude.{None, true, ⊤};
    ghost use Rattle.http_messages.specs.Replies.{bare_reply};
    ghost use Rattle.world_cells.specs.World.{empty_world};

    type Fixed = u8;

    ghost fixed = { λ _. 0 };

    ghost meaning = { λ _. record {
      cells = λ _ _. None;
      empty = empty_world;
      valid = λ _. ⊤;
      fit = λ _. ⊤;
      answer = λ _ _. bare_reply 204;
      effect = λ w _. w;
      reach = λ _ _ _. true;
    } };

    ghost is_own = { λ _ _. true };

    ghost stands = { λ _ _ _ _ _. ⊥ };

    ghost legal = { λ _ _ _ _ _ h. absurd h };

    ghost own = { λ _ _ _ _ _ h. absurd h };

    fn answer(&mut self, _task: Task) -> Result<Reply, DeskEnd> {
        if self.answers == 0 {
            return Err(DeskEnd::Worn);
        }
        self.answers -= 1;
        Ok(bare_reply(self.alloc, 204))
    }
}

/// A connection: what comes in, and the numbers of the read and of the write that fail, 0 where none does.
#[derive(Clone, Copy)]
struct Client {
    bytes: &'static [u8],
    failing: (u64, u64),
}

/// A worker over three connections.
#[derive(Clone, Copy)]
struct Row {
    clients: [Client; 3],
    /// The number of the accept that fails, 0 where none does.
    failing: u64,
    quota: u8,
    /// The tasks that the desk answers.
    answers: u8,
    end: WorkerEnd,
    /// How what was written begins, on each connection that was given back.
    written: &'static [&'static [u8]],
}

/// Adds a connection that has passed no byte.
fn add(
    alloc: Global,
    connections: &mut Vec<(MemorySource, MemorySink)>,
    client: &Client,
) -> Result<(), NoMemory>
    requires { All IsNew connections.old.items }
    ensures { OnOk result (All IsNew connections.new.items) }
{
    let reads = Vec::from_slice(alloc, &[client.failing.0])?;
    let writes = Vec::from_slice(alloc, &[client.failing.1])?;
    let source = MemorySource::new(Vec::from_slice(alloc, client.bytes)?, 100, reads);
    let sink = MemorySink::new(alloc, writes);
    connections.push((source, sink))?;
    Ok(())
}

/// A listener over these connections.
fn listener(alloc: Global, row: &Row) -> Result<MemoryListener, NoMemory> {
    let mut connections = Vec::new(alloc);
    add(alloc, &mut connections, &row.clients[0])?;
    add(alloc, &mut connections, &row.clients[1])?;
    add(alloc, &mut connections, &row.clients[2])?;
    let failing = Vec::from_slice(alloc, &[row.failing])?;
    Ok(MemoryListener::new(alloc, connections, failing))
}

/// Whether that was written which begins so, and nothing where nothing is to be.
fn begins_so(written: &[u8], front: &[u8]) -> bool {
    written.starts_with(front) && written.is_empty() == front.is_empty()
}

/// Whether on each connection that was given back that was written which begins so.
fn were_sent(closed: &[(MemorySource, MemorySink)], fronts: &[&[u8]]) -> bool {
    let mut all = closed.len() == fronts.len();
    for ((_, sink), front) in closed.iter().zip(fronts) {
        all = all && begins_so(sink.written(), front);
    }
    all
}

/// Whether the worker comes to that.
fn comes_so(alloc: Global, row: &Row) -> Result<bool, NoMemory> {
    let mut listener = listener(alloc, row)?;
    let mut desk = Few {
        alloc,
        answers: row.answers,
    };
    let limits = Limits::standard();
    let quota = u64::from(row.quota);
    let end = serve_worker(alloc, limits, &Chooser, &mut listener, &mut desk, quota);
    Ok(end == row.end && were_sent(listener.closed(), row.written))
}

/// The number of the first row that does not come so.
fn first_wrong(alloc: Global, rows: &[Row]) -> Result<Option<usize>, NoMemory> {
    for (number, row) in rows.iter().enumerate() {
        if !comes_so(alloc, row)? {
            return Ok(Some(number));
        }
    }
    Ok(None)
}

fn sends(bytes: &'static [u8]) -> Client {
    Client {
        bytes,
        failing: (0, 0),
    }
}

fn end(sessions: u64, requests: u64, entries: u64, cause: Cause) -> WorkerEnd {
    WorkerEnd {
        sessions,
        requests,
        entries,
        cause,
    }
}

/// A message that is a task.
const TASK: &[u8] = b"GET / HTTP/1.1\r\nHost: h\r\n\r\n";

/// One that has a fixed reply, and what is refused behind it.
const REFUSED: &[u8] = b"GET /x HTTP/1.1\r\nHost: h\r\n\r\nG(T\r\n\r\n";

fn rows() -> [Row; 6] {
    let task = sends(TASK);
    let refused = sends(REFUSED);
    [
        Row {
            clients: [task, task, task],
            failing: 0,
            quota: 0,
            answers: 9,
            end: end(0, 0, 0, Cause::Quota),
            written: &[],
        },
        Row {
            clients: [task, refused, task],
            failing: 0,
            quota: 2,
            answers: 9,
            end: end(2, 2, 1, Cause::Quota),
            written: &[b"HTTP/1.1 204", b"HTTP/1.1 404"],
        },
        Row {
            clients: [task, task, task],
            failing: 2,
            quota: 3,
            answers: 9,
            end: end(1, 1, 1, Cause::AcceptFault),
            written: &[b"HTTP/1.1 204"],
        },
        Row {
            clients: [task, task, task],
            failing: 0,
            quota: 3,
            answers: 1,
            end: end(2, 1, 1, Cause::Worn),
            written: &[b"HTTP/1.1 204", b"HTTP/1.1 507"],
        },
        // The first reply is not written, though its task was done; the second connection gives nothing.
        Row {
            clients: [
                Client {
                    bytes: TASK,
                    failing: (0, 1),
                },
                Client {
                    bytes: TASK,
                    failing: (1, 0),
                },
                task,
            ],
            failing: 0,
            quota: 3,
            answers: 9,
            end: end(3, 1, 2, Cause::Quota),
            written: &[b"", b"", b"HTTP/1.1 204"],
        },
        // No fourth connection comes.
        Row {
            clients: [refused, refused, sends(b"")],
            failing: 0,
            quota: 4,
            answers: 9,
            end: end(3, 2, 0, Cause::AcceptFault),
            written: &[b"HTTP/1.1 404", b"HTTP/1.1 404", b""],
        },
    ]
}

#[test]
fn workers_end_so(rt: HostRuntime) -> Result<(), Fail> {
    assert_eq!(rt; first_wrong(rt.alloc(), &rows())?, None);
    Ok(())
}
