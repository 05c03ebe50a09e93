//! Sessions over ends in memory, where memory is ample: each end that want of memory could come in place of, and faults in
//! mid-stream.
ghost use Rattle.std.specs.Prelude.{◌≡◌};
ghost use Rattle.http_messages.specs.Replies.{bare_reply};

use http_messages::{Allow, Content, Message, Reply};
use ident_rules::{Bytes, List, NoMemory};
use outer_ends::{MemorySink, MemorySource};
use session_engine::{Driven, Limits, SessionEnd, drive_counted};
use std::alloc::Global;
use std::test::Fail;
use task_forms::{Desk, DeskEnd, Plan, Planner, ReplyForm, Task};

/// A reply with no body.
fn bare_reply(alloc: Global, status: u16) -> Reply
    ensures { result ≡ bare_reply status }
{
    Reply {
        status,
        content: Content::Nothing,
        location: None,
        allow: Allow::Nothing,
        body: Bytes::from_vec(Vec::new(alloc)),
    }
}

/// Asks the desk for the target `/`, and finds nothing for others.
struct Chooser;

impl Planner for Chooser {
    ghost use Rattle.std.specs.Prelude.{[], codes, if◌then◌else◌, ⊤};
    ghost use Rattle.std.specs.Str.{bytes_eq};
    ghost use Rattle.http_messages.specs.Replies.{bare_reply};
    ghost use Rattle.task_forms.specs.declared.tasks.Plan.TheVariants.{Fixed, Run};
    ghost use Rattle.task_forms.specs.declared.tasks.Task.TheVariants as task;
    ghost use Rattle.task_forms.specs.declared.tasks.ReplyForm.TheVariants as reply_form;

    ghost planned = { λ _ m. if bytes_eq m.target (codes "/") then Run (task.Change [] reply_form.Empty) else Fixed (bare_reply 404) };

    ghost fit = { λ _ _. ⊤ };

    fn plan(&self, alloc: Global, message: &Message) -> Result<Plan, NoMemory> {
        if message.target.as_str() == "/" {
            Ok(Plan::Run(Task::Change {
                operations: List::from_vec(Vec::new(alloc)),
                form: ReplyForm::Empty,
            }))
        } else {
            Ok(Plan::Fixed(bare_reply(alloc, 404)))
        }
    }
}

/// Answers so many tasks, and then ends so. It promises no history.
#[derive(Drop)]
struct Few {
    alloc: Global,
    answers: u8,
    end: DeskEnd,
}

impl Desk for Few {
    ghost use Rattle.std.specs.Prelude.{None, true, ⊤};
    ghost use Rattle.http_messages.specs.Replies.{bare_reply};
    ghost use Rattle.world_cells.specs.World.{empty_world};

    type Fixed = u8;

    ghost fixed = { λ _. 0 };

    ghost meaning = { λ _. record {
      cells = λ _ _. None;
      empty = empty_world;
      valid = λ _. ⊤;
      fit = λ _. ⊤;
      answer = λ _ _. bare_reply 204;
      effect = λ w _. w;
      reach = λ _ _ _. true;
    } };

    ghost is_own = { λ _ _. true };

    ghost stands = { λ _ _ _ _ _. ⊥ };

    ghost legal = { λ _ _ _ _ _ h. absurd h };

    ghost own = { λ _ _ _ _ _ h. absurd h };

    fn answer(&mut self, _task: Task) -> Result<Reply, DeskEnd> {
        if self.answers == 0 {
            return Err(self.end);
        }
        self.answers -= 1;
        Ok(bare_reply(self.alloc, 204))
    }
}

/// A session and what it comes to.
#[derive(Clone, Copy)]
struct Row {
    /// The input.
    bytes: &'static [u8],
    /// How the desk ends, behind two tasks.
    desk_end: DeskEnd,
    /// The number of the read that fails, and of the write.
    failing: (u64, u64),
    end: SessionEnd,
    answered: u64,
    entries: u64,
    /// What is written.
    text: &'static [u8],
}

/// A row of one message or of none, with no fault and no task.
fn plain(bytes: &'static [u8], end: SessionEnd, answered: u64, text: &'static [u8]) -> Row {
    Row {
        bytes,
        desk_end: DeskEnd::Worn,
        failing: (0, 0),
        end,
        answered,
        entries: 0,
        text,
    }
}

/// Whether the session over that input, read in pieces of 7, comes to it.
fn comes_so(alloc: Global, row: &Row) -> Result<bool, NoMemory> {
    let reads = Vec::from_slice(alloc, &[row.failing.0])?;
    let writes = Vec::from_slice(alloc, &[row.failing.1])?;
    let mut source = MemorySource::new(Vec::from_slice(alloc, row.bytes)?, 7, reads);
    let mut sink = MemorySink::new(alloc, writes);
    let mut desk = Few {
        alloc,
        answers: 2,
        end: row.desk_end,
    };
    let limits = Limits::standard();
    let driven = drive_counted(alloc, limits, &Chooser, &mut source, &mut sink, &mut desk);
    let want = Driven {
        end: row.end,
        answered: row.answered,
        entries: row.entries,
    };
    Ok(driven == want && sink.written() == row.text)
}

/// The number of the first row that does not come so.
fn first_wrong(alloc: Global, rows: &[Row]) -> Result<Option<usize>, NoMemory> {
    for (number, row) in rows.iter().enumerate() {
        if !comes_so(alloc, row)? {
            return Ok(Some(number));
        }
    }
    Ok(None)
}

const MALFORMED: &[u8] =
    b"HTTP/1.1 400 Bad Request\r\nVary: Accept\r\nContent-Type: application/vnd.api+json\r\nContent-Length: 78\r\nConnection: close\r\n\r\n{\"errors\":[{\"code\":\"bad-message\",\"status\":\"400\",\"title\":\"Malformed message\"}]}";

fn fixed_rows() -> [Row; 6] {
    [
        plain(b"", SessionEnd::Closed, 0, b""),
        plain(b"GET /x HT", SessionEnd::CutShort, 0, b""),
        plain(b"G(T", SessionEnd::Refused(400), 0, MALFORMED),
        plain(
            b"POST /x HTTP/1.1\r\nHost: h\r\nTransfer-Encoding: chunked\r\n\r\nx",
            SessionEnd::Refused(400),
            0,
            MALFORMED,
        ),
        plain(
            b"GET /x HTTP/1.1\r\nHost: h\r\n\r\nGET /y HTTP/1.0\r\n\r\nGET /z HTTP/1.0\r\n\r\n",
            SessionEnd::Closed,
            2,
            b"HTTP/1.1 404 Not Found\r\nVary: Accept\r\nContent-Length: 0\r\n\r\nHTTP/1.1 404 Not Found\r\nVary: Accept\r\nContent-Length: 0\r\nConnection: close\r\n\r\n",
        ),
        plain(
            b"POST /x HTTP/1.1\r\nHost: h\r\nExpect: 100-continue\r\nContent-Length: 3\r\n\r\nabc",
            SessionEnd::Closed,
            1,
            b"HTTP/1.1 100 Continue\r\n\r\nHTTP/1.1 404 Not Found\r\nVary: Accept\r\nContent-Length: 0\r\n\r\n",
        ),
    ]
}

#[test]
fn serves_fixed_replies(rt: HostRuntime) -> Result<(), Fail> {
    assert_eq!(rt; first_wrong(rt.alloc(), &fixed_rows())?, None);
    Ok(())
}

const THREE_TASKS: &[u8] =
    b"GET / HTTP/1.1\r\nHost: h\r\n\r\nGET / HTTP/1.1\r\nHost: h\r\n\r\nGET / HTTP/1.1\r\nHost: h\r\n\r\n";

const MIX: &[u8] =
    b"GET /x HTTP/1.1\r\nHost: h\r\n\r\nGET / HTTP/1.1\r\nHost: h\r\n\r\nGET / HTTP/1.1\r\nHost: h\r\nConnection: close\r\n\r\nGET / HTTP/1.1\r\nHost: h\r\n\r\n";

fn task_rows() -> [Row; 6] {
    [
        Row {
            bytes: THREE_TASKS,
            desk_end: DeskEnd::Worn,
            failing: (0, 0),
            end: SessionEnd::Worn,
            answered: 2,
            entries: 2,
            text: b"HTTP/1.1 204 No Content\r\nVary: Accept\r\n\r\nHTTP/1.1 204 No Content\r\nVary: Accept\r\n\r\nHTTP/1.1 507 Insufficient Storage\r\nVary: Accept\r\nContent-Length: 0\r\nConnection: close\r\n\r\n",
        },
        Row {
            bytes: THREE_TASKS,
            desk_end: DeskEnd::NoMemory,
            failing: (0, 0),
            end: SessionEnd::NoMemory,
            answered: 2,
            entries: 2,
            text: b"HTTP/1.1 204 No Content\r\nVary: Accept\r\n\r\nHTTP/1.1 204 No Content\r\nVary: Accept\r\n\r\nHTTP/1.1 503 Service Unavailable\r\nVary: Accept\r\nContent-Length: 0\r\nConnection: close\r\n\r\n",
        },
        Row {
            bytes: MIX,
            desk_end: DeskEnd::Worn,
            failing: (0, 0),
            end: SessionEnd::Closed,
            answered: 3,
            entries: 2,
            text: b"HTTP/1.1 404 Not Found\r\nVary: Accept\r\nContent-Length: 0\r\n\r\nHTTP/1.1 204 No Content\r\nVary: Accept\r\n\r\nHTTP/1.1 204 No Content\r\nVary: Accept\r\nConnection: close\r\n\r\n",
        },
        Row {
            bytes: MIX,
            desk_end: DeskEnd::Worn,
            failing: (0, 1),
            end: SessionEnd::WriteFault,
            answered: 0,
            entries: 0,
            text: b"",
        },
        Row {
            bytes: MIX,
            desk_end: DeskEnd::Worn,
            failing: (0, 2),
            end: SessionEnd::WriteFault,
            answered: 1,
            entries: 1,
            text: b"HTTP/1.1 404 Not Found\r\nVary: Accept\r\nContent-Length: 0\r\n\r\n",
        },
        Row {
            bytes: MIX,
            desk_end: DeskEnd::Worn,
            failing: (5, 0),
            end: SessionEnd::ReadFault,
            answered: 1,
            entries: 0,
            text: b"HTTP/1.1 404 Not Found\r\nVary: Accept\r\nContent-Length: 0\r\n\r\n",
        },
    ]
}

#[test]
fn serves_tasks(rt: HostRuntime) -> Result<(), Fail> {
    assert_eq!(rt; first_wrong(rt.alloc(), &task_rows())?, None);
    Ok(())
}
