//! A planner that owns its schema.
use http_messages::Message;
use ident_rules::{Bytes, List, NoMemory, Text};
use request_tasks::RequestTasks;
use resource_schema::Schema;
use std::alloc::Global;
use task_forms::{Operation, Plan, Planner, Task};

/// A message without fields.
fn message(alloc: Global, method: &str, target: &str) -> Result<Message, NoMemory> {
    Ok(Message {
        method: Text::from_str(alloc, method)?,
        target: Text::from_str(alloc, target)?,
        minor: 1,
        fields: List::from_vec(Vec::new(alloc)),
        body: Bytes::from_slice(alloc, b"")?,
    })
}

/// What is planned for a message over notes.
fn planned(alloc: Global, method: &str, target: &str) -> Result<Plan, NoMemory> {
    let tasks = RequestTasks::new(alloc, &Schema::notes(alloc)?)?;
    tasks.plan(alloc, &message(alloc, method, target)?)
}

/// A plan in words: the status of a fixed reply, or the task.
fn word_of(plan: &Plan) -> (u16, &'static str) {
    match plan {
        Plan::Fixed(reply) => (reply.status, ""),
        Plan::Run(Task::Fetch(_)) => (0, "fetch"),
        Plan::Run(Task::Change { operations, .. }) => match operations.as_slice() {
            [Operation::Remove { .. }] => (0, "remove"),
            _ => (0, "another operation"),
        },
    }
}

#[test]
fn plans_by_its_own_schema(rt: HostRuntime) {
    let rows = [
        ("DELETE", "/notes/1", (0, "remove")),
        ("GET", "/notes/1", (0, "fetch")),
        ("GET", "/tags/1", (404, "")),
    ];
    for (method, target, wanted) in rows {
        match planned(rt.alloc(), method, target) {
            Ok(plan) => assert_eq!(rt; word_of(&plan), wanted, "{method} {target}"),
            Err(NoMemory) => assert!(rt; false, "no memory"),
        }
    }
}
