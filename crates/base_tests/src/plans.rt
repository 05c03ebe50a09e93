//! The trait of planners can be met.
use http_messages::{Allow, Content, Message, Reply};
use ident_rules::{Bytes, List, NoMemory, Text};
use std::alloc::Global;
use std::test::Fail;
use task_forms::{Plan, Planner};

struct Refuser;

impl Planner for Refuser {
    ghost use Rattle.std.specs.Prelude.{[], None};
    ghost use Rattle.http_messages.specs.declared.messages.Content.TheVariants as content;
    ghost use Rattle.http_messages.specs.declared.messages.Allow.TheVariants as allow;
    ghost use Rattle.task_forms.specs.declared.tasks.Plan.TheVariants.{Fixed};

    ghost planned = { λ _ _. Fixed (record { status = 404; content = content.Nothing; location = None; allow = allow.Nothing; body = [] }) };

    ghost fit = { λ _ _. ⊥ };

    fn plan(&self, alloc: Global, _message: &Message) -> Result<Plan, NoMemory> {
        Ok(Plan::Fixed(Reply {
            status: 404,
            content: Content::Nothing,
            location: None,
            allow: Allow::Nothing,
            body: Bytes::from_vec(Vec::new(alloc)),
        }))
    }
}

fn message(alloc: Global) -> Result<Message, NoMemory> {
    Ok(Message {
        method: Text::from_str(alloc, "GET")?,
        target: Text::from_str(alloc, "/notes")?,
        minor: 1,
        fields: List::from_vec(Vec::new(alloc)),
        body: Bytes::from_vec(Vec::new(alloc)),
    })
}

fn status_of<P: Planner>(planner: &P, alloc: Global) -> Result<u16, NoMemory> {
    match planner.plan(alloc, &message(alloc)?)? {
        Plan::Fixed(reply) => Ok(reply.status),
        Plan::Run(_) => Ok(0),
    }
}

#[test]
fn plans_a_fixed_reply(rt: HostRuntime) -> Result<(), Fail> {
    assert_eq!(rt; status_of(&Refuser, rt.alloc())?, 404);
    Ok(())
}
