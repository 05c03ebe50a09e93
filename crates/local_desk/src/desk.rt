ghost use Rattle.std.specs.Prelude.{◌≡◌, [], IfOk};
ghost use Rattle.commit_core.specs.Standing.{StandsFor, meaning_in};
ghost use Rattle.local_desk.specs.Alone.{StandsForSome};

use crate::answer_alone;
use commit_core::Core;
use history_model::LOG_WINDOW;
use http_messages::Reply;
use ident_rules::NoMemory;
use ordered_pages::Pages;
use std::alloc::Global;
use std::marker::Model;
use task_forms::{Desk, DeskEnd, Task};
use trial_subject::Subject;

/// A desk on a core of its own, which stands for a legal history. Each task is tried on the core as it is and committed. All entries are its own,
/// and have the number 0. Contracts see the core.
#[derive(Drop)]
pub struct LocalDesk<S: Subject + Drop> {
    alloc: Global,
    core: Core<S>,
}

impl<S: Subject + Drop> Model for LocalDesk<S> {
    ghost use Rattle.commit_core.specs.declared.cores.Core.{Core};
    ghost use Rattle.local_desk.specs.Alone.{StandsForSome};

    ghost Value = { Core S };

    ghost view = { λ d. d.core };

    ghost invariant = { λ d. StandsForSome S.kind S.meaning d.core };
}

impl<S: Subject + Drop> LocalDesk<S> {
    /// A desk whose history is empty, from the empty world. Its one error is want of memory.
    pub fn new(alloc: Global, subject: S) -> Result<LocalDesk<S>, NoMemory>
        ensures subject { IfOk result (λ d. d.subject ≡ subject) }
        ensures stands { IfOk result (λ d. StandsFor S.kind S.meaning d 0 (meaning_in S.kind S.meaning d).empty []) }
    {
        let core = Core::new(alloc, subject, Pages::new(alloc), 0, LOG_WINDOW)?;
        Ok(LocalDesk { alloc, core })
    }

    /// A desk on this core.
    pub fn over(alloc: Global, core: Core<S>) -> LocalDesk<S>
        requires stands { StandsForSome S.kind S.meaning core }
        ensures { result ≡ core }
    {
        LocalDesk { alloc, core }
    }
}

impl<S: Subject + Drop> Desk for LocalDesk<S> {
    ghost use Rattle.std.specs.Prelude.{◌≡◌};
    ghost use Rattle.task_forms.specs.DesksAlone.{owns_all, own_alone};
    ghost use Rattle.commit_core.specs.Standing.{StandsFor};

    type Fixed = S::Kind;

    ghost fixed = { λ d. S.kind d.subject };

    ghost meaning = { S.meaning };

    ghost is_own = { λ _. owns_all };

    ghost stands = { λ d first w seen mine. StandsFor S.kind S.meaning d first w seen × (mine ≡ seen) };

    fn answer(&mut self, task: Task) -> Result<Reply, DeskEnd> {
        let entry = match answer_alone(self.alloc, &mut self.core, 0, task) {
            Ok(entry) => entry,
            Err(end) => return Err(end),
        };
        Ok(entry.reply)
    }

    ghost legal = { λ d first w seen mine stands. stands.0.legal };

    ghost own = { λ d first w seen mine stands. own_alone seen mine stands.1 };
}
