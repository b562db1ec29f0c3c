//! A session on a document that was opened, and what it remembers of weights.

ghost use Rattle.std.specs.Prelude.{◌≡◌, ◌≤◌, ◌+◌, IfOk, MatchOption, None};
ghost use Rattle.pv_conversation.specs.MissingReplies.{TellsCompletion, TellsNeed};
ghost use Rattle.pv_conversation.specs.Session.{done_of};
ghost use Rattle.pv_session.specs.Answers.{back_answer, edit_answer};
ghost use Rattle.pv_session.specs.Steps.{IsEditStep, IsRedoStep, IsUndoStep};
ghost use Rattle.pv_tree.specs.Prolog.{IsProlog};

use crate::missing::{completion_reply, need_reply};
use pv_chars::NoMemory;
use pv_complete::Remembered;
use pv_edit::{Ask, Done, Edit, EditAnswer};
use pv_script::Reply;
use pv_session::laws::session_law;
use pv_session::{BackAnswer, Session};
use pv_steps::Steps;
use std::alloc::Global;
use std::marker::Model;
use std::sync::ledger::Ledger;

/// A session on a document whose DOCTYPE, where it has one, names the root. No edit changes what
/// stands before the root, so it stays so; a completion is told by it. No move changes the DTD either,
/// so what is remembered of it holds after all moves. Contracts see the session.
#[derive(Drop)]
pub struct OpenedSession {
    session: Session,
    remembered: Remembered,
}

impl Model for OpenedSession {
    ghost use Rattle.pv_session.specs.Sessions.{PlainSession};
    ghost use Rattle.pv_session.specs.Codes.{session_code};
    ghost use Rattle.pv_conversation.specs.OpenedSessions.{KeepsOpened};

    ghost Value = { PlainSession };

    ghost coded = { session_code };

    ghost view = { λ s. s.session };

    ghost invariant = { KeepsOpened };
}

impl OpenedSession {
    /// A session that was begun on such a document.
    pub fn of(alloc: Global, session: Session) -> OpenedSession
        requires { IsProlog session.root session.opened.before }
        ensures { result ≡ session }
    {
        OpenedSession {
            session,
            remembered: Remembered::nothing(alloc),
        }
    }

    /// The session, in whose document a DOCTYPE names the root.
    pub fn session(&self) -> &Session
        ensures same { result.now ≡ self.now }
        ensures prolog { IsProlog result.now.root result.now.doc.before }
    {
        session_law(&self.session);
        &self.session
    }

    /// Looks up what the names that an edit is asked of are tried by, so that each is tried in less
    /// time. No answer depends on it.
    pub fn keep_for(&mut self, ask: &Ask)
        ensures { self.new ≡ self.old }
    {
        self.session.keep_for(ask)
    }

    /// The least number of missing elements, or why it isn't told. Lists that were weighed before
    /// aren't weighed again.
    pub fn need(&mut self, alloc: Global) -> Result<Reply, NoMemory>
        ensures same { self.new ≡ self.old }
        ensures tells { IfOk result (TellsNeed self.old) }
        ensures not_done { IfOk result (λ told. done_of told ≡ None) }
    {
        need_reply(alloc, &self.session, &mut self.remembered)
    }

    /// The document with the missing elements, or why it isn't told. Lists that were completed
    /// before aren't completed again.
    pub fn complete(&mut self, alloc: Global) -> Result<Reply, NoMemory>
        ensures same { self.new ≡ self.old }
        ensures tells { IfOk result (TellsCompletion self.old) }
        ensures not_done { IfOk result (λ told. done_of told ≡ None) }
    {
        session_law(&self.session);
        completion_reply(alloc, &self.session, &mut self.remembered)
    }

    /// Makes an edit, where it is accepted.
    pub fn edit<L: Ledger>(&mut self, edit: &Edit, steps: &mut Steps<L>) -> Result<Done, EditAnswer>
        ensures stepped { MatchOption (edit_answer result) (self.new ≡ self.old)
            (λ answer. IsEditStep self.old edit.now answer self.new) }
        ensures steps { steps.new ≤ steps.old + 2 }
        ensures later { steps.old ≤ steps.new }
    {
        self.session.edit(edit, steps)
    }

    /// Takes the last edit back.
    pub fn undo<L: Ledger>(&mut self, steps: &mut Steps<L>) -> Result<Done, BackAnswer>
        ensures stepped { MatchOption (back_answer result) (self.new ≡ self.old)
            (λ answer. IsUndoStep self.old answer self.new) }
        ensures steps { steps.new ≤ steps.old + 2 }
        ensures later { steps.old ≤ steps.new }
    {
        self.session.undo(steps)
    }

    /// Makes the last undone edit again.
    pub fn redo<L: Ledger>(&mut self, steps: &mut Steps<L>) -> Result<Done, BackAnswer>
        ensures stepped { MatchOption (back_answer result) (self.new ≡ self.old)
            (λ answer. IsRedoStep self.old answer self.new) }
        ensures steps { steps.new ≤ steps.old + 2 }
        ensures later { steps.old ≤ steps.new }
    {
        self.session.redo(steps)
    }
}
