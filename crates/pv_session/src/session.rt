//! A session on a document.

ghost use Rattle.std.specs.Prelude.{◌≡◌, ◌≤◌, ◌<◌, ◌+◌, None, IfErr, IfOk, MatchOption, OnOk};
ghost use Rattle.std.specs.Prelude.{length, vec_capacity, vec_len};
ghost use Rattle.std.specs.List.{AllByRecursion};
ghost use Rattle.pv_cache.specs.AcceptedEdits.{MAX_EDITED_NODES};
ghost use Rattle.pv_cache.specs.JudgedMoves.{CountsEdit};
ghost use Rattle.pv_cache.specs.Moves.{HasBad, HasOpen};
ghost use Rattle.pv_cache.specs.Rows.{AreRows, IsVerdictAt, TellVerdicts};
ghost use Rattle.pv_cache.specs.Stamps.{stamps_of};
ghost use Rattle.pv_cache.specs.WellMarked.{IsWellMarked};
ghost use Rattle.pv_edit.specs.ChangedLists.{changed_lists, makes};
ghost use Rattle.pv_missing.specs.Verdicts.{HaveVerdicts};
ghost use Rattle.pv_missing.specs.Widths.{IsListForVerdict};
ghost use Rattle.pv_productive.specs.PlainForms.{dtd_of};
ghost use Rattle.pv_session.specs.Answers.{back_answer, edit_answer};
ghost use Rattle.pv_session.specs.SessionFacts.{IsSession};
ghost use Rattle.pv_session.specs.Sessions.{session_on, next_move, stamped_document};
ghost use Rattle.pv_session.specs.Steps.{IsEditStep, IsRedoStep, IsUndoStep};
ghost use Rattle.pv_session.specs.declared.answers.BackAnswer.TheVariants.{NoHistory};
ghost use Rattle.pv_tree.specs.Lists.{lists_of};
ghost use Rattle.pv_tree.specs.Marks.{unmarked_doc};
ghost use Rattle.pv_tree.specs.Places.{list_at};
ghost use Rattle.pv_tree.specs.Plain.{nodes_in};
ghost use Rattle.pv_tree.specs.PlainDocs.{plain_doc};

use crate::answers::BackAnswer;
use pv_cache::laws::{accepted_law, other_marks_law};
use pv_cache::{Marked, PlannedGrammar};
use pv_chars::{Bytes, NoMemory};
use pv_edit::laws::leads_back_law;
use pv_edit::{Ask, Done, Edit, EditAnswer, Inverse, VerdictRows};
use pv_missing::Verdicts;
use pv_productive::Grammar;
use pv_steps::Steps;
use pv_tree::{Doc, Path, Verdict};
use std::alloc::Global;
use std::marker::Model;
use std::sync::ledger::Ledger;

/// A document under edits that leave no more of its lists impossible than before.
///
/// ```rust
/// // as test_lists begins its games
/// let dtd = read_dtd(alloc, b"<!ELEMENT doc (head)><!ELEMENT head (#PCDATA)>")?;
/// let grammar = build(alloc, dtd)?;
/// let doc = read_doc(alloc, b"<doc>Hello</doc>", b"doc")?;
/// let verdicts = check_doc(alloc, &grammar, b"doc", &doc, &mut steps)?;
/// let root = bytes_of(alloc, b"doc")?;
/// let mut session = Session::begin(alloc, grammar, root, doc, verdicts)?;
/// assert!(rt; session.open_count() == 1 && session.root() == b"doc".as_slice());
/// let path = Path::new(alloc, &[0])?;
/// let edit = Edit::Wrap { path, from: 0, to: 1, name: bytes_of(alloc, b"head")? };
/// assert!(rt; matches!(session.edit(&edit, &mut steps), Ok(done) if done.left == 0));
/// assert!(rt; session.doc().nodes() == 3 && session.history().len() == 1);
/// let at_head = Path::new(alloc, &[0, 0])?;
/// assert!(rt; session.verdict_at(&at_head) == Some(Verdict::Valid));
/// assert!(rt; session.verdict_rows()?.as_slice().len() == 3 && session.verdicts()?.len() == 3);
/// // no other name of the root leads to a valid document
/// let edit = Edit::Rename { path: Path::new(alloc, &[0])?, name: bytes_of(alloc, b"head")? };
/// assert!(rt; matches!(session.edit(&edit, &mut steps), Err(EditAnswer::Impossible(_))));
/// assert!(rt; session.undo(&mut steps).is_ok() && session.open_count() == 1);
/// assert!(rt; matches!(session.undo(&mut steps), Err(BackAnswer::NoHistory)));
/// assert!(rt; session.redo(&mut steps).is_ok() && session.bad_count() == 0);
/// ```
#[derive(Drop)]
pub struct Session {
    alloc: Global,
    marked: Marked,
    // The edits, undos and redos so far.
    moves: u64,
    past: Vec<Edit>,
    // What undoes each edit of the past.
    ways_back: Vec<Inverse>,
    undone: Vec<Edit>,
}

impl Model for Session {
    ghost use Rattle.pv_session.specs.Sessions.{PlainSession};
    ghost use Rattle.pv_session.specs.Codes.{session_code};

    ghost Value = { PlainSession };

    ghost coded = { session_code };

    ghost use Rattle.pv_session.specs.PlainForms.{Keeps, plain_session};

    ghost view = { plain_session };

    ghost invariant = { Keeps };
}

impl Session {
    /// The session on a document as it was opened. The verdicts are those of its lists; the
    /// document isn't copied. The call lays out the rules of the grammar; who has them laid out
    /// calls `begin_by`.
    ///
    /// See `Session`, whose example begins one.
    pub fn begin(
        alloc: Global,
        grammar: Grammar,
        root: Bytes,
        doc: Doc,
        verdicts: Verdicts,
    ) -> Result<Session, NoMemory>
        requires verdicts { HaveVerdicts (dtd_of grammar) root (lists_of (plain_doc doc)) verdicts }
        requires narrow { AllByRecursion (IsListForVerdict (dtd_of grammar))
            (lists_of (plain_doc doc)) }
        requires few { nodes_in (plain_doc doc).root ≤ MAX_EDITED_NODES }
        ensures { IfOk result (λ session. session
            ≡ session_on (dtd_of grammar) root (unmarked_doc (plain_doc doc))) }
    {
        let grammar = PlannedGrammar::of(alloc, grammar)?;
        Ok(Session::begin_by(alloc, grammar, root, doc, verdicts))
    }

    /// The session on a document as it was opened, by a grammar whose rules are laid out.
    ///
    /// `begin` calls it once it has laid the rules out.
    ///
    /// ```rust
    /// let dtd = read_dtd(alloc, b"<!ELEMENT doc (head)><!ELEMENT head (#PCDATA)>")?;
    /// let grammar = build(alloc, dtd)?;
    /// let doc = read_doc(alloc, b"<doc>Hello</doc>", b"doc")?;
    /// let verdicts = check_doc(alloc, &grammar, b"doc", &doc, &mut steps)?;
    /// let planned = PlannedGrammar::of(alloc, grammar)?;
    /// let root = bytes_of(alloc, b"doc")?;
    /// let session = Session::begin_by(alloc, planned, root, doc, verdicts);
    /// assert!(rt; session.open_count() == 1 && session.history().is_empty());
    /// ```
    pub fn begin_by(
        alloc: Global,
        grammar: PlannedGrammar,
        root: Bytes,
        doc: Doc,
        verdicts: Verdicts,
    ) -> Session
        requires verdicts { HaveVerdicts grammar root (lists_of (plain_doc doc)) verdicts }
        requires narrow { AllByRecursion (IsListForVerdict grammar) (lists_of (plain_doc doc)) }
        requires few { nodes_in (plain_doc doc).root ≤ MAX_EDITED_NODES }
        ensures { result ≡ session_on grammar root (unmarked_doc (plain_doc doc)) }
    {
        let marked = Marked::build_by(alloc, grammar, root, doc, verdicts);
        marked.holdable_law();
        Session {
            alloc,
            marked,
            moves: 0,
            past: Vec::new(alloc),
            ways_back: Vec::new(alloc),
            undone: Vec::new(alloc),
        }
    }

    /// Looks up what the names that an edit is asked of are tried by, and keeps it with the
    /// document: then each is tried in less time. No answer depends on it.
    ///
    /// As before each `offer` of a script (test_rows, `scripts`).
    pub fn keep_for(&mut self, ask: &Ask)
        ensures { self.new ≡ self.old }
    {
        self.marked.keep_for(ask)
    }

    /// Makes an edit, where it is accepted. After a refusal the session is as it was.
    ///
    /// Without memory the document is as it was. At most two lists are checked.
    ///
    /// On test_fixture's REALISTIC `wrap 0.3 0 3 p` checks two lists and leaves one Possible, and
    /// `wrap 0.3 1 2 head` is refused (test_lists, `a_realistic_document`).
    pub fn edit<L: Ledger>(&mut self, edit: &Edit, steps: &mut Steps<L>) -> Result<Done, EditAnswer>
        ensures stepped { MatchOption (edit_answer result) (self.new ≡ self.old)
            (λ answer. IsEditStep self.old edit.now answer self.new) }
        ensures each { CountsEdit (length (changed_lists (makes edit.now))) steps.old steps.new
            result }
        ensures steps { steps.new ≤ steps.old + 2 }
        ensures later { steps.old ≤ steps.new }
    {
        leads_back_law::<()>();
        other_marks_law::<u64, ()>();
        if make_room(&mut self.past, &mut self.ways_back).is_err() {
            return Err(EditAnswer::NoMemory);
        }
        let Ok(made) = edit.copy(self.alloc) else {
            return Err(EditAnswer::NoMemory);
        };
        let moves = next_move(self.moves);
        let (done, way_back) = self.marked.edit(edit, moves, steps)?;
        self.marked.holdable_law();
        self.moves = moves;
        self.past.push_reserved(made);
        self.ways_back.push_reserved(way_back);
        self.undone.clear();
        Ok(done)
    }

    /// Takes the last edit of the past back, and keeps it for `redo`. At most two lists are
    /// checked.
    ///
    /// After `rename 0.3.2 list`, which leaves one list Possible, it checks two lists and leaves
    /// none Possible (test_lists, `a_realistic_document`).
    pub fn undo<L: Ledger>(&mut self, steps: &mut Steps<L>) -> Result<Done, BackAnswer>
        ensures stepped { MatchOption (back_answer result) (self.new ≡ self.old)
            (λ answer. IsUndoStep self.old answer self.new) }
        ensures each { IfOk result (λ done. steps.new ≡ steps.old + done.checked) }
        ensures none { IfErr result (λ why. why ≡ NoHistory → steps.new ≡ steps.old) }
        ensures steps { steps.new ≤ steps.old + 2 }
        ensures later { steps.old ≤ steps.new }
    {
        leads_back_law::<()>();
        other_marks_law::<u64, ()>();
        let Some(way_back) = self.ways_back.last() else {
            return Err(BackAnswer::NoHistory);
        };
        if self.undone.reserve(1).is_err() {
            return Err(BackAnswer::NoMemory);
        }
        let moves = next_move(self.moves);
        let Ok(done) = self.marked.revert(way_back, moves, steps) else {
            return Err(BackAnswer::NoMemory);
        };
        self.marked.holdable_law();
        let Some(edit) = self.past.pop() else {
            unreachable!()
        };
        self.ways_back.pop();
        self.moves = moves;
        self.undone.push_reserved(edit);
        Ok(done)
    }

    /// Makes the last undone edit again. At most two lists are checked.
    ///
    /// With `wrap 0.3 0 3 p` undone first, it checks two lists and leaves one Possible, as the edit
    /// did (test_lists, `a_realistic_document`).
    pub fn redo<L: Ledger>(&mut self, steps: &mut Steps<L>) -> Result<Done, BackAnswer>
        ensures stepped { MatchOption (back_answer result) (self.new ≡ self.old)
            (λ answer. IsRedoStep self.old answer self.new) }
        ensures each { IfOk result (λ done. steps.new ≡ steps.old + done.checked) }
        ensures none { IfErr result (λ why. why ≡ NoHistory → steps.new ≡ steps.old) }
        ensures steps { steps.new ≤ steps.old + 2 }
        ensures later { steps.old ≤ steps.new }
    {
        leads_back_law::<()>();
        other_marks_law::<u64, ()>();
        accepted_law::<(), u64>();
        if self.undone.is_empty() {
            return Err(BackAnswer::NoHistory);
        }
        if make_room(&mut self.past, &mut self.ways_back).is_err() {
            return Err(BackAnswer::NoMemory);
        }
        let Some(edit) = self.undone.last() else {
            unreachable!()
        };
        let moves = next_move(self.moves);
        let (done, way_back) = match self.marked.edit(edit, moves, steps) {
            Ok(made) => made,
            Err(EditAnswer::NoMemory) => return Err(BackAnswer::NoMemory),
            Err(EditAnswer::Shape(_)) => unreachable!(),
            Err(EditAnswer::Limit) => unreachable!(),
            Err(EditAnswer::Impossible(_)) => unreachable!(),
        };
        self.marked.holdable_law();
        let Some(edit) = self.undone.pop() else {
            unreachable!()
        };
        self.moves = moves;
        self.past.push_reserved(edit);
        self.ways_back.push_reserved(way_back);
        Ok(done)
    }

    /// The edits since the document was opened, but for those that are undone, the oldest first.
    ///
    /// After `split 0.0 2` and `wrap 0 0 1 head` these two (test_rows, `scripts`).
    pub fn history(&self) -> &[Edit]
        ensures { result.now ≡ self.now.past }
    {
        self.past.as_slice()
    }

    /// The document as it is now, by which it can be asked what edits would be accepted.
    ///
    /// `offer` of pv_offer asks it which names an element may have.
    pub fn marked(&self) -> &Marked
        ensures { result.now ≡ stamped_document self.now }
    {
        &self.marked
    }

    /// The document as it is now; its marks tell the verdicts of its lists.
    ///
    /// After `wrap 0 0 1 head`, on `<doc>Hello</doc>`, it is `<doc><head>Hello</head></doc>`.
    pub fn doc(&self) -> &Doc
        ensures doc { stamps_of (plain_doc result.now) ≡ self.now.doc }
        ensures marked { ∥ IsWellMarked self.now.dtd self.now.root (plain_doc result.now) ∥₁ }
    {
        self.marked.doc()
    }

    /// The name that the document's root must have.
    ///
    /// That of a document `<doc>Hello</doc>` is `doc`.
    pub fn root(&self) -> &[u8]
        ensures { result.now ≡ self.now.root }
    {
        self.marked.root()
    }

    /// The grammar that edits are judged by.
    ///
    /// It is the one that the session began with.
    pub fn grammar(&self) -> &Grammar
        ensures { dtd_of result.now ≡ self.now.dtd }
    {
        self.marked.grammar()
    }

    /// How many lists of the document are Possible.
    ///
    /// On `<doc>Hello</doc>`, whose `doc` needs a `head`, 1; after `wrap 0 0 1 head` 0.
    pub fn open_count(&self) -> u64
        ensures { HasOpen (stamped_document self.now) result }
    {
        self.marked.open_count()
    }

    /// How many lists of the document are Impossible.
    ///
    /// On `<doc><sec/><head/></doc>`, where a `head` has to come first, 1.
    pub fn bad_count(&self) -> u64
        ensures { HasBad (stamped_document self.now) result }
    {
        self.marked.bad_count()
    }

    /// The verdict of the list at a path; none where no list stands there.
    ///
    /// On `<doc>Hello</doc>` Possible at `[0]`, and none at `[0, 0]`, where a text stands.
    pub fn verdict_at(&self, path: &Path) -> Option<Verdict>
        ensures { MatchOption result (list_at path.now self.now.doc.root ≡ None)
            (IsVerdictAt self.now.dtd self.now.root self.now.doc path.now) }
    {
        self.marked.verdict_at(path)
    }

    /// The path, the verdict and the stamp of each list, in document order.
    ///
    /// After `split 0.0 2` and `wrap 0 0 1 head` the verdicts and stamps are Valid 0 at `[]`,
    /// Possible 2 at `[0]` and Valid 2 at `[0, 0]` (test_rows, `scripts`).
    pub fn verdict_rows(&self) -> Result<VerdictRows, NoMemory>
        ensures { IfOk result (AreRows (stamped_document self.now)) }
    {
        self.marked.verdict_rows()
    }

    /// The verdicts of all its lists, in document order, and the path of the first Impossible one.
    ///
    /// On `<doc><sec/><head/></doc>` the path of the first Impossible list is `[0]`.
    pub fn verdicts(&self) -> Result<Verdicts, NoMemory>
        ensures { IfOk result (TellVerdicts (stamped_document self.now)) }
    {
        self.marked.verdicts()
    }

    // What it keeps.
    pub(crate) fn invariant_law(&self)
        ensures { IsSession self.now }
    {
        leads_back_law::<()>();
        other_marks_law::<u64, ()>();
        let _marked = &self.marked;
    }
}

// The number of the next move.
fn next_move(moves: u64) -> u64
    ensures { result ≡ next_move moves }
{
    moves.saturating_add(1)
}

// Room for one more edit in the past.
fn make_room(past: &mut Vec<Edit>, ways_back: &mut Vec<Inverse>) -> Result<(), NoMemory>
    ensures past { past.new.items ≡ past.old.items }
    ensures ways_back { ways_back.new.items ≡ ways_back.old.items }
    ensures room { OnOk result ((vec_len past.new < vec_capacity past.new)
        × (vec_len ways_back.new < vec_capacity ways_back.new)) }
{
    past.reserve(1)?;
    ways_back.reserve(1)?;
    Ok(())
}
