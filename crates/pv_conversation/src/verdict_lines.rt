//! The reply to `verdicts`, which is written while the tree is walked: of the reply no more is held
//! than the line of one list, and what waits in the buffer.

ghost use Rattle.std.specs.Prelude.{◌≡◌, ◌≤◌, ◌+◌, ◌*◌, ◌++◌, List, [], ℕ, OnErr, OnOk};
ghost use Rattle.std.specs.Prelude.{codes, length, true};
ghost use Rattle.pv_cache.specs.LaidMarks.{lists_in, lists_in_all};
ghost use Rattle.pv_conversation.specs.ReplyBuffer.{HoldsReplies};
ghost use Rattle.pv_conversation.specs.VerdictLines.{IsVerdictsText, mark_text, verdict_line};
ghost use Rattle.pv_conversation.specs.VerdictLines.{verdict_lines, verdict_lines_from};
ghost use Rattle.pv_conversation.specs.VerdictLines.{verdicts_head, verdicts_text};
ghost use Rattle.pv_io.specs.Causes.{AppendsFront, CountsFault};
ghost use Rattle.pv_script.specs.Commands.{SpellsCommand};
ghost use Rattle.pv_tree.specs.Legal.{MAX_NODES};
ghost use Rattle.pv_tree.specs.Plain.{depth_of, depth_of_all, nodes_in, nodes_in_all};
ghost use Rattle.pv_tree.specs.PlainDocs.{plain_doc};
ghost use Rattle.pv_tree.specs.PlainForms.{forest, plain};

use crate::line_room::LineRoom;
use crate::reply_buffer::ReplyBuffer;
use pv_io::{Failed, Sink};
use pv_script::{Command, no_memory_text};
use pv_session::Session;
use pv_tree::{Doc, Mark, Node, Verdict};
use std::alloc::Global;

/// Whether a line is the command `verdicts`.
pub fn asks_verdicts(line: &[u8]) -> bool
    ensures { result ≡ true → SpellsCommand line.now Command.Verdicts }
{
    line == b"verdicts".as_slice()
}

// How many lists a subtree has.
#[cycle(count)]
fn lists_in(node: &Node) -> u64
    requires { nodes_in (plain node.now) ≤ MAX_NODES }
    ensures { result ≡ lists_in (plain node.now) }
{
    match node {
        Node::Elem { kids, .. } => 1 + lists_in_all(kids),
        Node::Text(_) => 0,
        Node::Cdata(_) => 0,
        Node::Misc(_) => 0,
    }
}

// How many lists nodes side by side have.
#[cycle(count)]
fn lists_in_all(kids: &[Node]) -> u64
    requires { nodes_in_all (forest kids.now) ≤ MAX_NODES }
    ensures { result ≡ lists_in_all (forest kids.now) }
{
    let mut count = 0;
    for kid in kids {
        count += lists_in(kid);
    }
    count
}

// Appends what is known of a list after its path.
fn append_mark(line: &mut LineRoom, mark: &Mark)
    requires { length line.old + 64 ≤ 16384 }
    ensures { line.new ≡ line.old ++ mark_text mark.now }
{
    match mark.verdict {
        Verdict::Valid => line.append(b" valid "),
        Verdict::Possible => line.append(b" possible "),
        Verdict::Impossible => line.append(b" impossible "),
    }
    line.append_number(mark.stamp);
    line.append(b"\n");
}

// Puts the line of a list, whose path the room holds.
fn put_list<K: Sink>(
    mark: &Mark,
    line: &mut LineRoom,
    buffer: &mut ReplyBuffer,
    out: &mut K,
) -> Result<(), Failed>
    requires room { length line.old + 64 ≤ 16384 }
    requires ready { K.ready out.old ≡ true }
    ensures ok { OnOk result (HoldsReplies (K.written out.old) (K.written out.new) buffer.new
        (buffer.old ++ verdict_line line.old mark.now)) }
    ensures err { OnErr result (AppendsFront (K.written out.old) (K.written out.new)
        (buffer.old ++ verdict_line line.old mark.now)) }
    ensures same { line.new ≡ line.old }
    ensures cause { CountsFault (K.faults out.old) (K.faults out.new) result }
    ensures ready { OnOk result (K.ready out.new ≡ true) }
{
    let path = line.size();
    append_mark(line, mark);
    let put = buffer.push(out, line.bytes());
    line.cut(path);
    put
}

// Puts the lines of the lists of a subtree. The room holds the path of its node, and has room for
// the places below it.
#[cycle(put)]
fn put_lists<K: Sink>(
    node: &Node,
    line: &mut LineRoom,
    buffer: &mut ReplyBuffer,
    out: &mut K,
) -> Result<(), Failed>
    requires room { length line.old + 21 * depth_of (plain node.now) + 64 ≤ 16384 }
    requires ready { K.ready out.old ≡ true }
    ensures ok { OnOk result (HoldsReplies (K.written out.old) (K.written out.new) buffer.new
        (buffer.old ++ verdict_lines line.old (plain node.now))) }
    ensures err { OnErr result (AppendsFront (K.written out.old) (K.written out.new)
        (buffer.old ++ verdict_lines line.old (plain node.now))) }
    ensures same { OnOk result (line.new ≡ line.old) }
    ensures cause { CountsFault (K.faults out.old) (K.faults out.new) result }
    ensures ready { OnOk result (K.ready out.new ≡ true) }
{
    let Node::Elem { kids, mark, .. } = node else {
        return Ok(());
    };
    put_list(mark, line, buffer, out)?;
    put_kids(kids, line, buffer, out)
}

// Puts the lines of the lists of nodes side by side. The room holds the path of their list.
#[cycle(put)]
fn put_kids<K: Sink>(
    kids: &[Node],
    line: &mut LineRoom,
    buffer: &mut ReplyBuffer,
    out: &mut K,
) -> Result<(), Failed>
    requires room { length line.old + 21 * depth_of_all (forest kids.now) + 85 ≤ 16384 }
    requires ready { K.ready out.old ≡ true }
    ensures ok { OnOk result (HoldsReplies (K.written out.old) (K.written out.new) buffer.new
        (buffer.old ++ verdict_lines_from line.old 0 (forest kids.now))) }
    ensures err { OnErr result (AppendsFront (K.written out.old) (K.written out.new)
        (buffer.old ++ verdict_lines_from line.old 0 (forest kids.now))) }
    ensures same { OnOk result (line.new ≡ line.old) }
    ensures cause { CountsFault (K.faults out.old) (K.faults out.new) result }
    ensures ready { OnOk result (K.ready out.new ≡ true) }
{
    let path = line.size();
    for (i, kid) in kids.iter().enumerate() {
        line.append(b".");
        line.append_number(i as u64);
        put_lists(kid, line, buffer, out)?;
        line.cut(path);
    }
    Ok(())
}

// Puts the line with the number of lists.
fn put_head<K: Sink>(
    count: u64,
    line: &mut LineRoom,
    buffer: &mut ReplyBuffer,
    out: &mut K,
) -> Result<(), Failed>
    requires empty { line.old ≡ [] }
    requires ready { K.ready out.old ≡ true }
    ensures ok { OnOk result (HoldsReplies (K.written out.old) (K.written out.new) buffer.new
        (buffer.old ++ verdicts_head count)) }
    ensures err { OnErr result (AppendsFront (K.written out.old) (K.written out.new)
        (buffer.old ++ verdicts_head count)) }
    ensures empty { line.new ≡ [] }
    ensures cause { CountsFault (K.faults out.old) (K.faults out.new) result }
    ensures ready { OnOk result (K.ready out.new ≡ true) }
{
    line.append(b"verdicts ");
    line.append_number(count);
    line.append(b"\n");
    let put = buffer.push(out, line.bytes());
    line.cut(0);
    put
}

// Puts the line of the document node's list.
fn put_top<K: Sink>(
    mark: &Mark,
    line: &mut LineRoom,
    buffer: &mut ReplyBuffer,
    out: &mut K,
) -> Result<(), Failed>
    requires empty { line.old ≡ [] }
    requires ready { K.ready out.old ≡ true }
    ensures ok { OnOk result (HoldsReplies (K.written out.old) (K.written out.new) buffer.new
        (buffer.old ++ verdict_line (codes ".") mark.now)) }
    ensures err { OnErr result (AppendsFront (K.written out.old) (K.written out.new)
        (buffer.old ++ verdict_line (codes ".") mark.now)) }
    ensures empty { line.new ≡ [] }
    ensures cause { CountsFault (K.faults out.old) (K.faults out.new) result }
    ensures ready { OnOk result (K.ready out.new ≡ true) }
{
    line.append(b".");
    let put = put_list(mark, line, buffer, out);
    line.cut(0);
    put
}

// Puts the whole reply.
fn put_all<K: Sink>(
    doc: &Doc,
    line: &mut LineRoom,
    buffer: &mut ReplyBuffer,
    out: &mut K,
) -> Result<(), Failed>
    requires empty { line.old ≡ [] }
    requires ready { K.ready out.old ≡ true }
    ensures ok { OnOk result (HoldsReplies (K.written out.old) (K.written out.new) buffer.new
        (buffer.old ++ verdicts_text (plain_doc doc.now))) }
    ensures err { OnErr result (AppendsFront (K.written out.old) (K.written out.new)
        (buffer.old ++ verdicts_text (plain_doc doc.now))) }
    ensures cause { CountsFault (K.faults out.old) (K.faults out.new) result }
    ensures ready { OnOk result (K.ready out.new ≡ true) }
{
    put_head(1 + lists_in(&doc.root), line, buffer, out)?;
    put_top(&doc.mark, line, buffer, out)?;
    line.append_number(0);
    put_lists(&doc.root, line, buffer, out)
}

/// Puts the reply to `verdicts` after the replies that are held. Where there is no memory for a
/// line, nothing of it is put.
pub fn put_verdicts<K: Sink>(
    alloc: Global,
    session: &Session,
    buffer: &mut ReplyBuffer,
    out: &mut K,
) -> Result<(), Failed>
    requires { K.ready out.old ≡ true }
    ensures ok { OnOk result ((text : List ℕ) × IsVerdictsText session.now text ×
        HoldsReplies (K.written out.old) (K.written out.new) buffer.new (buffer.old ++ text)) }
    ensures err { OnErr result ((text : List ℕ) × IsVerdictsText session.now text ×
        AppendsFront (K.written out.old) (K.written out.new) (buffer.old ++ text)) }
    ensures cause { CountsFault (K.faults out.old) (K.faults out.new) result }
    ensures ready { OnOk result (K.ready out.new ≡ true) }
{
    match LineRoom::new(alloc) {
        Ok(mut line) => put_all(session.doc(), &mut line, buffer, out),
        Err(_) => buffer.push(out, no_memory_text()),
    }
}
