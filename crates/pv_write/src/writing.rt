//! Writes a document.

ghost use Rattle.std.specs.Prelude.{◌≡◌, ◌++◌, codes, List, ℕ, IfOk, OnOk};
ghost use Rattle.pv_tree.specs.PlainDocs.{plain_doc};
ghost use Rattle.pv_tree.specs.PlainForms.{plain, forest};
ghost use Rattle.pv_tree.specs.Prolog.{IsProlog};
ghost use Rattle.pv_read.specs.Grammar.{SpellsDocument};
ghost use Rattle.pv_write.specs.Text.{tree_text, forest_text, doc_text};
ghost use Rattle.pv_write.specs.Writes.{SpellsView};

use pv_chars::{Bytes, NoMemory};
use pv_tree::{Doc, End, Node};
use std::alloc::Global;

/// The bytes of a document. Texts side by side are written as one run. The one error is want of
/// memory.
pub fn doc_bytes(alloc: Global, doc: &Doc) -> Result<Vec<u8>, NoMemory>
    ensures text { IfOk result (λ bytes. bytes.items ≡ doc_text (plain_doc doc.now)) }
    ensures read { IfOk result (λ bytes. (root text : List ℕ) →
        SpellsDocument root text (plain_doc doc.now) → bytes.items ≡ text) }
    ensures view { IfOk result (λ bytes. (root : List ℕ) → IsProlog root doc.now.before →
        SpellsView root bytes.items (plain_doc doc.now)) }
{
    let mut out = Vec::new(alloc);
    out.extend_from_slice(doc.before.as_slice())?;
    write_node(&doc.root, &mut out)?;
    out.extend_from_slice(doc.after.as_slice())?;
    Ok(out)
}

#[cycle(writing)]
fn write_node(node: &Node, out: &mut Vec<u8>) -> Result<(), NoMemory>
    ensures { OnOk result (out.new.items ≡ out.old.items ++ tree_text (plain node.now)) }
{
    match node {
        Node::Elem {
            name,
            attrs,
            end,
            kids,
            ..
        } => {
            write_start(name, attrs, out)?;
            match end {
                End::Short => write_bytes(b"/>", out),
                End::Tagged(gap) => {
                    write_bytes(b">", out)?;
                    write_all(kids, out)?;
                    write_end(name, gap, out)
                }
            }
        }
        Node::Text(units) => write_bytes(units.bytes(), out),
        Node::Cdata(bytes) => write_bytes(bytes.as_slice(), out),
        Node::Misc(bytes) => write_bytes(bytes.as_slice(), out),
    }
}

#[cycle(writing)]
fn write_all(nodes: &[Node], out: &mut Vec<u8>) -> Result<(), NoMemory>
    ensures { OnOk result (out.new.items ≡ out.old.items ++ forest_text (forest nodes.now)) }
{
    for node in nodes {
        write_node(node, out)?;
    }
    Ok(())
}

fn write_bytes(bytes: &[u8], out: &mut Vec<u8>) -> Result<(), NoMemory>
    ensures { OnOk result (out.new.items ≡ out.old.items ++ bytes.now) }
{
    out.extend_from_slice(bytes)?;
    Ok(())
}

// A start tag or empty-element tag up to its `>` or `/>`.
fn write_start(name: &Bytes, attrs: &Bytes, out: &mut Vec<u8>) -> Result<(), NoMemory>
    ensures { OnOk result (out.new.items ≡ out.old.items ++ (codes "<" ++ name.now ++ attrs.now)) }
{
    out.push(b'<')?;
    out.extend_from_slice(name.as_slice())?;
    out.extend_from_slice(attrs.as_slice())?;
    Ok(())
}

fn write_end(name: &Bytes, gap: &Bytes, out: &mut Vec<u8>) -> Result<(), NoMemory>
    ensures { OnOk result (out.new.items ≡ out.old.items
        ++ (codes "</" ++ name.now ++ gap.now ++ codes ">")) }
{
    out.extend_from_slice(b"</")?;
    out.extend_from_slice(name.as_slice())?;
    out.extend_from_slice(gap.as_slice())?;
    out.push(b'>')?;
    Ok(())
}
