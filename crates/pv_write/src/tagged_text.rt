//! The text of a document with tags of new elements in it, as far as it is written.

ghost use Rattle.std.specs.Prelude.{◌≡◌, ◌≤◌, length};

use crate::pieces::Piece;
use pv_chars::NoMemory;
use std::alloc::Global;

/// The text of a document with tags of new elements in it.
#[derive(Drop)]
pub struct TaggedText {
    pub body: Vec<u8>,
    /// The numbers of the new elements in the body, in document order, the root having the number
    /// 0.
    pub marks: Vec<u64>,
}

/// The text so far, the numbers of the new elements, how many elements have begun, and the pieces
/// of the lists that are to come.
#[derive(Drop)]
pub struct Writing<'a> {
    pub body: Vec<u8>,
    pub marks: Vec<u64>,
    begun: u64,
    lists: &'a [Vec<Piece>],
    ghost few: { begun ≤ length body.items },
}

impl<'a> Writing<'a> {
    ghost use Rattle.std.specs.Prelude.{◌≡◌, ◌+◌, ◌++◌, ◌∷◌, [], OnOk, codes};
    ghost use Rattle.pv_write.specs.Events.{new_end, new_start, old_bytes, old_start};
    ghost use Rattle.pv_write.specs.PieceForms.{plain_lists, plain_pieces};
    ghost use Rattle.pv_write.specs.Pieces.{TakesNext};
    ghost use Rattle.pv_write.specs.TaggedTexts.{Appends};
    ghost use Rattle.pv_write.specs.WritingForms.{writing_of};

    /// Nothing so far.
    pub fn new(alloc: Global, lists: &'a [Vec<Piece>]) -> Writing<'a>
        ensures body { result.body.items ≡ [] }
        ensures marks { result.marks.items ≡ [] }
        ensures begun { result.begun ≡ 0 }
        ensures lists { result.lists.now ≡ lists.now }
    {
        Writing {
            body: Vec::new(alloc),
            marks: Vec::new(alloc),
            begun: 0,
            lists,
        }
    }

    /// Takes the pieces of the next list: none where no list is left.
    pub fn take_pieces(&mut self) -> &'a [Piece]
        ensures taken { TakesNext (plain_lists self.old.lists.now) (plain_pieces result.now)
            (plain_lists self.new.lists.now) }
        ensures body { self.new.body ≡ self.old.body }
        ensures marks { self.new.marks ≡ self.old.marks }
        ensures begun { self.new.begun ≡ self.old.begun }
    {
        let Some((pieces, others)) = self.lists.split_first() else {
            return &[];
        };
        self.lists = others;
        pieces.as_slice()
    }

    /// Writes the start tag of a new element.
    pub fn start_new(&mut self, name: &[u8]) -> Result<(), NoMemory>
        ensures written { OnOk result (Appends (writing_of self.old) (writing_of self.new)
            (new_start name.now ∷ [])) }
        ensures lists { self.new.lists ≡ self.old.lists }
    {
        self.marks.push(self.begun)?;
        self.begin()?;
        self.body.extend_from_slice(name)?;
        self.body.push(b'>')?;
        Ok(())
    }

    /// Writes the end tag of a new element.
    pub fn end_new(&mut self, name: &[u8]) -> Result<(), NoMemory>
        ensures written { OnOk result (Appends (writing_of self.old) (writing_of self.new)
            (new_end name.now ∷ [])) }
        ensures lists { self.new.lists ≡ self.old.lists }
    {
        self.body.extend_from_slice(b"</")?;
        self.body.extend_from_slice(name)?;
        self.body.push(b'>')?;
        Ok(())
    }

    /// Writes the tag that an element of the document begins with; `close` is its `>` or `/>`.
    pub fn start_old(&mut self, name: &[u8], attrs: &[u8], close: &[u8]) -> Result<(), NoMemory>
        ensures written { OnOk result (Appends (writing_of self.old) (writing_of self.new)
            (old_start (codes "<" ++ name.now ++ attrs.now ++ close.now) ∷ [])) }
        ensures lists { self.new.lists ≡ self.old.lists }
    {
        self.begin()?;
        self.body.extend_from_slice(name)?;
        self.body.extend_from_slice(attrs)?;
        self.body.extend_from_slice(close)?;
        Ok(())
    }

    /// Writes the end tag of an element of the document.
    pub fn end_old(&mut self, name: &[u8], gap: &[u8]) -> Result<(), NoMemory>
        ensures written { OnOk result (Appends (writing_of self.old) (writing_of self.new)
            (old_bytes (codes "</" ++ name.now ++ gap.now ++ codes ">") ∷ [])) }
        ensures lists { self.new.lists ≡ self.old.lists }
    {
        self.body.extend_from_slice(b"</")?;
        self.body.extend_from_slice(name)?;
        self.body.extend_from_slice(gap)?;
        self.body.push(b'>')?;
        Ok(())
    }

    /// Writes other bytes.
    pub fn bytes(&mut self, bytes: &[u8]) -> Result<(), NoMemory>
        ensures written { OnOk result (Appends (writing_of self.old) (writing_of self.new)
            (old_bytes bytes.now ∷ [])) }
        ensures lists { self.new.lists ≡ self.old.lists }
    {
        self.body.extend_from_slice(bytes)?;
        Ok(())
    }

    // One more element begins, with `<`.
    fn begin(&mut self) -> Result<(), NoMemory>
        ensures begun { OnOk result (self.new.begun ≡ self.old.begun + 1) }
        ensures body { OnOk result (self.new.body.items ≡ self.old.body.items ++ codes "<") }
        ensures marks { self.new.marks ≡ self.old.marks }
        ensures lists { self.new.lists ≡ self.old.lists }
    {
        self.body.push(b'<')?;
        self.begun += 1;
        Ok(())
    }
}
