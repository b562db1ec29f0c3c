//! Tags of new elements: whether the DTD has their names, and how long they are.

ghost use Rattle.std.specs.Prelude.{OnOk, length, ◌<◌};
ghost use Rattle.std.specs.List.{AllByRecursion};
ghost use Rattle.pv_dtd.specs.PlainForms.{plain_dtd};
ghost use Rattle.pv_write.specs.PieceForms.{plain_lists, plain_piece, plain_pieces};
ghost use Rattle.pv_long.specs.NewTags.{HasNamesOf, HasNameOf};

use crate::errors::MakeError;
use pv_dtd::Dtd;
use pv_flat::MAX_FLAT_BYTES;
use pv_model::NameId;
use pv_write::Piece;

// How long a tag is, by its name and so many bytes around that.
fn tag_bytes(dtd: &Dtd, id: NameId, around: usize) -> Result<usize, MakeError>
    ensures { OnOk result (id.0 < length (plain_dtd dtd.now).names) }
{
    if id.0 < dtd.names() {
        Ok(usize::saturating_add(dtd.name_of(id).len(), around))
    } else {
        Err(MakeError::Unproved)
    }
}

// How long the tag is that a piece puts in.
fn piece_bytes(dtd: &Dtd, piece: Piece) -> Result<usize, MakeError>
    ensures { OnOk result (HasNameOf (plain_dtd dtd.now) (plain_piece piece)) }
{
    match piece {
        Piece::Kept => Ok(0),
        Piece::Start(id) => tag_bytes(dtd, id, 2),
        Piece::End(id) => tag_bytes(dtd, id, 3),
    }
}

// How long a text of so many bytes is with the tags of a list.
fn list_bytes(dtd: &Dtd, pieces: &[Piece], before: usize) -> Result<usize, MakeError>
    ensures { OnOk result (HasNamesOf (plain_dtd dtd.now) (plain_pieces pieces.now)) }
{
    let mut bytes = before;
    for piece in pieces {
        bytes = usize::saturating_add(bytes, piece_bytes(dtd, *piece)?);
    }
    if bytes > MAX_FLAT_BYTES {
        return Err(MakeError::TooMany);
    }
    Ok(bytes)
}

/// Checks that the DTD has the names of all tags, and that a text of so many bytes isn't too long
/// with them.
pub fn check_tags(dtd: &Dtd, lists: &[Vec<Piece>], bytes: usize) -> Result<(), MakeError>
    ensures { OnOk result (AllByRecursion (HasNamesOf (plain_dtd dtd.now)) (plain_lists lists.now)) }
{
    let mut all = bytes;
    for list in lists {
        all = list_bytes(dtd, list.as_slice(), all)?;
    }
    Ok(())
}
