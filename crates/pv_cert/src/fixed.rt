//! Calls of this library that the program doesn't make. They stand for other callers.

ghost use Rattle.std.specs.Prelude.{IfErr, IfOk};
ghost use Rattle.pv_cert.specs.Meaning.{Answers, Outcome, PackMeans, Refuses, is_pack};

use crate::errors::PackError;
use crate::packs::Pack;
use crate::reading::take_pack;
use std::alloc::Global;

/// The pack that the bytes are the text of, as `take_pack` gives it of a copy of them.
pub fn read_pack(alloc: Global, bytes: &[u8]) -> Result<Pack, PackError>
    ensures read { IfOk result (λ pack. PackMeans bytes.now (is_pack pack)) }
    ensures refused { IfErr result (λ error. Refuses bytes.now error) }
    ensures exactly { (o : Outcome) → PackMeans bytes.now o → Answers o result }
{
    take_pack(alloc, bytes.to_vec(alloc)?)
}
