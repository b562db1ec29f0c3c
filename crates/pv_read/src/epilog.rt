//! What stands after the root element (XML 1.0, section 2.8).

ghost use Rattle.std.specs.Prelude.{◌≢◌, ◌<◌, ◌+◌, ◌^◌, [], ℕ, List, length, IfOk, IfErr};
ghost use Rattle.pv_tree.specs.Plain.{Tree};
ghost use Rattle.pv_tree.specs.Marks.{blank_mark};
ghost use Rattle.pv_tree.specs.declared.nodes.Mark.{Mark};
ghost use Rattle.pv_read.specs.Left.{in_epilog};
ghost use Rattle.pv_read.specs.Meaning.{DocumentRestMeans};
ghost use Rattle.pv_read.specs.Errors.{Refuses};
ghost use Rattle.pv_read.specs.Epilogs.{EndsDocument};

use crate::errors::DocError;
use crate::faults::next_item;
use crate::places::Place;

/// Whether what stands after the root, which so many items end, may stand there. Elements stand
/// at most so deep, or at any depth.
pub fn read_epilog(
    most_depth: Option<usize>,
    root: &[u8],
    end: &[u8],
    first: u64,
) -> Result<(), DocError>
    requires { first + length end.now < 2 ^ 64 }
    ensures ends { IfOk result (λ _. EndsDocument most_depth root.now first end.now) }
    ensures refused { IfErr result (λ e. (before : List ℕ) (t : Tree Mark) →
        Refuses (DocumentRestMeans most_depth blank_mark root.now first (in_epilog before t [])
        end.now) e) }
    ensures no_want { IfErr result (λ e. e ≢ DocError.NoMemory) }
{
    let mut rest = end;
    let mut count = first;
    'items: while !rest.is_empty() {
        let (_, more) = next_item(most_depth, &Place::Epilog, root, rest, count)?;
        count += 1;
        rest = more;
    }
    Ok(())
}
