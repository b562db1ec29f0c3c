//! Laws on tags that are left out. Their functions do nothing.

ghost use Rattle.pv_compare.specs.LeftOut.{EventsLeaveOut};

use pv_chars::laws::one_meaning_law;

/// Leaving the tags of marked elements out of events is leaving the elements out of hedges.
pub fn events_leave_out_law()
    ensures { EventsLeaveOut }
{
    one_meaning_law();
}
