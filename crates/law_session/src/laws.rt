//! A law on what a session does. Its function does nothing.

ghost use Rattle.law_session.specs.Sessions.{SimpleSessionsAreGuarded};

use pv_io::Source;
use pv_params::laws::unchanged_law;

/// What `GuardsSession` says of a session, it says of one over a DTD in whose file neither `%` nor
/// `<![` stands, which is then the text of the DTD.
pub fn simple_session_law<S: Source>()
    ensures { SimpleSessionsAreGuarded S }
{
    unchanged_law();
}
