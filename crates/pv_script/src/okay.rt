//! The reply to a change that was made, and the line of a limit, written with no memory.

ghost use Rattle.std.specs.Prelude.{◌≡◌, ◌+◌, ◌≤◌, ◌++◌, length, take, drop, codes, decimal};
ghost use Rattle.pv_script.specs.Replies.{reply_bytes};
ghost use Rattle.pv_words.specs.Words.{with_feed};
ghost use Rattle.pv_script.specs.declared.replies.Reply.TheVariants as reply;

use itoa::Buffer;
use pv_edit::Done;

// Writes these bytes into the room from a place on; the place after them.
fn put(room: &mut [u8], at: usize, bytes: &[u8]) -> usize
    requires { at + length bytes.now ≤ length room.old }
    ensures end { result ≡ at + length bytes.now }
    ensures before { take result room.new ≡ take at room.old ++ bytes.now }
    ensures behind { drop result room.new ≡ drop result room.old }
{
    let end = at + bytes.len();
    room[at..end].copy_from_slice(bytes);
    end
}

/// Writes the bytes of the reply `ok` at the front of the room, and tells their number. The room
/// after them stays as it was.
pub fn okay_text(done: &Done, room: &mut [u8]) -> usize
    requires { 64 ≤ length room.old }
    ensures within { result ≤ 64 }
    ensures front { take result room.new ≡ reply_bytes (reply.Okay done.now) }
    ensures behind { drop result room.new ≡ drop result room.old }
{
    let mut buffer = Buffer::new();
    let end = put(room, 0, b"ok ");
    let end = put(room, end, buffer.format(done.checked).as_bytes());
    let end = put(room, end, b" ");
    let end = put(room, end, buffer.format(done.left).as_bytes());
    let end = put(room, end, b" ");
    let end = put(room, end, buffer.format(done.bad).as_bytes());
    put(room, end, b"\n")
}

/// Writes a line that says that line number so many is too long at the front of the room, and
/// tells the number of its bytes.
pub fn limit_line_text(number: u64, room: &mut [u8]) -> usize
    requires { 64 ≤ length room.old }
    ensures within { result ≤ 64 }
    ensures front { take result room.new ≡ with_feed (codes "limit line " ++ decimal number) }
{
    let mut buffer = Buffer::new();
    let end = put(room, 0, b"limit line ");
    let end = put(room, end, buffer.format(number).as_bytes());
    put(room, end, b"\n")
}
