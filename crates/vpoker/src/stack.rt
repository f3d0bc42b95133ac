//! The stack that a run needs, touched before anything is asked for or read.

ghost use Rattle.std.specs.Prelude.{◌≡◌, true, slice_index};

/// How much stack a run may need below `main`, in bytes. `bench/stack` measures what it does need.
const STACK: usize = 400 * 1024;

/// Touches the stack that a run needs, and says that it is there.
///
/// The system maps a page of the stack at its first touch. Where it cannot, it ends the program by a signal, and no
/// program can answer that. So the pages are touched first: what is refused behind this call has a status.
pub(crate) fn has_stack() -> bool
    ensures { result ≡ true }
{
    let room = [1_u8; STACK];
    first_byte(&room) == 1
}

/// The first byte of a room. It is not inlined, so that the room has to be made.
#[inline(never)]
fn first_byte(room: &[u8; STACK]) -> u8
    ensures { result ≡ slice_index room.now 0 }
{
    room[0]
}
