//! Texts that are written to a caller's buffer.

ghost use Rattle.std.specs.Prelude.{◌≡◌, length};
ghost use Rattle.date_calls.specs.Rooms.{IsPut};

/// Writes a text to the start of `room`, and its length to `written`. If `room` is too short, it doesn't change,
/// `written` is still the length, and the result is `false`.
pub fn put(text: &[u8], room: &mut [u8], written: &mut usize) -> bool
    ensures count { written.new ≡ length text.now }
    ensures put { IsPut result text.now room.old room.new }
{
    let count = text.len();
    *written = count;
    if count > room.len() {
        return false;
    }
    room[..count].copy_from_slice(text);
    true
}
