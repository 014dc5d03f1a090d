// A table: its bytes in hexadecimal.
use console::words;

// Room for the longest line's bytes, some more than a table file may have.
pub type Room = [u8; ROOM];

pub const ROOM: usize = 65547;

// Two digits.
fn byte_of(pair: &[u8]) -> Option<u8> {
    let [high, low] = pair else {
        return None;
    };
    words::digit(*high)?
        .checked_mul(16)?
        .checked_add(words::digit(*low)?)
}

// Puts the bytes of a text into the room, two digits each, and returns how many they are; none where it has other than digits.
pub fn load(digits: &[u8], room: &mut Room) -> Option<usize> {
    let pairs = digits.chunks(2);
    let count = pairs.len().min(ROOM);
    for (byte, pair) in room.iter_mut().zip(pairs) {
        *byte = byte_of(pair)?;
    }
    Some(count)
}
