use keys::Key;
use kinds::KindName;

// What a sounding file says.
#[derive(Clone, Copy)]
pub struct Sounding<'a> {
    // the key, for the kind that the file names
    pub key: Key,
    pub kind: KindName,
    // the room length, and the byte of the file where it begins
    pub room: usize,
    pub room_byte: usize,
    // what follows the room length
    pub records: &'a [u8],
}
