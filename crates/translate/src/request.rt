// What an access asks, once its address is taken apart.

// A kind of access, the segment's index, the offset in it, and how many bytes.
#[derive(Clone, Copy)]
pub struct Request {
    pub kind: u8,
    pub index: u16,
    pub offset: usize,
    pub length: usize,
}
