// The history that every packet of version two carries.
//
// It is a part of a packet, and stands here since both the crate that spells it and the crate that
// keeps it stand on this one, and neither on the other.

/// The greatest number taken, and a history of 32 numbers a word from it downwards.
///
/// `count` is how many of the words are meant, 1 to 8 in version two. In version one `top` and
/// `count` are 0. Words past `count` are 0.
#[derive(Clone, Copy, Debug, PartialEq, Eq)]
pub struct Head {
    pub top: u16,
    pub count: u8,
    pub words: [u32; 8],
}
