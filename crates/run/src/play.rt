// What the calls of a run are given.

// A game and the book by which it is played. Any bytes may stand as the book.
#[derive_where(Clone, Copy)]
pub struct Play<'a, G> {
    pub game: &'a G,
    pub book: &'a [u8],
}
