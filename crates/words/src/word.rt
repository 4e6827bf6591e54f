// The words of a text, each a part of it.

// A word. A name borrows its bytes from the text.
#[derive(Clone, Copy)]
pub enum Word<'a> {
    Next,
    Always,
    Release,
    Until,
    Finally,
    And,
    Or,
    Not,
    Open,
    Close,
    In,
    Out,
    True,
    False,
    Name(&'a [u8]),
    // a byte that begins no word
    Strange(u8),
    // behind the last word
    End,
}

// A word with its place in the text and the place behind it.
#[derive(Clone, Copy)]
pub struct Token<'a> {
    pub word: Word<'a>,
    pub at: usize,
    pub next: usize,
}
