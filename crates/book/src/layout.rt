// The bytes of a book: how many, its header, and the front of a record.
ghost use Rattle.std.specs.Prelude.{◌≡◌};
ghost use Rattle.arena.specs.Book.{front, header, book_length};

use game::game::Game;
use terms::count::Count;

// How long a game's book is.
pub(crate) fn book_length<G: Game>(g: &G) -> usize
    ensures { result ≡ book_length (G.meaning g.now).size }
{
    8 + 24 * g.size() as usize
}

// A book's first eight bytes.
pub(crate) fn header_of<G: Game>(g: &G) -> [u8; 8]
    ensures { result ≡ header (G.meaning g.now) }
{
    [1, g.inputs(), g.outputs(), g.size(), g.start(), 0, 0, 0]
}

// A record's first eight bytes for a count and a spoiling input.
// Kept: 1 and 2 are the bytes that a book has for unlimited and limited; `told` and the questions of a run read them.
pub(crate) fn front_of(count: Count, spoiling: Option<u8>) -> [u8; 8]
    ensures { result ≡ front count spoiling }
{
    let (status, rounds) = match count {
        Count::Lost => (0, 0u16),
        Count::Limited(k) => (2, k),
        Count::Unlimited => (1, 0),
    };
    let [high, low] = rounds.to_be_bytes();
    [status, 0, 0, 0, high, low, spoiling.unwrap_or(0), 0]
}
