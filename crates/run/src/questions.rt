// What a run is asked, with a round open or not.
ghost use Rattle.std.specs.Prelude.{◌≡◌, ℕ};
ghost use Rattle.run.specs.Calls.{readable, position_at, count_at, spoiling_at};
ghost use Rattle.run.specs.Stages.{standing_at};

use crate::play::Play;
use book::told::{count_told, flag_told, spoiling_told};
use terms::call::Standing;
use terms::count::Count;
use terms::refusal::Refusal;

// Whether the book has the record of a position, with a status.
// Kept: 1 and 2 are the bytes that a book has for a status; any other byte is none.
fn has_record(book: &[u8], p: u8) -> bool
    ensures { result ≡ readable book.now p }
{
    8 + 24 * p as usize <= book.len() && matches!(flag_told(book, p), 1 | 2)
}

// A position that the book has the record of, none where the number is that of a lost run.
pub(crate) fn position_at(book: &[u8], p: u8) -> Result<Option<u8>, Refusal>
    ensures { result ≡ position_at book.now p }
{
    match p {
        0 => Ok(None),
        p if has_record(book, p) => Ok(Some(p)),
        _ => Err(Refusal::NotThisBook),
    }
}

// Where a run stands, and what its book tells of that. An open round stands where it was opened.
pub trait Questions {
    ghost asked_at: { Self → ℕ };

    // The position, none where the run is lost.
    fn position<G>(&self, play: &Play<'_, G>) -> Result<Option<u8>, Refusal>
        ensures { result ≡ position_at play.now.book.now (asked_at self.now) };

    // The count left.
    fn count_left<G>(&self, play: &Play<'_, G>) -> Result<Count, Refusal>
        ensures { result ≡ count_at play.now.book.now (asked_at self.now) }
    {
        let position = self.position(play)?;
        Ok(position.map_or(Count::Lost, |p| count_told(play.book, p)))
    }

    // The spoiling input, none where the run is lost or unlimited.
    fn spoiling_input<G>(&self, play: &Play<'_, G>) -> Result<Option<u8>, Refusal>
        ensures { result ≡ spoiling_at play.now.book.now (asked_at self.now) }
    {
        let position = self.position(play)?;
        Ok(position.and_then(|p| spoiling_told(play.book, p)))
    }

    // The position with the count.
    fn standing<G>(&self, play: &Play<'_, G>) -> Result<Standing, Refusal>
        ensures { result ≡ standing_at play.now.book.now (asked_at self.now) }
    {
        let position = self.position(play)?;
        let count = self.count_left(play)?;
        Ok(Standing { position, count })
    }
}
