// Solving the examples.
ghost use Rattle.worked.specs.Worked.{comes_to, Examples, Works, Gives, Solves, SolvesPair};

use crate::example::Example;
use book::solve::solve;
use compile::compile::compile;
use compile::compiled::Compiled;
use compile::position::Position;
use game::diagram::Diagram;
use game::pair::Pair;
use rules::part::Part;
use terms::refusal::Refusal;
use words::name::Name;

// The inputs and outputs of every rule.
const SIGNALS: &[u8; 16] = b"in door out lock";

// The diagram: one input, one output, two positions and three records.
const IMAGE: [u8; 36] = *b"\x01\x01\x02\x01\x00\x03\x00\x00\
    \x00\x01\x00\x03\
    \x00\x00\x01\x00\x00\x02\x00\x00\
    \x01\x01\x02\x00\x00\x00\x00\x00\
    \x00\x00\x01\x00\x00\x00\x00\x00";

// Compiles a rule over the signals into the store.
fn compiled(rule: &[u8], positions: &mut [Position; 255]) -> Result<Compiled, Refusal>
    ensures { Gives rule.now result positions.new }
{
    let mut names = [Name::default(); 8];
    let mut parts = [Part::True; 64];
    // Kept: a match, whose two cases the contract tells apart.
    match compile(SIGNALS, rule, &mut names, &mut parts, positions) {
        Ok(numbers) => Ok(numbers),
        Err(misread) => Err(misread.refusal),
    }
}

// Solves the game of a rule.
fn solve_rule(rule: &[u8], book: &mut [u8]) -> Result<usize, Refusal>
    ensures { Solves rule.now book.old book.new result }
{
    let mut positions = [Position::unused(); 255];
    let numbers = compiled(rule, &mut positions)?;
    solve(&numbers.game(&positions), book)
}

// Solves the pair of the games of two rules.
fn solve_pair(first: &[u8], second: &[u8], book: &mut [u8]) -> Result<usize, Refusal>
    ensures { SolvesPair first.now second.now book.old book.new result }
{
    let mut ones = [Position::unused(); 255];
    let mut others = [Position::unused(); 255];
    let one = compiled(first, &mut ones)?;
    let other = compiled(second, &mut others)?;
    let pair = Pair::of(one.game(&ones), other.game(&others));
    solve(&pair, book)
}

// Solves an example into its book, and says how many bytes that takes. Every example stands.
pub fn solve_example(example: Example, book: &mut [u8]) -> Result<usize, Refusal>
    ensures works { Works (comes_to example) book.old book.new result }
    ensures examples { Examples }
{
    match example {
        Example::Paired => solve_pair(Example::Follow.text(), Example::Later.text(), book),
        Example::Drawn => solve(&Diagram::read(&IMAGE)?, book),
        rule => solve_rule(rule.text(), book),
    }
}
