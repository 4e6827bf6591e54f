// The program's commands.
use crate::args::{Command, Sources, Task, parse};
use crate::explain::explain;
use crate::fault::Fault;
use crate::graph::draw;
use crate::headline::Headline;
use crate::moves::MovesUnder;
use crate::names::GivenNames;
use crate::parts::show_parts;
use crate::play::play;
use crate::rounds::Scene;
use crate::source::{Given, Loaded, read_file};
use crate::table::Table;
use book::accept::accept;
use book::solve::solve;
use game::game::{Game, input_count};
use game::pair::Pair;
use std::process::ExitCode;
use std::{env, fs, io};
use terms::refusal::Refusal;

// How long the book of 255 positions is.
const LONGEST: usize = 6128;

// Obeys the words of the command line, and says on the standard error what went wrong: status 1.
pub fn main_of(rt: &HostRuntime) -> ExitCode {
    match words_of(rt) {
        Ok(words) => report(rt, run(rt, words.as_slice())),
        Err(error) => report(rt, Err(Fault::NoWords(error))),
    }
}

// Obeys several command lines, up to the first that goes wrong, with the word 'then' between them.
pub fn main_of_each(rt: &HostRuntime) -> ExitCode {
    match words_of(rt) {
        Ok(words) => report(rt, run_each(rt, words.as_slice())),
        Err(error) => report(rt, Err(Fault::NoWords(error))),
    }
}

// The words of the command line, the program's own name first.
fn words_of(rt: &HostRuntime) -> io::Result<Vec<String>> {
    Ok(env::args(rt)?.collect(rt.alloc())?)
}

fn report(rt: &HostRuntime, res: Result<(), Fault>) -> ExitCode {
    match res {
        Ok(()) => ExitCode::SUCCESS,
        Err(fault) => {
            let _ = eprintln!(rt; "{fault}");
            ExitCode::FAILURE
        }
    }
}

fn run_each<'a>(rt: &HostRuntime, words: &'a [String]) -> Result<(), Fault<'a>> {
    for line in words.split(|word| word.as_str() == "then") {
        run(rt, line)?;
    }
    Ok(())
}

fn run<'a>(rt: &HostRuntime, words: &'a [String]) -> Result<(), Fault<'a>> {
    match parse(words)? {
        Task::Over(sources, command) => run_over(rt, sources, command),
        Task::Parts(files) => show_parts(rt, files),
    }
}

fn run_over<'a>(
    rt: &HostRuntime,
    sources: Sources<'a>,
    command: Command<'a>,
) -> Result<(), Fault<'a>> {
    let given = Given::read(rt, sources)?;
    let second = given.second.as_ref();
    let errand = Errand::over(command, &given);
    match &given.first {
        Loaded::Drawn(drawing) => run_with(rt, drawing.game(second.is_none())?, second, errand),
        Loaded::Ruled(sheet) => run_with(rt, sheet.game(), second, errand),
    }
}

// A command, with the names of signals that the two sources give.
#[derive(Clone, Copy)]
struct Errand<'a, 'n> {
    command: Command<'a>,
    names: GivenNames<'n>,
}

impl<'a, 'n> Errand<'a, 'n> {
    fn over(command: Command<'a>, given: &'n Given<'a>) -> Errand<'a, 'n> {
        let names = given.names();
        Errand { command, names }
    }
}

// The command over the first game, or over it and the second one.
fn run_with<'a, G: Game + Drop>(
    rt: &HostRuntime,
    first: G,
    second: Option<&Loaded<'a>>,
    errand: Errand<'a, '_>,
) -> Result<(), Fault<'a>> {
    let Some(second) = second else {
        return obey(rt, errand, &first);
    };
    match second {
        Loaded::Drawn(drawing) => {
            let second = drawing.game(false)?;
            obey(rt, errand, &Pair::of(first, second))
        }
        Loaded::Ruled(sheet) => {
            let second = sheet.game();
            obey(rt, errand, &Pair::of(first, second))
        }
    }
}

fn obey<'a, G: Game>(rt: &HostRuntime, errand: Errand<'a, '_>, game: &G) -> Result<(), Fault<'a>> {
    match errand.command {
        Command::Solve(file) => solve_game(rt, game, file),
        Command::Show => show_game(rt, game),
        Command::Graph => draw_game(rt, game, errand.names),
        Command::Explain => explain_game(rt, game, errand.names),
        Command::Check(file) => check_book(rt, game, file),
        Command::Run(file) => run_game(rt, game, file),
    }
}

// The game's book.
fn solved<'a, G: Game>(rt: &HostRuntime, game: &G) -> Result<Vec<u8>, Fault<'a>> {
    let mut book = vec![in rt.alloc(); 0u8; LONGEST]?;
    let length = solve(game, book.as_mut_slice())?;
    book.truncate(length);
    Ok(book)
}

// Solves the game, prints the table, and writes the book where a file is named for it.
// Kept: the game is what every command works on, and the file is the command's own.
fn solve_game<'a, G: Game>(
    rt: &HostRuntime,
    game: &G,
    file: Option<&'a str>,
) -> Result<(), Fault<'a>> {
    let book = solved(rt, game)?;
    let length = book.len();
    let headline = Headline::of(game);
    let table = Table {
        book: book.as_slice(),
        size: game.size(),
        inputs: input_count(game),
    };
    println!(rt; "{headline}\n{table}book: {length} bytes")?;
    let Some(file) = file else {
        return Ok(());
    };
    fs::write(rt, file, book.as_slice()).map_err(|error| Fault::Unwritten(file, error))
}

// Prints the game's moves.
fn show_game<'a, G: Game>(rt: &HostRuntime, game: &G) -> Result<(), Fault<'a>> {
    let headline = Headline::of(game);
    if headline.size == 0 {
        return Err(Fault::from(Refusal::SizeZero));
    }
    println!(rt; "{headline}")?;
    for position in 1..=headline.size {
        show_position(rt, game, position)?;
    }
    Ok(())
}

fn show_position<'a, G: Game>(rt: &HostRuntime, game: &G, position: u8) -> Result<(), Fault<'a>> {
    println!(rt; "position {position}")?;
    for input in 0..input_count(game) {
        let moves = MovesUnder {
            game,
            position,
            input,
        };
        println!(rt; "  input {input}: {moves}")?;
    }
    Ok(())
}

// Solves the game, and prints its graph.
fn draw_game<'a, G: Game>(
    rt: &HostRuntime,
    game: &G,
    names: GivenNames<'_>,
) -> Result<(), Fault<'a>> {
    let book = solved(rt, game)?;
    draw(rt, &Scene::of(game, book.as_slice(), names))
}

// Solves the game, and tells how it is lost soonest.
fn explain_game<'a, G: Game>(
    rt: &HostRuntime,
    game: &G,
    names: GivenNames<'_>,
) -> Result<(), Fault<'a>> {
    let book = solved(rt, game)?;
    explain(rt, &Scene::of(game, book.as_slice(), names))
}

// Accepts the book in the file, or refuses it.
fn check_book<'a, G: Game>(rt: &HostRuntime, game: &G, file: &'a str) -> Result<(), Fault<'a>> {
    let book = read_file(rt, file)?;
    accept(game, book.as_slice())?;
    let length = book.len();
    println!(rt; "accepted: {length} bytes")?;
    Ok(())
}

fn run_game<'a, G: Game>(rt: &HostRuntime, game: &G, file: &'a str) -> Result<(), Fault<'a>> {
    let book = read_file(rt, file)?;
    play(rt, game, book.as_slice())
}
