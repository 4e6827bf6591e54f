// Playing a run: calls from the standard input, one to a line, and an answer line for each.
use crate::fault::Fault;
use crate::talk::{CALLS, Told, call_of};
use game::game::Game;
use run::play::Play;
use run::replay::{finish, replay, take};
use run::run::Run;
use run::stage::Stage;
use std::io;
use terms::call::{Call, Reply, Step};

// What was called so far, and the lines that were printed for it.
#[derive(Drop)]
struct Log {
    row: Vec<Call>,
    told: String,
}

// Plays a run of the game by the book, from the start to the end of the input.
pub(crate) fn play<'a, G: Game>(rt: &HostRuntime, game: &G, book: &[u8]) -> Result<(), Fault<'a>> {
    let play = Play { game, book };
    let mut log = Log {
        row: Vec::new(rt.alloc()),
        told: String::new(rt.alloc()),
    };
    let mut stage = Stage::Between(Run::start(&play)?);
    for line in rt.lines(rt.alloc()) {
        let (next, done) = turn(rt, stage, &play, line, &mut log);
        stage = next;
        if let Err(fault) = done {
            let _ = finish(stage, &play);
            return Err(fault);
        }
    }
    let _ = finish(stage, &play);
    review(rt, &play, &log)
}

// One line of the input: its call is made and its answer printed.
// Kept: the stage goes back beside a fault, since an open round in it has to be spent.
fn turn<'a, G: Game>(
    rt: &HostRuntime,
    stage: Stage,
    play: &Play<'_, G>,
    line: io::Result<String>,
    log: &mut Log,
) -> (Stage, Result<(), Fault<'a>>) {
    let line = match line {
        Ok(line) => line,
        Err(error) => return (stage, Err(Fault::NoInput(error))),
    };
    let Some(call) = call_of(line.as_str()) else {
        return (stage, complain(rt, line.as_str()));
    };
    let (next, reply) = take(stage, play, call);
    (next, answer(rt, log, call, reply))
}

fn complain<'a>(rt: &HostRuntime, line: &str) -> Result<(), Fault<'a>> {
    println!(rt; "'{line}' is no call: write {CALLS}")?;
    Ok(())
}

fn answer<'a>(rt: &HostRuntime, log: &mut Log, call: Call, reply: Reply) -> Result<(), Fault<'a>> {
    let told = Told(reply);
    println!(rt; "{told}")?;
    log.row.push(call)?;
    writeln!(log.told, "{told}")?;
    Ok(())
}

// Replays the whole row, by the call whose contract is the whole promise, and holds what was told to it, line by line.
// Kept: lines and not replies, which take more room than all but the longest lines.
fn review<'a, G: Game>(rt: &HostRuntime, play: &Play<'_, G>, log: &Log) -> Result<(), Fault<'a>> {
    let row = log.row.as_slice();
    let mut steps = vec![in rt.alloc(); Step::default(); row.len()]?;
    let _ = replay(play, row, steps.as_mut_slice())?;
    let mut rest = log.told.as_str();
    let mut line = String::new(rt.alloc());
    for step in steps.as_slice() {
        let told = Told(step.reply);
        line.clear();
        writeln!(line, "{told}")?;
        rest = rest.strip_prefix(line.as_str()).ok_or(Fault::Unkept)?;
    }
    if rest.is_empty() {
        Ok(())
    } else {
        Err(Fault::Unkept)
    }
}
