// How a game is lost soonest, told round by round.
use crate::fault::Fault;
use crate::headline::Headline;
use crate::phrases::{Left, Several};
use crate::rounds::{Round, Scene, answered};
use book::told::{count_told, spoiling_told};
use game::game::{Game, input_count};
use std::fmt;
use terms::count::Count;

// Tells the shortest loss from a start that is limited, and a round for each input from one that is not.
pub(crate) fn explain<'a, G: Game>(
    rt: &HostRuntime,
    scene: &Scene<'_, '_, G>,
) -> Result<(), Fault<'a>> {
    let headline = Headline::of(scene.play.game);
    let start = headline.start;
    println!(rt; "{headline}")?;
    match count_told(scene.play.book, start) {
        Count::Limited(n) => tell_loss(rt, scene, start, n),
        _ => tell_rounds(rt, scene, start),
    }
}

// The spoiling play from a start with a count, until it is lost.
fn tell_loss<'a, G: Game>(
    rt: &HostRuntime,
    scene: &Scene<'_, '_, G>,
    start: u8,
    count: u16,
) -> Result<(), Fault<'a>> {
    let last = u32::from(count) + 1;
    let rounds = Several(last, "round");
    println!(rt;
        "start: position {start}, limited, count {count}\nthe shortest loss takes {rounds}:"
    )?;
    let mut position = start;
    for number in 1..=last {
        let Some(input) = spoiling_told(scene.play.book, position) else {
            break;
        };
        let round = answered(&scene.play, position, input);
        let told = Telling { scene, round };
        println!(rt; "round {number}: {told}")?;
        position = round.to;
    }
    Ok(())
}

// One round for each input.
fn tell_rounds<'a, G: Game>(
    rt: &HostRuntime,
    scene: &Scene<'_, '_, G>,
    start: u8,
) -> Result<(), Fault<'a>> {
    println!(rt; "start: position {start}, unlimited\nno inputs lose it; a round for each input:")?;
    for input in 0..input_count(scene.play.game) {
        let round = answered(&scene.play, start, input);
        let told = Telling { scene, round };
        println!(rt; "{told}")?;
    }
    Ok(())
}

// A round with where it leads and how many rounds are left there.
#[derive(Drop)]
struct Telling<'t, 's, 'n, G> {
    scene: &'t Scene<'s, 'n, G>,
    round: Round,
}

impl<G> fmt::Display for Telling<'_, '_, '_, G> {
    fn fmt<W: fmt::Write>(&self, f: &mut fmt::Formatter<W>) -> fmt::Result {
        let Scene { play, legend } = *self.scene;
        let Round { input, output, to } = self.round;
        let input = legend.inputs.spell(input);
        let output = legend.outputs.spell(output);
        write!(f, "input {input}, answer {output}, ")?;
        if to == 0 {
            return write!(f, "lost");
        }
        let left = Left(count_told(play.book, to));
        write!(f, "to position {to}, {left}")
    }
}
