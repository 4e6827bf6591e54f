// A solved game as a graph, for Graphviz.
use crate::edges::{Arrow, Edge, KINDS, Key, Kind, Move};
use crate::fault::Fault;
use crate::headline::Headline;
use crate::phrases::Left;
use crate::rounds::{Round, Scene};
use book::told::{answer_told, count_told, spoiling_told};
use game::game::{Game, input_count, output_count};
use run::play::Play;
use std::alloc::AllocError;
use terms::count::Count;

// How the graph looks where nothing else is said, and the mark at the start.
const DEFAULTS: &str = "  rankdir=LR
  fontname=Helvetica
  fontsize=10
  node [shape=box, style=\"rounded,filled\", fontname=Helvetica, fontsize=12]
  edge [fontname=Helvetica, fontsize=10]
  start [shape=plaintext, style=\"\"]";

// How the graph is read, as a text below it.
const CAPTION: &str =
    "labels: input / output, - where nothing is on\\nsolid: the book's answers, red: the spoiling play, dashed: other moves";

// Prints the game as a graph: positions with their counts, the book's answers, the spoiling play and the other moves.
pub(crate) fn draw<'a, G: Game>(
    rt: &HostRuntime,
    scene: &Scene<'_, '_, G>,
) -> Result<(), Fault<'a>> {
    let game = scene.play.game;
    let headline = Headline::of(game);
    let start = headline.start;
    println!(rt;
        "digraph game {{\n{DEFAULTS}\n  label=\"{headline}\\n{CAPTION}\"\n  start -> {start}"
    )?;
    draw_positions(rt, scene.play.book, headline.size)?;
    let edges = edges_of(rt, scene)?;
    if edges.iter().any(|edge| edge.to == 0) {
        println!(rt; "  lost [fillcolor=\"#525252\", fontcolor=white]")?;
    }
    let key = Key {
        legend: scene.legend,
        inputs: input_count(game),
        outputs: output_count(game),
    };
    for kind in KINDS {
        draw_edges(rt, key, kind, edges.as_slice())?;
    }
    println!(rt; "}}")?;
    Ok(())
}

fn draw_positions<'a>(rt: &HostRuntime, book: &[u8], size: u8) -> Result<(), Fault<'a>> {
    for position in 1..=size {
        let count = count_told(book, position);
        let left = Left(count);
        let colour = colour_of(count);
        println!(rt; "  {position} [label=\"{position}\\n{left}\", fillcolor=\"{colour}\"]")?;
    }
    Ok(())
}

// The colour of a position: the darker the sooner it can be lost.
fn colour_of(count: Count) -> &'static str {
    match count {
        Count::Unlimited => "#c7e9c0",
        Count::Limited(0) | Count::Lost => "#ec7014",
        Count::Limited(1) => "#fe9929",
        Count::Limited(2..=3) => "#fec44f",
        Count::Limited(4..=15) => "#fee391",
        Count::Limited(_) => "#fff7bc",
    }
}

// Prints the edges of a kind, behind the line that says how they look.
fn draw_edges<'a>(
    rt: &HostRuntime,
    key: Key<'_>,
    kind: Kind,
    edges: &[Edge],
) -> Result<(), Fault<'a>> {
    let style = kind.style();
    println!(rt; "  edge [{style}]")?;
    for edge in edges.iter().filter(|edge| edge.kind == kind) {
        let arrow = Arrow { edge: *edge, key };
        println!(rt; "  {arrow}")?;
    }
    Ok(())
}

// All edges of the game.
fn edges_of<G: Game>(rt: &HostRuntime, scene: &Scene<'_, '_, G>) -> Result<Vec<Edge>, AllocError> {
    let mut edges = Vec::new(rt.alloc());
    let size = scene.play.game.size();
    for from in 1..=size {
        let moves = moves_from(rt, scene, from)?;
        for to in 0..=size {
            add_edges(&mut edges, moves.as_slice(), from, to)?;
        }
    }
    Ok(edges)
}

// The edges from a position to another one.
fn add_edges(edges: &mut Vec<Edge>, moves: &[Move], from: u8, to: u8) -> Result<(), AllocError> {
    for kind in KINDS {
        if let Some(edge) = Edge::of(moves, from, to, kind) {
            edges.push(edge)?;
        }
    }
    Ok(())
}

// The moves from a position.
fn moves_from<G: Game>(
    rt: &HostRuntime,
    scene: &Scene<'_, '_, G>,
    from: u8,
) -> Result<Vec<Move>, AllocError> {
    let mut moves = Vec::new(rt.alloc());
    for input in 0..input_count(scene.play.game) {
        add_moves(&mut moves, scene, from, input)?;
    }
    Ok(moves)
}

// The moves from a position under an input.
fn add_moves<G: Game>(
    moves: &mut Vec<Move>,
    scene: &Scene<'_, '_, G>,
    from: u8,
    input: u8,
) -> Result<(), AllocError> {
    let Play { game, book } = scene.play;
    for output in 0..output_count(game) {
        let round = Round {
            input,
            output,
            to: game.step(from, input, output),
        };
        let kind = kind_of(book, from, round);
        moves.push(Move { kind, round })?;
    }
    Ok(())
}

// What a round from a position is to the play by the book.
fn kind_of(book: &[u8], from: u8, round: Round) -> Kind {
    if answer_told(book, from, round.input) != round.output {
        Kind::Other
    } else if spoiling_told(book, from) == Some(round.input) {
        Kind::Spoiling
    } else {
        Kind::Answer
    }
}
