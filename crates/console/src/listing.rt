// A rule's signals and parts, line by line.
use crate::fault::Fault;
use crate::names::Names;
use reader::texts::Texts;
use rules::part::Part;
use std::fmt;
use words::name::Name;

// Prints a line for each signal and each part, and the numbers of parts and duties.
pub(crate) fn print_texts<'a>(
    rt: &HostRuntime,
    names: &[Name],
    parts: &[Part],
    texts: Texts,
) -> Result<(), Fault<'a>> {
    let names = Names::of(rt, names, texts.signals)?;
    print_signals(rt, "input", names.inputs.as_slice())?;
    print_signals(rt, "output", names.outputs.as_slice())?;
    print_parts(
        rt,
        &names,
        parts.get(..texts.rule.parts as usize).unwrap_or(&[]),
    )?;
    let parts = texts.rule.parts;
    let duties = texts.rule.duties;
    println!(rt; "parts: {parts}, duties: {duties}")?;
    Ok(())
}

// Prints a line for each signal of a kind.
fn print_signals<'a>(rt: &HostRuntime, kind: &str, names: &[String]) -> Result<(), Fault<'a>> {
    for (k, name) in names.iter().enumerate() {
        println!(rt; "{kind} {k}: {name}")?;
    }
    Ok(())
}

fn print_parts<'a>(rt: &HostRuntime, names: &Names, parts: &[Part]) -> Result<(), Fault<'a>> {
    // Kept: the duties are counted among the parts, which no one iterator numbers.
    let mut duties = 0usize;
    for (k, part) in parts.iter().enumerate() {
        let body = Body { part: *part, names };
        if part.is_duty() {
            println!(rt; "part {k}: {body}, duty {duties}")?;
            duties = duties.saturating_add(1);
        } else {
            println!(rt; "part {k}: {body}")?;
        }
    }
    Ok(())
}

// What a part is, by the numbers of its sides.
#[derive(Clone, Copy)]
struct Body<'a> {
    part: Part,
    names: &'a Names,
}

impl fmt::Display for Body<'_> {
    fn fmt<W: fmt::Write>(&self, f: &mut fmt::Formatter<W>) -> fmt::Result {
        match self.part {
            Part::True => write!(f, "true"),
            Part::False => write!(f, "false"),
            Part::Literal(signal, on) => {
                let name = self.names.name(signal);
                let not = if on { "" } else { "!" };
                write!(f, "{not}{name}")
            }
            Part::Next(p) => write!(f, "X {p}"),
            Part::Release(p, q) => write!(f, "{p} R {q}"),
            Part::Both(p, q) => write!(f, "{p} & {q}"),
            Part::Either(p, q) => write!(f, "{p} | {q}"),
        }
    }
}
