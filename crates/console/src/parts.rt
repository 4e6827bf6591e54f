// The parts of a rule, printed.
use crate::args::RuleFiles;
use crate::fault::Fault;
use crate::listing::print_texts;
use crate::texts::RuleTexts;
use reader::texts::read;
use rules::part::Part;
use words::name::Name;

// Reads the two texts, and prints the signals and the parts of the rule.
pub(crate) fn show_parts<'a>(rt: &HostRuntime, files: RuleFiles<'a>) -> Result<(), Fault<'a>> {
    let texts = RuleTexts::read(rt, files)?;
    let mut names = [Name::default(); 8];
    let mut parts = [Part::True; 64];
    match read(
        texts.named.as_slice(),
        texts.ruled.as_slice(),
        &mut names,
        &mut parts,
    ) {
        Ok(said) => print_texts(rt, &names, &parts, said),
        Err(misread) => Err(texts.fault(rt, misread)),
    }
}
