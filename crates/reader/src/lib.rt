// The reader of rules: from a text to the numbered parts of the one rule that it says.
#![tactic(auto)]

ghost use Rattle.reader.specs.Claims.{ReaderStands};

mod descent;
pub mod read;
mod table;
#[cfg(test)]
mod tests;
pub mod texts;

// The theorems on the grammar, the refusals and the texts of rules.
pub fn reader_stands()
    ensures { ReaderStands }
{}
