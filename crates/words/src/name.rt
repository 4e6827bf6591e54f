// Names of signals, as they are stored.
ghost use Rattle.std.specs.Prelude.{◌≡◌, refl};
ghost use Rattle.std.proofs.Common.{sym, ◌∙◌};
ghost use Rattle.words.specs.Names.{name_of, same_name};
ghost use Rattle.terms.proofs.ListLaws.{same_list_decides};

use register::Same;

// A name of at most eight bytes, padded with zeros.
#[derive(Clone, Copy, PartialEq, Eq, Default, Debug)]
pub struct Name {
    pub bytes: [u8; 8],
}

impl Name {
    // The name that a run is. One of more than eight bytes is none.
    // Kept: an Option, and no TryFrom, since nobody asks why a run is no name.
    pub fn of(run: &[u8]) -> Option<Name>
        ensures { result ≡ name_of run.now }
    {
        if run.len() > 8 {
            return None;
        }
        let mut bytes = [0; 8];
        bytes[..run.len()].copy_from_slice(run);
        Some(Name { bytes })
    }
}

impl Same for Name {
    ghost same = { same_name };

    ghost reflexive = { λ x. (same_list_decides x.bytes x.bytes).1 refl };

    ghost symmetric = { λ x y h. (same_list_decides y.bytes x.bytes).1 (sym ((same_list_decides x.bytes y.bytes).0 h)) };

    ghost transitive = { λ x y z h k. (same_list_decides x.bytes z.bytes).1 ((same_list_decides x.bytes y.bytes).0 h ∙ (same_list_decides y.bytes z.bytes).0 k) };

    fn same_as(&self, other: &Name) -> bool {
        self == other
    }
}
