use fp_base::NameFault;

/// Why a text was not read as a descriptor.
#[derive(Clone, Copy, Debug, PartialEq, Eq)]
pub enum DescrFault {
    /// The text is no descriptor. `at` is the offset of the first byte where none goes on, or the text's length.
    Bad { at: u32 },
    /// The table holds as many names as it may, and lacks one of the text.
    Full,
    /// Memory ran out. This says nothing of the text.
    Memory,
}

impl From<NameFault> for DescrFault {
    ghost use Rattle.std.specs.Prelude.{◌≡◌};
    ghost use Rattle.fp_model.specs.Descriptor.{fault_of};

    ghost from_gives = { λ f e. e ≡ fault_of f };

    fn from(fault: NameFault) -> DescrFault {
        match fault {
            NameFault::Full => DescrFault::Full,
            NameFault::Memory => DescrFault::Memory,
        }
    }
}
