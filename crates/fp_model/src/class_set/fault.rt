use std::alloc::AllocError;

/// Why classes are no set. A name is an escaped name.
#[derive(Debug, Drop)]
pub enum SetFault {
    /// More than one class has this name. It is the first of such names by its bytes.
    Duplicate(String),
    /// No two classes have one name, and a chain of superclasses comes back to the class of this name.
    /// It is the first of such names by its bytes.
    SuperCycle(String),
    /// Memory ran out. This says nothing of the classes.
    Memory,
}

impl From<AllocError> for SetFault {
    ghost use Rattle.std.specs.Prelude.{◌≡◌};
    ghost use Rattle.fp_model.specs.declared.class_set.fault.SetFault.TheVariants.{Memory};

    ghost from_gives = { λ _ e. e ≡ Memory };

    fn from(_error: AllocError) -> SetFault {
        SetFault::Memory
    }
}
