//! The references of calls.
ghost use Rattle.std.specs.Prelude.{◌≡◌, ◌≤◌, IfSome};
ghost use Rattle.fp_facts.specs.References.{reference_of};

use crate::reference::{CallForm, Reference};
use fp_model::{ClassId, Instr};

impl Reference {
    /// The reference of an instruction of a class; none where it is no call. Takes no memory.
    pub fn of(caller: ClassId, instr: &Instr) -> Option<Reference>
        ensures reference { result ≡ reference_of caller instr.now }
        ensures caller { IfSome result (λ r. r.caller ≤ caller) }
    {
        match instr {
            Instr::InvokeStatic {
                class,
                name,
                descr,
                ..
            } => Some(Reference::new(CallForm::Static, *class, *name, *descr)),
            Instr::InvokeSpecial {
                class,
                name,
                descr,
                ..
            } => Some(Reference {
                caller,
                ..Reference::new(CallForm::Special, *class, *name, *descr)
            }),
            Instr::InvokeVirtual {
                class,
                name,
                descr,
                ..
            }
            | Instr::InvokeInterface {
                class,
                name,
                descr,
                ..
            } => Some(Reference::new(CallForm::Virtual, *class, *name, *descr)),
            Instr::InvokeDynamic { boot, .. } => Some(Reference::new(
                CallForm::Dynamic,
                boot.class,
                boot.name,
                boot.descr,
            )),
            _ => None,
        }
    }

    // One that doesn't go by the calling class.
    fn new(form: CallForm, class: u32, name: u32, descr: u32) -> Reference
        ensures { result ≡ record { form = form; class = class; name = name; descr = descr; caller = 0 } }
    {
        Reference {
            form,
            class,
            name,
            descr,
            caller: 0,
        }
    }
}
