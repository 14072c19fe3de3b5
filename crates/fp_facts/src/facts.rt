ghost use Rattle.std.specs.Prelude.{◌≡◌, ◌<◌, Some, length, slice_get};
ghost use Rattle.fp_facts.specs.Facts.{called};

use crate::assume::Assume;
use crate::call_targets::CallTargets;
use crate::origin_set::OriginSet;
use crate::reference::Reference;
use fp_model::{ClassId, FieldId, MethodId};
use sqlite_items::Items;

/// What is taken for granted of the method that a call's reference means.
#[derive(Clone, Copy, Debug, PartialEq, Eq)]
pub enum Assumed {
    /// Nothing.
    No,
    /// It has no effect.
    Sef,
    /// It has no effect, and doesn't read what changes.
    Pure,
}

/// A call that control may come to.
#[derive(Drop)]
pub struct CallSite {
    /// Its offset in the code, in bytes.
    pub pc: u16,
    /// The number of its reference, among those of the facts.
    pub call: u32,
    /// The origins of each argument, the receiver first.
    pub args: Items<OriginSet>,
}

/// How an instruction reads or writes a field, a static or an element of an array.
#[derive(Clone, Copy, Debug, PartialEq, Eq)]
pub enum AccessForm {
    GetStatic,
    PutStatic,
    GetField,
    PutField,
    /// Of an array's element.
    Load,
    /// To an array's element.
    Store,
}

/// A read or a write that control may come to.
#[derive(Drop)]
pub struct Access {
    /// Its offset in the code, in bytes.
    pub pc: u16,
    pub form: AccessForm,
    /// The field, none for an element of an array and for a field outside the set.
    pub field: Option<FieldId>,
    /// The origins of the object or the array.
    pub object: OriginSet,
    /// The origins of what is written.
    pub value: OriginSet,
}

/// What the code of a method does.
#[derive(Drop)]
pub struct MethodFacts {
    pub method: MethodId,
    /// Its calls, in the order of the code.
    pub sites: Items<CallSite>,
    /// The classes of the set that it makes objects of.
    pub news: Items<ClassId>,
    /// The offsets at which it makes objects and arrays, in bytes.
    pub allocs: Items<u16>,
    /// The classes that it may begin to initialise (JVMS SE 21 section 5.5).
    pub begins: Items<ClassId>,
    /// Its reads and writes, in the order of the code.
    pub accesses: Items<Access>,
    /// The origins of what each of its throws raises.
    pub thrown: Items<OriginSet>,
    /// The origins of what each of its returns gives back.
    pub returned: Items<OriginSet>,
}

/// What analyses read of a set of classes and of the words of a run.
#[derive(Drop)]
pub struct Facts {
    /// The references of calls, each once, in the order in which they are met.
    pub references: Items<Reference>,
    /// What calls of each reference can reach.
    pub calls: Items<CallTargets>,
    /// The methods with code.
    pub methods: Items<MethodFacts>,
    /// The classes of the objects that the roots may be handed.
    pub seeds: Items<ClassId>,
    /// The methods at which a run may start.
    pub roots: Items<MethodId>,
    /// What is taken for granted of classes outside the set.
    pub assume: Assume,
}

impl Facts {
    /// What a call can reach. Takes no memory.
    pub fn call(&self, site: &CallSite) -> &CallTargets
        requires { site.now.call < length self.now.calls }
        ensures { slice_get self.now.calls site.now.call ≡ Some result.now }
    {
        &self.calls.as_slice()[site.call as usize]
    }

    /// The methods of the set that a call can reach, ascending. The bit of each is its place here, and the bit behind them all is
    /// that of the outside. Takes no memory.
    pub fn targets(&self, site: &CallSite) -> &[MethodId]
        requires { site.now.call < length self.now.calls }
        ensures { result.now ≡ (called self.now site.now).targets }
    {
        self.call(site).targets.as_slice()
    }

    /// The bits of what it reaches whatever classes have objects, ascending. Takes no memory.
    pub fn always(&self, site: &CallSite) -> &[u32]
        requires { site.now.call < length self.now.calls }
        ensures { result.now ≡ (called self.now site.now).always }
    {
        self.call(site).always.as_slice()
    }

    /// The classes whose objects let it reach more, ascending, and the bits of that. Takes no memory.
    pub fn watch(&self, site: &CallSite) -> &[(ClassId, Items<u32>)]
        requires { site.now.call < length self.now.calls }
        ensures { result.now ≡ (called self.now site.now).watch }
    {
        self.call(site).watch.as_slice()
    }
}
