//! Which classes have an initialiser.
ghost use Rattle.std.specs.Prelude.{◌≡◌, ◌<◌, length, map, IfOk};
ghost use Rattle.std.specs.List.{list_any, range_with_len};
ghost use Rattle.fp_facts.specs.Initialisation.{has_initialiser, is_initialiser};

use fp_base::Names;
use fp_model::flags::is_static;
use fp_model::{ClassId, ClassSet, Method, name_text};
use std::alloc::{AllocError, Global};

/// The name of an initialiser.
const NAME: &[u8] = b"<clinit>";

/// Its descriptor.
const DESCRIPTOR: &[u8] = b"()V";

/// Whether each class has an initialiser: a static method `<clinit>()V` with code (JVMS SE 21 section 2.9.2).
pub fn initialiser_flags(alloc: Global, set: &ClassSet) -> Result<Vec<bool>, AllocError>
    ensures { IfOk result (λ flags. flags.items ≡ map (has_initialiser set.now) (range_with_len 0 (length set.now.classes))) }
{
    let (classes, _fields, _methods) = set.counts();
    let mut flags = Vec::with_capacity(alloc, classes as usize)?;
    for class in 0..classes {
        flags.push(has_initialiser(set, class))?;
    }
    Ok(flags)
}

// Whether a class has an initialiser.
fn has_initialiser(set: &ClassSet, class: ClassId) -> bool
    requires { class < length set.now.classes }
    ensures { result ≡ has_initialiser set.now class }
{
    has_initialiser_among(set.names(), set.class(class).methods.as_slice())
}

// Whether one of some methods is the initialiser of its class.
fn has_initialiser_among(names: &Names, methods: &[Method]) -> bool
    ensures { result ≡ list_any (is_initialiser names.now) methods.now }
{
    methods.iter().any(|method| is_initialiser(names, method))
}

/// Whether a method is the initialiser of its class.
pub fn is_initialiser(names: &Names, method: &Method) -> bool
    ensures { result ≡ is_initialiser names.now method.now }
{
    is_static(method.flags)
        && method.code.is_some()
        && name_text(names, method.name) == NAME
        && name_text(names, method.descr) == DESCRIPTOR
}
