//! Access flags of classes and methods (JVMS SE 21 tables 4.1-B and 4.6-A).
ghost use Rattle.std.specs.Prelude.{◌≡◌};
ghost use Rattle.fp_model.specs.Flags as access;
ghost use Rattle.fp_facts.specs.Hierarchy as hierarchy;
ghost use Rattle.fp_facts.specs.Resolution as resolution;

use fp_model::{Class, Method, flags};

pub(crate) fn is_interface(class: &Class) -> bool
    ensures { result ≡ hierarchy.is_interface class.now }
{
    flags::is_interface(class.flags)
}

/// Whether it is neither an interface nor an abstract class.
pub(crate) fn is_concrete(class: &Class) -> bool
    ensures { result ≡ hierarchy.is_concrete class.now }
{
    flags::is_concrete(class.flags)
}

pub(crate) fn is_private(method: &Method) -> bool
    ensures { result ≡ resolution.is_private method.now }
{
    flags::is_private(method.flags)
}

pub(crate) fn is_static(method: &Method) -> bool
    ensures { result ≡ access.is_static method.now.flags }
{
    flags::is_static(method.flags)
}

pub(crate) fn is_native(method: &Method) -> bool
    ensures { result ≡ resolution.is_native method.now }
{
    flags::is_native(method.flags)
}
