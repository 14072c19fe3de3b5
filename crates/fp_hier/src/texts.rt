//! The texts of names.
ghost use Rattle.std.specs.Prelude.{◌≡◌};
ghost use Rattle.fp_facts.specs.Hierarchy as hierarchy;

use fp_base::Names;
use fp_model::name_text;

const OBJECT: &[u8] = b"java/lang/Object";

/// Whether it is the name of `java/lang/Object`.
pub(crate) fn is_object(names: &Names, number: u32) -> bool
    ensures { result ≡ hierarchy.is_object names.now number }
{
    name_text(names, number) == OBJECT
}

/// Whether it is the name of a class of arrays.
pub(crate) fn is_array_name(names: &Names, number: u32) -> bool
    ensures { result ≡ hierarchy.is_array_name names.now number }
{
    name_text(names, number).first() == Some(&b'[')
}
