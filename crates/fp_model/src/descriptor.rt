mod fault;
mod method;
mod method_reading;
mod place;
mod reading;

ghost use Rattle.std.specs.Prelude.{◌≡◌};
ghost use Rattle.fp_model.specs.Descriptor.{is_field_descriptor};

pub use fault::DescrFault;
pub use method::{arg_words, is_descr, law_method_descriptor};
pub use method_reading::read_descr;
use place::bad_place;
pub use reading::{law_one_kind, read_kind};

/// Whether a text is a field descriptor (JVMS SE 21 section 4.3.2).
pub fn is_kind(text: &[u8]) -> bool
    ensures { result ≡ is_field_descriptor text.now }
{
    bad_place(text).is_none()
}
