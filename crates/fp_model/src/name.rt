ghost use Rattle.std.specs.Prelude.{◌≡◌};
ghost use Rattle.fp_model.specs.Descriptor.{text_of};

use fp_base::Names;

/// The text of a name by its number in the table, or no text where the number is of none.
pub fn name_text(names: &Names, number: u32) -> &[u8]
    ensures { result.now ≡ text_of names.now number }
{
    names.text(number).unwrap_or(&[])
}
