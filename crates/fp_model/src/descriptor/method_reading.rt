ghost use Rattle.std.specs.Prelude.{◌≡◌, ◌^◌, ◌<◌, ◌≤◌, ◌++◌, ℕ, List, drop, length, false, true, IfOk, OnOk, IsErrAnd, IsErrOf};
ghost use Rattle.std.specs.List.{flat_map, AllZip};
ghost use Rattle.fp_base.specs.Names.{with_names};
ghost use Rattle.fp_model.specs.Descriptor.{descr_names, first_field, is_field_descriptor, is_method_descriptor, is_result, kind_names, parameters, IsDescrOf, IsKindOf, IsParametersEnd, IsResultOf, LacksRoom, StopsAt, TellsPlaceOf};
ghost use Rattle.fp_model.specs.Taking.{Taken};

use super::fault::DescrFault;
use super::method::{bad_place_of_method, count_field, front};
use super::reading::read_kind;
use crate::kind::{Descr, Kind};
use fp_base::{NameFault, Names};
use sqlite_items::Items;
use std::alloc::Global;

/// Reads a method descriptor (JVMS SE 21 section 4.3.3), and takes the class names in it into the table.
///
/// A text that is no method descriptor is refused before any name is taken. Where the table is full or memory runs
/// out, the table may have grown.
pub fn read_descr(alloc: Global, text: &[u8], names: &mut Names) -> Result<Descr, DescrFault>
    requires { length text.now < 2 ^ 31 }
    ensures descr { IfOk result (IsDescrOf names.new text.now) }
    ensures names { OnOk result (names.new ≡ with_names names.old (descr_names text.now)) }

    ensures bad { is_method_descriptor text.now ≡ false
        → IsErrAnd result (TellsPlaceOf is_method_descriptor text.now) × (names.new ≡ names.old) }
    ensures bad_at { (at : ℕ) → IsErrOf result (DescrFault.Bad at) → StopsAt is_method_descriptor text.now at }
    // The table is full, and has no room for one of the names.
    ensures full { IsErrOf result DescrFault.Full
        → (is_method_descriptor text.now ≡ true) × LacksRoom names.new (descr_names text.now) }
    // With all of its names it would have too many.
    ensures many { IsErrOf result DescrFault.Full → 16777216 < length (with_names names.old (descr_names text.now)) }
    ensures grown { (more : List (List ℕ)) × (names.new ≡ names.old ++ more) }
{
    if let Some(place) = bad_place_of_method(text) {
        return Err(DescrFault::Bad { at: place as u32 });
    }
    match read_parts(alloc, text, names) {
        Ok(descr) => Ok(descr),
        Err(NameFault::Full) => Err(DescrFault::Full),
        Err(NameFault::Memory) => Err(DescrFault::Memory),
    }
}

/// The parameters and the result.
fn read_parts(alloc: Global, text: &[u8], names: &mut Names) -> Result<Descr, NameFault>
    requires short { length text.now < 2 ^ 31 }
    requires method { is_method_descriptor text.now ≡ true }
    ensures descr { IfOk result (IsDescrOf names.new text.now) }
    ensures names { Taken result names.old names.new (descr_names text.now) }
{
    let (args, end) = read_args(alloc, text, names)?;
    let result = read_result(alloc, &text[end + 1..], names)?;
    Ok(Descr { args, result })
}

/// The kinds of the parameters, and the place of the `)`.
fn read_args(
    alloc: Global,
    text: &[u8],
    names: &mut Names,
) -> Result<(Items<Kind>, usize), NameFault>
    requires short { length text.now < 2 ^ 31 }
    requires method { is_method_descriptor text.now ≡ true }
    ensures args { IfOk result (λ x. AllZip (IsKindOf names.new) (parameters text.now) x.0) }
    ensures end { IfOk result (λ x. IsParametersEnd text.now x.1) }
    ensures names { Taken result names.old names.new (flat_map kind_names (parameters text.now)) }
{
    let mut args = Vec::new(alloc);
    let mut at = 1;
    while text[at] != b')' {
        let field = field_at(text, at);
        let kind = read_field(alloc, field, names)?;
        if args.push(kind).is_err() {
            return Err(NameFault::Memory);
        }
        at += field.len();
    }
    Ok((Items::from_vec(args), at))
}

/// The field descriptor at a place of a text, where one stands there.
fn field_at(text: &[u8], at: usize) -> &[u8]
    requires { at ≤ length text.now }
    ensures field { result.now ≡ first_field (drop at text.now) }
    ensures short { length result.now ≤ length text.now }
{
    let rest = &text[at..];
    front(rest, count_field(rest))
}

/// The kind of the result, none for `V`.
fn read_result(alloc: Global, text: &[u8], names: &mut Names) -> Result<Option<Kind>, NameFault>
    requires short { length text.now < 2 ^ 31 }
    requires result { is_result text.now ≡ true }
    ensures kind { IfOk result (IsResultOf names.new text.now) }
    ensures names { Taken result names.old names.new (kind_names text.now) }
{
    if text[0] == b'V' {
        return Ok(None);
    }
    let kind = read_field(alloc, text, names)?;
    Ok(Some(kind))
}

/// The kind that a field descriptor says.
fn read_field(alloc: Global, text: &[u8], names: &mut Names) -> Result<Kind, NameFault>
    requires short { length text.now < 2 ^ 31 }
    requires field { is_field_descriptor text.now ≡ true }
    ensures kind { IfOk result (IsKindOf names.new text.now) }
    ensures names { Taken result names.old names.new (kind_names text.now) }
{
    match read_kind(alloc, text, names) {
        Ok(kind) => Ok(kind),
        Err(DescrFault::Full) => Err(NameFault::Full),
        Err(DescrFault::Memory) => Err(NameFault::Memory),
        Err(DescrFault::Bad { .. }) => unreachable!(),
    }
}
