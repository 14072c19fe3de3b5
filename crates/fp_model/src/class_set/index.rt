//! Where the classes of a set stand by their names, and where their members begin.
ghost use Rattle.std.specs.Prelude.{◌≡◌, ◌+◌, ◌-◌, ◌<◌, ◌≤◌, ◌^◌, length, map, slice_index, slice_get, IfOk, All};
ghost use Rattle.std.specs.List.{range_with_len};
ghost use Rattle.std.specs.Option.{option_flatten};
ghost use Rattle.fp_base.specs.Names.{AreDistinct};
ghost use Rattle.fp_model.specs.ClassSet.{IsClassOver, AreFew, class_named, first_field_of, first_method_of};

use crate::class::{Class, ClassId, FieldId, MethodId};
use fp_base::Names;
use std::alloc::{AllocError, Global};

/// The number of the first class of each name of the table.
pub fn index_by_name(
    alloc: Global,
    classes: &[Class],
    names: &Names,
) -> Result<Vec<Option<ClassId>>, AllocError>
    requires over { All (IsClassOver names.now) classes.now }
    requires few { AreFew classes.now }
    ensures index { IfOk result (λ index. index.items ≡ map (class_named classes.now) (range_with_len 0 (length names.now))) }
    ensures distinct { AreDistinct names.now }
{
    let mut index = vec![in alloc; None; names.len() as usize]?;
    for (id, class) in classes.iter().enumerate() {
        let name = class.name as usize;
        index[name] = index[name].or(Some(id as ClassId));
    }
    Ok(index)
}

/// What the index has at a name, which may lie past its end.
pub fn find_by_name(index: &[Option<ClassId>], name: u32) -> Option<ClassId>
    ensures { result ≡ option_flatten (slice_get index.now name) }
{
    index.get(name as usize).copied().flatten()
}

/// The number of the first field of each class, and of its first method, and behind them how many there are.
#[derive(Drop)]
pub struct Firsts {
    pub fields: Vec<FieldId>,
    pub methods: Vec<MethodId>,
}

/// Counts the members of the classes.
pub fn first_members(alloc: Global, classes: &[Class]) -> Result<Firsts, AllocError>
    requires { AreFew classes.now }
    ensures fields { IfOk result (λ firsts. firsts.fields.items
        ≡ map (first_field_of classes.now) (range_with_len 0 (length classes.now + 1))) }
    ensures methods { IfOk result (λ firsts. firsts.methods.items
        ≡ map (first_method_of classes.now) (range_with_len 0 (length classes.now + 1))) }
{
    let mut fields = Vec::new(alloc);
    let mut methods = Vec::new(alloc);
    let mut field: FieldId = 0;
    let mut method: MethodId = 0;
    for class in classes {
        fields.push(field)?;
        methods.push(method)?;
        field += class.fields.len() as FieldId;
        method += class.methods.len() as MethodId;
    }
    fields.push(field)?;
    methods.push(method)?;
    Ok(Firsts { fields, methods })
}

/// The class that a member is of, by the number of the first member of each class.
pub fn owner(firsts: &[u32], id: u32) -> ClassId
    requires some { 0 < length firsts.now }
    requires few { length firsts.now ≤ 2 ^ 32 }
    requires above { slice_index firsts.now 0 ≤ id }
    requires below { id < slice_index firsts.now (length firsts.now - 1) }
    ensures class { result + 1 < length firsts.now }
    ensures from { slice_index firsts.now result ≤ id }
    ensures to { id < slice_index firsts.now (result + 1) }
{
    let mut low = 0;
    let mut high = firsts.len() - 1;
    while high - low > 1 {
        let middle = low + (high - low) / 2;
        if firsts[middle] <= id {
            low = middle;
        } else {
            high = middle;
        }
    }
    low as ClassId
}
