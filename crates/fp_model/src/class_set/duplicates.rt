//! Classes of one name.
ghost use Rattle.std.specs.Prelude.{◌≡◌, ◌<◌, ◌^◌, ◌==◌, length, map, count_by, IfOk, All};
ghost use Rattle.std.specs.List.{range_with_len};
ghost use Rattle.fp_model.specs.ClassSet.{IsClassOver, namesake_marks};

use crate::class::Class;
use fp_base::Names;
use std::alloc::{AllocError, Global};

/// Marks the classes whose name another class has too.
pub fn mark_namesakes(
    alloc: Global,
    classes: &[Class],
    names: &Names,
) -> Result<Vec<bool>, AllocError>
    requires over { All (IsClassOver names.now) classes.now }
    requires few { length classes.now < 2 ^ 32 }
    ensures { IfOk result (λ marks. marks.items ≡ namesake_marks classes.now) }
{
    let counts = count_names(alloc, classes, names)?;
    let mut marks = Vec::with_capacity(alloc, classes.len())?;
    for class in classes {
        marks.push(counts[class.name as usize] > 1)?;
    }
    Ok(marks)
}

// How many classes have each name of the table.
fn count_names(alloc: Global, classes: &[Class], names: &Names) -> Result<Vec<u32>, AllocError>
    requires over { All (IsClassOver names.now) classes.now }
    requires few { length classes.now < 2 ^ 32 }
    ensures { IfOk result (λ counts. counts.items
        ≡ map (λ name. count_by (λ c. c.name == name) classes.now) (range_with_len 0 (length names.now))) }
{
    let mut counts = vec![in alloc; 0; names.len() as usize]?;
    for class in classes {
        counts[class.name as usize] += 1;
    }
    Ok(counts)
}
