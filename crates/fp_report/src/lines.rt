//! The lines of a report.
ghost use Rattle.std.specs.Prelude.{◌≡◌, ◌≢◌, [], ◌+◌, ◌<◌, ◌≤◌, ◌++◌, ◌∷◌, Some, None, length, map, slice_index, unwrap_or, slice_get, string_bytes, All, true, IfOk, if◌then◌else◌};
ghost use Rattle.fp_eqs.specs.Solved.{flag_at};
ghost use Rattle.fp_model.specs.ClassSet.{methods_of};
ghost use Rattle.std.specs.List.{range_with_len};
ghost use Rattle.fp_cells.specs.Cells.{cell_from, total_places};
ghost use Rattle.fp_cells.specs.Entities.{IsEntityOf, entity_text, kind_text};
ghost use Rattle.fp_report.specs.Sites.{are_ascending};
ghost use Rattle.fp_cells.specs.Texts.{FitsKind, value_text_of};
ghost use Rattle.fp_report.specs.Report.{cell_line, cell_targets, count_line, demanded_from, line_at, report, target_texts, IsCellOf, IsReportable};

use crate::targets::{are_ascending, targets_of};
use fp_base::sort_texts;
use fp_cells::{
    Cells, Entity, JavaView, KindId, append_entity, count_places, kind_text, value_text,
};
use fp_eqs::Solved;
use fp_model::{ClassSet, MethodId, SiteId};
use sqlite_items::Items;
use std::alloc::{AllocError, Global};

/// The lines of the report, in order, each with its end.
pub fn report_lines(
    alloc: Global,
    set: &ClassSet,
    system: &JavaView<'_>,
    solved: &Solved,
) -> Result<Vec<Vec<u8>>, AllocError>
    requires { IsReportable set.now system.now.cells.now system.now.targets.now system.now.shown.now (length solved.now.values) (length solved.now.wanted) }
    ensures { IfOk result (λ lines. map (λ l. l.items) lines.items ≡ report set.now system.now.cells.now system.now.targets.now system.now.shown.now (slice_index solved.now.values) (flag_at solved.now.wanted)) }
{
    let is_ascending = are_ascending(system.targets);
    let lines = shown_lines(alloc, set, system, is_ascending, solved.values.as_slice())?;
    let sorted = sort_texts(lines)?;
    let mut ended = end_lines(alloc, sorted)?;
    let count = count_demanded(system.cells, solved.wanted.as_slice());
    let line = format!(in alloc; "cells {count}\n")?;
    ended.push(line.into_bytes())?;
    Ok(ended)
}

/// The lines of the shown cells, in the order of their places, without their ends; it is known of the sites whether they ascend.
fn shown_lines(
    alloc: Global,
    set: &ClassSet,
    system: &JavaView<'_>,
    is_ascending: bool,
    values: &[u64],
) -> Result<Vec<Vec<u8>>, AllocError>
    requires order { is_ascending ≡ true → are_ascending system.now.targets.now ≡ true }
    requires cells { All (IsCellOf set.now system.now.targets.now) system.now.cells.now }
    requires shown { All (λ p. cell_from system.now.cells.now 0 p ≢ None) system.now.shown.now }
    requires values { length values.now ≡ total_places system.now.cells.now }
    ensures { IfOk result (λ lines. map (λ l. l.items) lines.items ≡ map (line_at set.now system.now.cells.now system.now.targets.now (slice_index values.now)) system.now.shown.now) }
{
    let mut lines = Vec::with_capacity(alloc, system.shown.len())?;
    for place in system.shown {
        let line = shown_line(alloc, set, system, is_ascending, values, *place)?;
        lines.push(line)?;
    }
    Ok(lines)
}

/// The line of the cell whose first place this is.
fn shown_line(
    alloc: Global,
    set: &ClassSet,
    system: &JavaView<'_>,
    is_ascending: bool,
    values: &[u64],
    place: u32,
) -> Result<Vec<u8>, AllocError>
    requires order { is_ascending ≡ true → are_ascending system.now.targets.now ≡ true }
    requires cells { All (IsCellOf set.now system.now.targets.now) system.now.cells.now }
    requires there { cell_from system.now.cells.now 0 place ≢ None }
    requires values { length values.now ≡ total_places system.now.cells.now }
    ensures { IfOk result (λ line. line.items ≡ line_at set.now system.now.cells.now system.now.targets.now (slice_index values.now) place) }
{
    let Some((kind, entity, bits)) = system.cells.begins(place) else {
        unreachable!()
    };
    let methods = cell_targets(system.targets, is_ascending, kind, entity);
    let targets = target_texts(alloc, set, methods)?;
    let words = words_at(values, place, count_places(bits));
    line_of(alloc, set, kind, entity, words, &targets)
}

/// The words of so many places, from one on.
fn words_at(values: &[u64], first: u32, count: u32) -> &[u64]
    requires { first + count ≤ length values.now }
    ensures { result.now ≡ map (slice_index values.now) (range_with_len first count) }
{
    let start = first as usize;
    &values[start..start + count as usize]
}

/// The line of a cell, by its words and the texts of its targets.
fn line_of(
    alloc: Global,
    set: &ClassSet,
    kind: KindId,
    entity: Entity,
    words: &[u64],
    targets: &[Vec<u8>],
) -> Result<Vec<u8>, AllocError>
    requires entity { IsEntityOf set.now entity }
    requires places { FitsKind kind (length words.now) (length targets.now) }
    ensures { IfOk result (λ line. line.items ≡ kind_text kind ++ (32 ∷ (entity_text set.now entity ++ (32 ∷ value_text_of kind words.now (map (λ t. t.items) targets.now))))) }
{
    let mut line = Vec::from_slice(alloc, kind_text(kind))?;
    line.push(b' ')?;
    append_entity(set, entity, &mut line)?;
    line.push(b' ')?;
    value_text(kind, words, targets, &mut line)?;
    Ok(line)
}

/// The methods that a cell has a bit for.
fn cell_targets<'a>(
    targets: &'a [(SiteId, Items<MethodId>)],
    is_ascending: bool,
    kind: KindId,
    entity: Entity,
) -> &'a [MethodId]
    requires { is_ascending ≡ true → are_ascending targets.now ≡ true }
    ensures { result.now ≡ cell_targets targets.now kind entity }
{
    match (kind, entity) {
        (KindId::Callees, Entity::Site(site)) => targets_of(targets, is_ascending, site),
        _ => &[],
    }
}

/// The texts of methods.
fn target_texts(
    alloc: Global,
    set: &ClassSet,
    methods: &[MethodId],
) -> Result<Vec<Vec<u8>>, AllocError>
    requires { All (λ m. m < length (methods_of set.now.classes)) methods.now }
    ensures { IfOk result (λ texts. map (λ t. t.items) texts.items ≡ target_texts set.now methods.now) }
{
    let mut texts = Vec::with_capacity(alloc, methods.len())?;
    for method in methods {
        let mut text = Vec::new(alloc);
        append_entity(set, Entity::Method(*method), &mut text)?;
        texts.push(text)?;
    }
    Ok(texts)
}

/// Lines with their ends.
fn end_lines(alloc: Global, lines: Vec<Vec<u8>>) -> Result<Vec<Vec<u8>>, AllocError>
    ensures { IfOk result (λ ended. map (λ l. l.items) ended.items ≡ map (λ line. line ++ 10 ∷ []) (map (λ l. l.items) lines.items)) }
{
    let mut ended = Vec::with_capacity(alloc, lines.len())?;
    for mut line in lines {
        line.push(b'\n')?;
        ended.push(line)?;
    }
    Ok(ended)
}

/// How many cells are demanded.
fn count_demanded(cells: &Cells, wanted: &[bool]) -> usize
    requires { length wanted.now ≡ total_places cells.now }
    ensures { result ≡ demanded_from (flag_at wanted.now) 0 cells.now }
{
    let mut count = 0;
    let mut first = 0usize;
    for i in 0..cells.len() {
        let Some((_, _, bits)) = cells.cell(i) else {
            unreachable!()
        };
        count += one_if(wanted[first]);
        first += count_places(bits) as usize;
    }
    count
}

/// 1 for a flag that is set, else 0.
fn one_if(flag: bool) -> usize
    ensures { result ≡ (if flag then 1 else 0) }
{
    usize::from(flag)
}
