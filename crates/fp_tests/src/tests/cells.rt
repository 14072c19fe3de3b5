//! Cells and their places, and the texts of their values.
ghost use Rattle.std.specs.Prelude.{◌<◌, IfOk, length};

use super::table::check;
use fp_cells::{Cells, Entity, KindId, count_places, law_places, law_texts, value_text};
use fp_model::SiteId;
use std::alloc::{AllocError, Global};
use std::test::Fail;

/// Adds a cell of few bits that is not there yet.
fn add_new(
    cells: &mut Cells,
    kind: KindId,
    entity: Entity,
    bits: u32,
) -> Result<Option<u32>, AllocError> {
    if cells.find(kind, entity).is_some() || bits > 1000 || cells.places() > 1000 {
        return Ok(None);
    }
    let place = cells.add(kind, entity, bits)?;
    Ok(Some(place))
}

const SITE: Entity = Entity::Site(SiteId { method: 3, pc: 7 });

/// Five cells: of one place, one, two, four and one.
fn filled(alloc: Global) -> Result<Cells, AllocError> {
    let mut cells = Cells::new(alloc);
    for (kind, entity, bits) in [
        (KindId::Reach, Entity::Method(3), 1),
        (KindId::Leak, Entity::Method(3), 64),
        (KindId::Purity, Entity::Method(3), 65),
        (KindId::Callees, SITE, 200),
        (KindId::Leak, Entity::Method(4), 0),
    ] {
        add_new(&mut cells, kind, entity, bits)?;
    }
    Ok(cells)
}

/// The cells of places, and those that begin there.
fn places_text(alloc: Global, cells: &Cells, places: &[u32]) -> Result<String, AllocError> {
    let mut texts = Vec::new(alloc);
    for &place in places {
        let cell = cells.cell_of(place);
        let bits = cells.begins(place).map(|begun| begun.2);
        texts.push(format!(in alloc; "{place} {cell:?} {bits:?}")?)?;
    }
    texts.join(alloc, "; ")
}

#[test]
fn a_place_leads_back_to_its_cell(rt: HostRuntime) -> Result<(), Fail> {
    let cells = filled(rt.alloc())?;
    let text = places_text(rt.alloc(), &cells, &[0, 2, 3, 4, 7, 8, 9])?;
    assert_eq!(rt;
        text.as_str(),
        "0 Some((Reach, Method(3))) Some(1); 2 Some((Purity, Method(3))) Some(65); 3 Some((Purity, Method(3))) None; 4 Some((Callees, Site(SiteId { method: 3, pc: 7 }))) Some(200); 7 Some((Callees, Site(SiteId { method: 3, pc: 7 }))) None; 8 Some((Leak, Method(4))) Some(0); 9 None None"
    );
    Ok(())
}

/// What cells tell of themselves, of two cells by number, and of two by kind and entity.
fn cells_text(alloc: Global, cells: &Cells) -> Result<String, AllocError> {
    let found = cells.find(KindId::Purity, Entity::Method(3));
    let absent = cells.find(KindId::Purity, Entity::Class(3));
    format!(in alloc;
        "{} {} {} {:?} {:?} {found:?} {absent:?}",
        cells.len(),
        cells.places(),
        cells.is_empty(),
        cells.cell(2),
        cells.cell(5)
    )
}

#[test]
fn cells_stand_in_the_order_of_adding(rt: HostRuntime) -> Result<(), Fail> {
    let cells = filled(rt.alloc())?;
    let text = cells_text(rt.alloc(), &cells)?;
    assert_eq!(rt;
        text.as_str(),
        "5 9 false Some((Purity, Method(3), 65)) None Some(2) None"
    );
    law_places();
    law_texts();
    Ok(())
}

#[test]
fn a_word_holds_64_bits(rt: HostRuntime) {
    for (bits, places) in [(0, 1), (64, 1), (65, 2), (u32::MAX, 67_108_864)] {
        assert_eq!(rt; count_places(bits), places);
    }
}

/// Kinds and words of a value in hexadecimal digits, and the text of that value.
const VALUES: &str = "\
    Declared 0;final\n\
    Declared 1;open\n\
    Declared fffffffffffffffc;final\n\
    Inst 0;absent\n\
    Inst 3;present\n\
    Reach 2;unreached\n\
    Reach 1;reached\n\
    Callees 0;-\n\
    Callees 1;outside\n\
    Callees fffffffffffffffc;-\n\
    Assign 0;final\n\
    Assign 1;assignable\n\
    Immut 0;deep\n\
    Immut 1;shallow\n\
    Immut 2;mutable\n\
    Immut 3;mutable\n\
    Immut fffffffffffffffc;deep\n\
    Timmut 0;deep\n\
    Timmut fffffffffffffffd;shallow\n\
    Timmut 2;mutable\n\
    Fresh 0;fresh\n\
    Fresh 1;other\n\
    Leak 0;-\n\
    Leak 1;0\n\
    Leak 8000000000000403;0,1,10,63\n\
    Leak 8000000000000000 5;63,64,66\n\
    Escape 0;none\n\
    Escape 1;caller\n\
    Escape 2;global\n\
    Escape 3;global\n\
    Purity 0;pure\n\
    Purity 1;sef\n\
    Purity 2;impure\n\
    Purity 3;impure\n\
    Purity 4;context 0\n\
    Purity d;scontext 0,1\n\
    Purity f;impure\n\
    Purity 8000000000000000;context 61\n\
    Purity 1 4;scontext 64\n\
    ";

fn kind_of(name: &str) -> KindId {
    match name {
        "Declared" => KindId::Declared,
        "Inst" => KindId::Inst,
        "Reach" => KindId::Reach,
        "Callees" => KindId::Callees,
        "Assign" => KindId::Assign,
        "Immut" => KindId::Immut,
        "Timmut" => KindId::Timmut,
        "Fresh" => KindId::Fresh,
        "Leak" => KindId::Leak,
        "Escape" => KindId::Escape,
        _ => KindId::Purity,
    }
}

/// The text of a value of one word, or of two where the kind has a bit for each argument.
fn text_of(alloc: Global, kind: KindId, words: &[u64]) -> Result<Vec<u8>, AllocError> {
    let mut text = Vec::new(alloc);
    if words.len() == 1 {
        one_text(kind, words[0], &mut text)?;
    } else if words.len() == 2 && kind == KindId::Leak {
        value_text(KindId::Leak, words, &[], &mut text)?;
    } else if words.len() == 2 && kind == KindId::Purity {
        value_text(KindId::Purity, words, &[], &mut text)?;
    }
    Ok(text)
}

/// Appends the text of a value of one word.
fn one_text(kind: KindId, word: u64, to: &mut Vec<u8>) -> Result<(), AllocError> {
    match kind {
        KindId::Declared => value_text(KindId::Declared, &[word], &[], to),
        KindId::Inst => value_text(KindId::Inst, &[word], &[], to),
        KindId::Reach => value_text(KindId::Reach, &[word], &[], to),
        KindId::Callees => value_text(KindId::Callees, &[word], &[], to),
        KindId::Assign => value_text(KindId::Assign, &[word], &[], to),
        KindId::Immut => value_text(KindId::Immut, &[word], &[], to),
        KindId::Timmut => value_text(KindId::Timmut, &[word], &[], to),
        KindId::Fresh => value_text(KindId::Fresh, &[word], &[], to),
        KindId::Leak => value_text(KindId::Leak, &[word], &[], to),
        KindId::Escape => value_text(KindId::Escape, &[word], &[], to),
        KindId::Purity => value_text(KindId::Purity, &[word], &[], to),
    }
}

/// The words of hexadecimal digits with spaces between them.
fn words_of(alloc: Global, digits: &str) -> Result<Vec<u64>, Fail> {
    let mut words = Vec::new(alloc);
    for word in digits.split(' ') {
        words.push(u64::from_str_radix(word, 16)?)?;
    }
    Ok(words)
}

fn told(alloc: Global, input: &str) -> Result<String, Fail> {
    let (kind, digits) = input.split_once(' ').ok_or("no kind")?;
    let words = words_of(alloc, digits)?;
    let text = text_of(alloc, kind_of(kind), &words)?;
    Ok(String::from_utf8(text).ok().ok_or("no text")?)
}

#[test]
fn each_value_has_its_text(rt: HostRuntime) -> Result<(), Fail> {
    check(&rt, rt.alloc(), VALUES, told)
}

/// How many targets a call site has, and the words of its value in hexadecimal digits.
const CALLEES: &str = "\
    2 8;-\n\
    2 2;B.f()V\n\
    2 d;A.f()V,outside\n\
    64 1 1;A.f()V,outside\n\
    64 8000000000000000 2;C\n\
    ";

/// So many targets, of which the first two have names of their own.
fn targets_of(alloc: Global, count: usize) -> Result<Vec<Vec<u8>>, AllocError>
    ensures { IfOk result (λ targets. length targets.items < 1000) }
{
    let mut targets = Vec::new(alloc);
    targets.push(Vec::from_slice(alloc, b"A.f()V")?)?;
    targets.push(Vec::from_slice(alloc, b"B.f()V")?)?;
    for _ in 2..count.min(100) {
        targets.push(Vec::from_slice(alloc, b"C")?)?;
    }
    if targets.len() >= 1000 {
        return Err(AllocError);
    }
    Ok(targets)
}

/// The text of a call site's value over so many targets.
fn callees_text(alloc: Global, count: usize, words: &[u64]) -> Result<Vec<u8>, AllocError> {
    let targets = targets_of(alloc, count)?;
    let mut text = Vec::new(alloc);
    if words.len() == targets.len() / 64 + 1 {
        value_text(KindId::Callees, words, &targets, &mut text)?;
    }
    Ok(text)
}

fn told_callees(alloc: Global, input: &str) -> Result<String, Fail> {
    let (count, digits) = input.split_once(' ').ok_or("no count")?;
    let words = words_of(alloc, digits)?;
    let text = callees_text(alloc, count.parse::<usize>()?, &words)?;
    Ok(String::from_utf8(text).ok().ok_or("no text")?)
}

#[test]
fn callees_are_named_up_to_the_outside(rt: HostRuntime) -> Result<(), Fail> {
    check(&rt, rt.alloc(), CALLEES, told_callees)
}
