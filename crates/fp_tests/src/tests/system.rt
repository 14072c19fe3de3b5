//! The system of one small class, for several words.
use super::files::{job_of, load_file};
use fp_cells::{Entity, KindId};
use fp_eqs::rounds;
use fp_model::LimitName;
use fp_system::{JavaSystem, SystemFault, check_limits};
use std::alloc::Global;
use std::test::Fail;

/// The class file of a class `A` with a final field `x` of descriptor `I`, and with the methods `m`, which has code, and `n`, which
/// has none, from an array of ints to an array of ints.
const FILE: &str = "\
    cafebabe00000034000b010001410700010100106a6176612f6c616e672f4f626a65637407000301000178010001490100016d0100016e01\
    0006285b49295b49010004436f646500210002000400000001001000050006000000020001000700090001000a0000000e00010002000000\
    022bb00000000004010008000900000000\
    ";

/// The system of that class for the words of a run, or what is refused of them.
fn system(alloc: Global, words: &str) -> Result<Result<JavaSystem, SystemFault>, Fail> {
    let loaded = load_file(alloc, hex::decode(alloc, FILE)?)?;
    let job = job_of(alloc, words)?;
    Ok(JavaSystem::build(alloc, &loaded, &job))
}

const SHOWN: &str =
    "--analyses declared --show declared,reach=A.m([I)[I,fresh,leak=A.n([I)[I,purity --workers 1 d A.m([I)[I";

/// The system for those words.
fn shown_system(alloc: Global) -> Result<JavaSystem, Fail> {
    match system(alloc, SHOWN)? {
        Ok(system) => Ok(system),
        Err(_) => Err("refused".into()),
    }
}

#[test]
fn a_class_with_a_field_and_two_methods_has_eleven_cells(rt: HostRuntime) -> Result<(), Fail> {
    let system = shown_system(rt.alloc())?;
    for (kind, entity, place) in [
        (KindId::Declared, Entity::Class(0), Some(0)),
        (KindId::Inst, Entity::Class(0), Some(1)),
        (KindId::Reach, Entity::Method(0), Some(2)),
        (KindId::Reach, Entity::Method(1), None),
        (KindId::Assign, Entity::Field(0), Some(3)),
        (KindId::Immut, Entity::Class(0), Some(4)),
        (KindId::Timmut, Entity::Class(0), Some(5)),
        (KindId::Fresh, Entity::Method(0), Some(6)),
        (KindId::Fresh, Entity::Method(1), None),
        (KindId::Leak, Entity::Method(0), Some(7)),
        (KindId::Leak, Entity::Method(1), Some(8)),
        (KindId::Purity, Entity::Method(0), Some(9)),
        (KindId::Purity, Entity::Method(1), Some(10)),
    ] {
        let found = system.cells().find(kind, entity);
        assert_eq!(rt; found, place, "{kind:?} {entity:?}");
    }
    Ok(())
}

/// The first places of the shown cells, how many call sites have targets, and the values of the solved system.
fn solved_text(alloc: Global, system: &JavaSystem) -> Result<String, Fail> {
    let solved = rounds(alloc, system)?;
    let shown = system.shown_cells();
    let sites = system.targets().len();
    Ok(format!(in alloc; "{shown:?} {sites} {:?}", solved.values.as_slice())?)
}

#[test]
fn kinds_that_are_not_run_stand_at_their_fallback(rt: HostRuntime) -> Result<(), Fail> {
    let system = shown_system(rt.alloc())?;
    let text = solved_text(rt.alloc(), &system)?;
    assert_eq!(rt;
        text.as_str(),
        "[0, 2, 6, 8, 9, 10] 0 [0, 1, 1, 1, 3, 3, 1, 3, 3, 15, 15]"
    );
    Ok(())
}

/// An analysis, a root and a shown item, and the word that is refused, if one is.
const REFUSED: &str = "\
    declared A.m([I)[I assign=A.x:I;none\n\
    declared A.m([I)[I declared=B;item declared=B\n\
    declared A.m([I)[I nope;item nope\n\
    declared A.m([I)[I leak=A.m;item leak=A.m\n\
    declared A.m([I)[I reach=A.n([I)[I;item reach=A.n([I)[I\n\
    declared A.n([I)[I nope;root A.n([I)[I\n\
    declared A.m declared;root A.m\n\
    declared nope declared;root nope\n\
    nope A.m([I)[I declared;analysis nope\n\
    nope nope nope;analysis nope\n\
    ";

/// Which word is refused, and as what.
fn refusal_text(alloc: Global, built: &Result<JavaSystem, SystemFault>) -> Result<String, Fail> {
    let text = match built {
        Ok(_) => String::from_str(alloc, "none"),
        Err(SystemFault::Analysis(name)) => format!(in alloc; "analysis {name}"),
        Err(SystemFault::Root(root)) => format!(in alloc; "root {root}"),
        Err(SystemFault::Show(item)) => format!(in alloc; "item {item}"),
        Err(_) => String::from_str(alloc, "another"),
    };
    Ok(text?)
}

fn refused(alloc: Global, row: &str) -> Result<String, Fail> {
    let (analysis, rest) = row.split_once(' ').ok_or("no root")?;
    let (root, item) = rest.split_once(' ').ok_or("no item")?;
    let words = format!(in alloc;
        "--analyses {analysis} --show assign,{item} --workers 1 d {root}"
    )?;
    let built = system(alloc, words.as_str())?;
    refusal_text(alloc, &built)
}

#[test]
fn words_that_name_nothing_are_refused(rt: HostRuntime) -> Result<(), Fail> {
    for line in REFUSED.lines() {
        let (row, wanted) = line.rsplit_once(';').ok_or("no answer")?;
        let text = refused(rt.alloc(), row)?;
        assert_eq!(rt; text.as_str(), wanted, "at {line}");
    }
    Ok(())
}

#[test]
fn each_bound_is_the_last_that_passes(rt: HostRuntime) {
    for (places, uses, gives, wanted) in [
        (1_048_576, 16_777_216, 16_777_216, Ok(())),
        (
            1_048_577,
            16_777_217,
            0,
            Err((LimitName::Places, 1_048_576)),
        ),
        (
            0,
            16_777_217,
            16_777_217,
            Err((LimitName::Uses, 16_777_216)),
        ),
        (0, 0, 16_777_217, Err((LimitName::Gives, 16_777_216))),
    ] {
        assert_eq!(rt; check_limits(places, uses, gives), wanted);
    }
}
