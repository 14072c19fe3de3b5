//! Which methods the calls of class files can reach, and what their references mean, worked out by hand.
use super::files::load_files;
use fp_facts::CallTargets;
use fp_hier::Hier;
use fp_model::{ClassSet, MethodId};
use indexmap::IndexMap;
use std::alloc::{AllocError, Global};
use std::test::Fail;

/// The class files of A, of B and C, which extend A, and of M, whose main method makes an object of B and calls m of it, by a
/// reference to that of A; m of B makes an object of C. The methods have the numbers 0 and 1 in A, 2 and 3 in B, 4 and 5 in C,
/// and 6 in M.
const CLASSES: [&str; 4] = [
    "\
    cafebabe00000034000b010001410700010100106a6176612f6c616e672f4f626a6563740700030100063c696e69743e0100032829560100\
    04436f64650c000500060a000400080100016d002100020004000000000002000100050006000100070000001100010001000000052ab700\
    09b1000000000001000a0006000100070000000d0000000100000001b1000000000000\
    ",
    "\
    cafebabe00000034000e01000142070001010001410700030100063c696e69743e010003282956010004436f64650c000500060a00040008\
    0100016d0100014307000b0a000c0008002100020004000000000002000100050006000100070000001100010001000000052ab70009b100\
    0000000001000a000600010007000000150002000100000009bb000c59b7000d57b1000000000000\
    ",
    "\
    cafebabe00000034000b01000143070001010001410700030100063c696e69743e010003282956010004436f64650c000500060a00040008\
    0100016d002100020004000000000002000100050006000100070000001100010001000000052ab70009b1000000000001000a0006000100\
    070000000d0000000100000001b1000000000000\
    ",
    "\
    cafebabe0000003400120100014d0700010100106a6176612f6c616e672f4f626a6563740700030100046d61696e01000328295601000443\
    6f6465010001420700080100063c696e69743e0c000a00060a0009000b0100014107000d0100016d0c000f00060a000e0010002100020004\
    0000000000010009000500060001000700000017000200000000000bbb000959b7000cb60011b1000000000000\
    ",
];

fn four_classes(alloc: Global) -> Result<ClassSet, Fail> {
    let mut files = IndexMap::new(alloc);
    for digits in CLASSES {
        let path = format!(in alloc; "d/{}.class", files.len())?;
        files.insert(path, hex::decode(alloc, digits)?)?;
    }
    match load_files(alloc, files)? {
        Ok(loaded) => Ok(loaded.set),
        Err(_) => Err("refused".into()),
    }
}

/// The targets, the bits of what is always reached, and the classes with theirs.
fn targets_text(alloc: Global, found: &CallTargets) -> Result<String, AllocError> {
    let mut text = format!(in alloc;
        "{:?} {:?}",
        found.targets.as_slice(),
        found.always.as_slice()
    )?;
    for (class, bits) in found.watch.as_slice() {
        let part = format!(in alloc; " {class}:{:?}", bits.as_slice())?;
        text.push_str(part.as_str())?;
    }
    Ok(text)
}

/// What an instruction of a method can reach, by the numbers of both.
fn reached(
    alloc: Global,
    set: &ClassSet,
    method: MethodId,
    number: usize,
) -> Result<String, AllocError> {
    let hier = Hier::build(alloc, set)?;
    let (_classes, _fields, methods) = set.counts();
    if method >= methods {
        return String::from_str(alloc, "no method");
    }
    let Some(code) = &set.method(method).code else {
        return String::from_str(alloc, "no code");
    };
    let Some((_pc, instr)) = code.instrs.as_slice().get(number) else {
        return String::from_str(alloc, "no instruction");
    };
    let found = hier.candidates(alloc, set, method, instr)?;
    targets_text(alloc, &found)
}

#[test]
fn calls_reach_what_receivers_select(rt: HostRuntime) -> Result<(), Fail> {
    let set = four_classes(rt.alloc())?;
    for (method, number, wanted) in [
        // The call of m, and the constructors that the main method and m of B call.
        (6, 3, "[1, 3, 5] [] 0:[0] 1:[1] 2:[2]"),
        (6, 2, "[2] [0]"),
        (3, 2, "[4] [0]"),
        // No call, and the empty constructor.
        (6, 0, "[] []"),
        (0, 1, "[] []"),
    ] {
        let text = reached(rt.alloc(), &set, method, number)?;
        assert_eq!(rt; text.as_str(), wanted);
    }
    Ok(())
}

/// The method that a reference means, by its texts; none also where the set has no such text.
fn resolved(alloc: Global, set: &ClassSet, class: &str) -> Result<Option<MethodId>, AllocError> {
    let hier = Hier::build(alloc, set)?;
    let names = set.names();
    let class = names.find(class.as_bytes());
    let name = names.find(b"m");
    let descr = names.find(b"()V");
    let (Some(class), Some(name), Some(descr)) = (class, name, descr) else {
        return Ok(None);
    };
    Ok(hier.resolve_method(set, class, name, descr))
}

#[test]
fn references_mean_declarations(rt: HostRuntime) -> Result<(), Fail> {
    let set = four_classes(rt.alloc())?;
    for (class, wanted) in [("M", None), ("A", Some(1)), ("C", Some(5))] {
        assert_eq!(rt; resolved(rt.alloc(), &set, class)?, wanted);
    }
    Ok(())
}
