//! Small hierarchies, with what references and calls mean in them, each worked out by hand. The last class of each, Z, is abstract,
//! and its method has the calls of the table behind it, one after the other.
use super::files::load_files;
use fp_facts::CallTargets;
use fp_hier::{Hier, MethodName};
use fp_model::{ClassSet, Instr, MethodId};
use indexmap::IndexMap;
use std::alloc::{AllocError, Global};
use std::process::Abort;
use std::test::Fail;

/// The class files of A, of B and C, which extend it, and of D. The methods of A have the numbers 0 and 1, those of B 2 and 3, of C 4
/// and 5, of D 6.
const CHAINS: [&str; 5] = [
    "\
    cafebabe000000340009010001410700010100106a6176612f6c616e672f4f626a6563740700030100063c696e69743e0100032829560100\
    04436f64650100016d002100020004000000000002000100050006000100070000000d0001000100000001b1000000000001000800060001\
    00070000000d0001000100000001b1000000000000\
    ",
    "\
    cafebabe00000034000901000142070001010001410700030100063c696e69743e010003282956010004436f64650100016d002100020004\
    000000000002000100050006000100070000000d0001000100000001b100000000000100080006000100070000000d0001000100000001b1\
    000000000000\
    ",
    "\
    cafebabe00000034000901000143070001010001410700030100063c696e69743e010003282956010004436f64650100016d002100020004\
    000000000002000100050006000100070000000d0001000100000001b100000000000100080006000100070000000d0001000100000001b1\
    000000000000\
    ",
    "\
    cafebabe000000340008010001440700010100106a6176612f6c616e672f4f626a6563740700030100016e010003282956010004436f6465\
    002100020004000000000001000900050006000100070000000d0001000100000001b1000000000000\
    ",
    "\
    cafebabe0000003400230100015a0700010100106a6176612f6c616e672f4f626a6563740700030100017a01000328295601000141070007\
    0100016d0c000900060a0008000a0100014207000c0a000d000a0100014307000f0100063c696e69743e0c001100060a001000120a000400\
    12010001440700150100016e0c001700060a001600180100015807001a0a001b000a0100025b4907001d0a001e000a0a000400180a000400\
    0a010004436f64650421000200040000000000010009000500060001002200000041000100010000003501b6000b01b6000e01b7001301b7\
    001400b8001900b8000b01b7001901b6001901b7001c00b8001c01b6001f01b6002001b60021b1000000000000\
    ",
];

/// The methods that calls stand in, their forms, references, and what they can reach: calls of constructors and of methods by the
/// classes of the receivers; of the wrong staticness; of classes outside the set and of an array.
const CHAIN_CALLS: &str = "\
    6 virtual A.m;[1, 3, 5] [] 0:[0] 1:[1] 2:[2]\n\
    6 virtual B.m;[3] [] 1:[0]\n\
    6 special C.<init>;[4] [0]\n\
    6 special java/lang/Object.<init>;[] []\n\
    6 static D.n;[6] [0]\n\
    6 static A.m;[] []\n\
    6 special D.n;[] []\n\
    6 virtual D.n;[] [] 3:[0]\n\
    6 special X.m;[] [0]\n\
    6 static X.m;[] [0]\n\
    6 virtual [I.m;[] [0]\n\
    6 virtual java/lang/Object.n;[] [0]\n\
    6 virtual java/lang/Object.m;[1, 3, 5] [3] 0:[0] 1:[1] 2:[2]\n\
    ";

/// Interfaces in a diamond: H and K extend G, and A has both. B extends a class outside the set, C is abstract, and E has an interface
/// outside the set.
const DIAMOND: [&str; 9] = [
    "\
    cafebabe000000340008010001470700010100106a6176612f6c616e672f4f626a6563740700030100016d010003282956010004436f6465\
    060100020004000000000001000100050006000100070000000d0001000100000001b1000000000000\
    ",
    "\
    cafebabe000000340009010001480700010100106a6176612f6c616e672f4f626a656374070003010001470700050100016d010003282956\
    060100020004000100060000000104010007000800000000\
    ",
    "\
    cafebabe00000034000a0100014b0700010100106a6176612f6c616e672f4f626a656374070003010001470700050100016d010003282956\
    010004436f64650601000200040001000600000001000100070008000100090000000d0001000100000001b1000000000000\
    ",
    "\
    cafebabe000000340009010001410700010100106a6176612f6c616e672f4f626a656374070003010001480700050100014b070007002100\
    020004000200060008000000000000\
    ",
    "\
    cafebabe00000034000701000142070001010001580700030100014707000500210002000400010006000000000000\
    ",
    "\
    cafebabe00000034000701000143070001010001410700030100016d01000328295604210002000400000000000104010005000600000000\
    ",
    "\
    cafebabe00000034000701000144070001010001430700030100016e01000328295600210002000400000000000101090005000600000000\
    ",
    "\
    cafebabe00000034000a010001450700010100106a6176612f6c616e672f4f626a656374070003010001590700050100016d010003282956\
    010004436f64650021000200040001000600000001000200070008000100090000000d0001000100000001b1000000000000\
    ",
    "\
    cafebabe0000003400270100015a0700010100106a6176612f6c616e672f4f626a6563740700030100017a01000328295601000147070007\
    0100016d0c000900060b0008000a0100015807000c0a000d000a0100015907000f0a0010000a0a0004000a010001450700130a0014000a01\
    0001440700160100016e0c001800060a001700190100014807001b0a001c000a0a0017000a0a0008000a010001430700200a0021000a0100\
    01410700230a0024000a010004436f6465042100020004000000000001000900050006000100260000003b000100010000002f01b9000b01\
    0001b6000e01b6001101b6001201b6001500b8001a01b7001d01b6001e01b7001f01b7002201b70025b1000000000000\
    ",
];

/// Calls of methods of interfaces; of a private method, a native one and abstract ones; of what the direct superclass selects.
const DIAMOND_CALLS: &str = "\
    5 interface G.m;[0, 2] [] 3:[0, 1] 4:[0, 2]\n\
    5 virtual X.m;[0, 5] [2] 4:[0] 7:[1]\n\
    5 virtual Y.m;[0, 5] [2] 4:[0] 7:[1]\n\
    5 virtual java/lang/Object.m;[0, 2, 5] [3] 3:[0, 1] 4:[0] 7:[2]\n\
    5 virtual E.m;[5] [0]\n\
    5 static D.n;[] [0]\n\
    5 special H.m;[] []\n\
    5 virtual D.m;[] []\n\
    5 special G.m;[0] [0]\n\
    4 special C.m;[] []\n\
    4 special A.m;[] []\n\
    ";

/// Interfaces in a ring, with a field and a private method; classes in a chain, of which one has an interface of them.
const RING: [&str; 8] = [
    "\
    cafebabe00000034000c010001470700010100106a6176612f6c616e672f4f626a656374070003010001480700050100016e010001490100\
    016d010003282956010004436f64650601000200040001000600010000000700080000000100020009000a0001000b0000000d0001000100\
    000001b1000000000000\
    ",
    "\
    cafebabe000000340007010001480700010100106a6176612f6c616e672f4f626a6563740700030100014707000506010002000400010006\
    000000000000\
    ",
    "\
    cafebabe00000034000a010001410700010100106a6176612f6c616e672f4f626a6563740700030100016e010001490100016d0100032829\
    56010004436f64650021000200040000000100000005000600000001000100070008000100090000000d0001000100000001b10000000000\
    00\
    ",
    "\
    cafebabe00000034000701000142070001010001410700030100014707000500210002000400010006000000000000\
    ",
    "\
    cafebabe00000034000901000143070001010001420700030100016d010003282956010004436f64650100016e0021000200040000000000\
    02000100050006000100070000000d0001000100000001b100000000000100080006000100070000000d0001000100000001b10000000000\
    00\
    ",
    "\
    cafebabe000000340007010001440700010100106a6176612f6c616e672f4f626a6563740700030100014807000500210002000400010006\
    000000000000\
    ",
    "\
    cafebabe00000034000801000145070001010001430700030100063c696e69743e010003282956010004436f646500210002000400000000\
    0001000100050006000100070000000d0001000100000001b1000000000000\
    ",
    "\
    cafebabe00000034001a0100015a0700010100106a6176612f6c616e672f4f626a6563740700030100017a01000328295601000144070007\
    0100016d0c000900060a0008000a0100014707000c0b000d000a0100014107000f0a0010000a0a0004000a010001420700130100063c696e\
    69743e0c001500060a001400160a0014000a010004436f646504210002000400000000000100090005000600010019000000270001000100\
    00001b01b6000b01b9000e010001b7001101b7001201b7001701b60018b1000000000000\
    ",
];

/// Calls of methods of superclasses.
const RING_CALLS: &str = "\
    4 virtual D.m;[] [] 5:[0]\n\
    4 interface G.m;[0] [0]\n\
    4 special A.m;[2] [0]\n\
    4 special java/lang/Object.m;[2] [0]\n\
    4 special B.<init>;[] [0]\n\
    4 virtual B.m;[1, 2] [] 3:[0] 4:[1] 6:[1]\n\
    ";

/// The set of some class files.
fn set_of(alloc: Global, digits: &[&str]) -> Result<ClassSet, Fail> {
    let mut files = IndexMap::new(alloc);
    for digits in digits {
        let path = format!(in alloc; "d/{}.class", files.len())?;
        files.insert(path, hex::decode(alloc, *digits)?)?;
    }
    match load_files(alloc, files)? {
        Ok(loaded) => Ok(loaded.set),
        Err(_) => Err("refused".into()),
    }
}

/// The targets, the bits of what is always reached, and the classes with theirs.
fn targets_text(alloc: Global, found: &CallTargets) -> Result<String, AllocError> {
    let mut text = format!(in alloc;
        "{:?} {:?}",
        found.targets.as_slice(),
        found.always.as_slice()
    )?;
    for (class, bits) in found.watch.as_slice() {
        let part = format!(in alloc; " {class}:{:?}", bits.as_slice())?;
        text.push_str(part.as_str())?;
    }
    Ok(text)
}

/// The call of a number in the method of the last class, each behind one other instruction.
fn call_of(set: &ClassSet, number: usize) -> Option<&Instr> {
    let (_classes, _fields, methods) = set.counts();
    if methods == 0 {
        return None;
    }
    let code = set.method(methods - 1).code.as_ref()?;
    let place = number.saturating_mul(2).saturating_add(1);
    let (_pc, instr) = code.instrs.as_slice().get(place)?;
    Some(instr)
}

/// What a call can reach that stands in a method.
fn reached(alloc: Global, set: &ClassSet, method: MethodId, number: usize) -> Result<String, Fail> {
    let hier = Hier::build(alloc, set)?;
    let (_classes, _fields, methods) = set.counts();
    if method >= methods {
        return Err("no method".into());
    }
    let call = call_of(set, number).ok_or("no call")?;
    let found = hier.candidates(alloc, set, method, call)?;
    Ok(targets_text(alloc, &found)?)
}

fn check_calls(rt: &impl Abort, alloc: Global, digits: &[&str], table: &str) -> Result<(), Fail> {
    let set = set_of(alloc, digits)?;
    for (number, line) in table.lines().enumerate() {
        let (call, wanted) = line.split_once(';').ok_or("no answer")?;
        let (method, _call) = call.split_once(' ').ok_or("no method")?;
        let text = reached(alloc, &set, method.parse::<u32>()?, number)?;
        assert_eq!(rt; text.as_str(), wanted, "at {line}");
    }
    Ok(())
}

#[test]
fn calls_reach_what_receivers_select(rt: HostRuntime) -> Result<(), Fail> {
    check_calls(&rt, rt.alloc(), &CHAINS, CHAIN_CALLS)
}

#[test]
fn calls_reach_methods_of_interfaces(rt: HostRuntime) -> Result<(), Fail> {
    check_calls(&rt, rt.alloc(), &DIAMOND, DIAMOND_CALLS)
}

#[test]
fn calls_reach_methods_of_superclasses(rt: HostRuntime) -> Result<(), Fail> {
    check_calls(&rt, rt.alloc(), &RING, RING_CALLS)
}

/// What a reference means: a method by its class and name, or a field where it is an int's; none also where the set has no such text.
fn meant(alloc: Global, set: &ClassSet, reference: &str, descr: &[u8]) -> Result<String, Fail> {
    let (class, name) = reference.split_once('.').ok_or("no name")?;
    let hier = Hier::build(alloc, set)?;
    let names = set.names();
    let class = names.find(class.as_bytes()).ok_or("no class")?;
    let name = names.find(name.as_bytes()).ok_or("no name")?;
    let number = names.find(descr).ok_or("no descriptor")?;
    let found = if descr == b"I".as_slice() {
        hier.resolve_field(set, class, name, number)
    } else {
        hier.resolve_method(set, class, name, number)
    };
    Ok(format!(in alloc; "{found:?}")?)
}

fn check_references(
    rt: &impl Abort,
    alloc: Global,
    digits: &[&str],
    descr: &[u8],
    table: &str,
) -> Result<(), Fail> {
    let set = set_of(alloc, digits)?;
    for line in table.lines() {
        let (reference, wanted) = line.split_once(';').ok_or("no answer")?;
        let text = meant(alloc, &set, reference, descr)?;
        assert_eq!(rt; text.as_str(), wanted, "at {line}");
    }
    Ok(())
}

/// References, and the numbers of the methods that they mean.
const CHAIN_REFERENCES: &str = "\
    D.m;None\n\
    B.m;Some(3)\n\
    C.n;None\n\
    X.m;None\n\
    [I.m;None\n\
    ";

/// The same of methods of interfaces.
const DIAMOND_REFERENCES: &str = "\
    A.m;Some(0)\n\
    H.m;Some(1)\n\
    C.m;Some(3)\n\
    D.m;Some(3)\n\
    D.n;Some(4)\n\
    B.m;Some(0)\n\
    E.m;Some(5)\n\
    E.n;None\n\
    ";

/// The same of a ring of interfaces.
const RING_REFERENCES: &str = "\
    D.m;None\n\
    G.m;Some(0)\n\
    E.n;Some(3)\n\
    ";

/// References, and the numbers of the fields that they mean: those of interfaces come before those of superclasses.
const RING_FIELDS: &str = "\
    A.n;Some(1)\n\
    B.n;Some(0)\n\
    C.n;Some(0)\n\
    D.n;Some(0)\n\
    H.n;Some(0)\n\
    java/lang/Object.n;None\n\
    E.m;None\n\
    ";

#[test]
fn references_mean_declarations(rt: HostRuntime) -> Result<(), Fail> {
    check_references(&rt, rt.alloc(), &CHAINS, b"()V", CHAIN_REFERENCES)?;
    check_references(&rt, rt.alloc(), &DIAMOND, b"()V", DIAMOND_REFERENCES)?;
    check_references(&rt, rt.alloc(), &RING, b"()V", RING_REFERENCES)?;
    check_references(&rt, rt.alloc(), &RING, b"I", RING_FIELDS)
}

/// The methods that the last class but one selects for a name, and whether a method outside the set may be.
fn selected_text(alloc: Global, set: &ClassSet, name: &[u8]) -> Result<String, Fail> {
    let hier = Hier::build(alloc, set)?;
    let name = set.names().find(name).ok_or("no name")?;
    let descr = set.names().find(b"()V").ok_or("no descriptor")?;
    let (classes, _fields, _methods) = set.counts();
    if classes < 2 {
        return Err("no classes".into());
    }
    let named = MethodName {
        name,
        descr,
        resolved: None,
    };
    let selected = hier.select(alloc, set, classes - 2, named)?;
    Ok(format!(in alloc; "{:?} {}", selected.methods.as_slice(), selected.outside)?)
}

#[test]
fn an_object_selects_the_nearest_declaration(rt: HostRuntime) -> Result<(), Fail> {
    let set = set_of(rt.alloc(), &RING)?;
    let text = selected_text(rt.alloc(), &set, b"m")?;
    assert_eq!(rt; text.as_str(), "[2] false");
    Ok(())
}
