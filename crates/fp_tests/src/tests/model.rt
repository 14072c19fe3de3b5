//! Descriptors (JVMS SE 21 section 4.3), and sets of classes by number and by name.
use super::files::load_files;
use crate::short;
use fp_base::Names;
use fp_model::{ClassSet, DescrFault, arg_words, is_descr, is_kind, read_descr, read_kind};
use indexmap::IndexMap;
use std::alloc::{AllocError, Global};
use std::test::Fail;

/// Field descriptors (section 4.3.2) with the kind that each says, or the place where none goes on.
const KINDS: &str = "\
    B=Int(66)\n\
    C=Int(67)\n\
    D=Double\n\
    F=Float\n\
    I=Int(73)\n\
    J=Long\n\
    Ljava/lang/Object;=Class(0)\n\
    S=Int(83)\n\
    Z=Int(90)\n\
    [J=Array(1, Prim(74))\n\
    [[LA;=Array(2, Class(1))\n\
    [Ljava/lang/Object;=Array(1, Class(0))\n\
    =Bad { at: 0 }\n\
    V=Bad { at: 0 }\n\
    II=Bad { at: 1 }\n\
    [=Bad { at: 1 }\n\
    [V=Bad { at: 1 }\n\
    L=Bad { at: 1 }\n\
    L;=Bad { at: 1 }\n\
    La.b;=Bad { at: 2 }\n\
    [Lab=Bad { at: 4 }\n\
    La;;=Bad { at: 3 }\n\
    ()V=Bad { at: 0 }\n\
    ";

/// Method descriptors (section 4.3.3) with the words that the arguments of each take, or the place where none goes on.
const DESCRIPTORS: &str = "\
    ()V=0\n\
    (I)V=1\n\
    (J)J=2\n\
    (IDLA;[J)V=5\n\
    ([[D)[LA;=1\n\
    (L);)V=1\n\
    =Bad { at: 0 }\n\
    I=Bad { at: 0 }\n\
    (=Bad { at: 1 }\n\
    (V)V=Bad { at: 1 }\n\
    (I=Bad { at: 2 }\n\
    ()=Bad { at: 2 }\n\
    ([)V=Bad { at: 2 }\n\
    (L;)V=Bad { at: 2 }\n\
    ()VV=Bad { at: 3 }\n\
    ()[V=Bad { at: 3 }\n\
    (La.b;)V=Bad { at: 3 }\n\
    (I)II=Bad { at: 4 }\n\
    (LA)V=Bad { at: 5 }\n\
    ";

fn fault_text(alloc: Global, fault: DescrFault) -> Result<String, AllocError> {
    format!(in alloc; "{fault:?}")
}

/// The kind that a field descriptor says, over a table that has two names, or its fault.
fn kind_text(alloc: Global, text: &[u8]) -> Result<String, Fail> {
    let text = short(text).ok_or("too long")?;
    let mut names = Names::new(alloc);
    names.intern(alloc, b"java/lang/Object")?;
    names.intern(alloc, b"A")?;
    let read = read_kind(alloc, text, &mut names);
    if is_kind(text) != read.is_ok() {
        return Err("told apart".into());
    }
    let answer = match read {
        Ok(kind) => format!(in alloc; "{kind:?}"),
        Err(fault) => fault_text(alloc, fault),
    };
    Ok(answer?)
}

#[test]
fn field_descriptors_say_their_kinds(rt: HostRuntime) -> Result<(), Fail> {
    for line in KINDS.lines() {
        let (text, wanted) = line.split_once('=').ok_or("no answer")?;
        let answer = kind_text(rt.alloc(), text.as_bytes())?;
        assert_eq!(rt; answer.as_str(), wanted, "at {line}");
    }
    Ok(())
}

/// The kind of an array of so many dimensions.
fn array_kind_text(alloc: Global, dims: u16) -> Result<String, Fail> {
    let mut text = Vec::new(alloc);
    for _ in 0..dims {
        text.push(b'[')?;
    }
    text.push(b'I')?;
    kind_text(alloc, &text)
}

#[test]
fn an_array_has_at_most_255_dimensions(rt: HostRuntime) -> Result<(), Fail> {
    for (dims, wanted) in [(255, "Array(255, Prim(73))"), (256, "Bad { at: 255 }")] {
        let answer = array_kind_text(rt.alloc(), dims)?;
        assert_eq!(rt; answer.as_str(), wanted);
    }
    Ok(())
}

/// The words of the arguments of a method descriptor, or its fault.
fn argument_text(alloc: Global, text: &[u8]) -> Result<String, Fail> {
    let text = short(text).ok_or("too long")?;
    let mut names = Names::new(alloc);
    let read = read_descr(alloc, text, &mut names);
    if is_descr(text) != read.is_ok() {
        return Err("told apart".into());
    }
    let answer = match (read, arg_words(text)) {
        (Err(fault), None) => fault_text(alloc, fault),
        (Ok(_descr), Some(words)) => format!(in alloc; "{words}"),
        _ => String::from_str(alloc, "told apart"),
    };
    Ok(answer?)
}

#[test]
fn method_descriptors_tell_the_words_of_their_arguments(rt: HostRuntime) -> Result<(), Fail> {
    for line in DESCRIPTORS.lines() {
        let (text, wanted) = line.split_once('=').ok_or("no answer")?;
        let answer = argument_text(rt.alloc(), text.as_bytes())?;
        assert_eq!(rt; answer.as_str(), wanted, "at {line}");
    }
    Ok(())
}

/// What a method descriptor says, and how many names that takes.
fn descr_text(alloc: Global, text: &[u8]) -> Result<String, Fail> {
    let text = short(text).ok_or("too long")?;
    let mut names = Names::new(alloc);
    let descr = read_descr(alloc, text, &mut names)?;
    let result = descr.result;
    Ok(format!(in alloc; "{:?} {result:?} {}", descr.args.as_slice(), names.len())?)
}

#[test]
fn a_method_descriptor_says_its_kinds(rt: HostRuntime) -> Result<(), Fail> {
    let text = descr_text(rt.alloc(), b"(IDLA;[J)LB;")?;
    assert_eq!(rt;
        text.as_str(),
        "[Int(73), Double, Class(0), Array(1, Prim(74))] Some(Class(1)) 2"
    );
    Ok(())
}

/// The class files of C, which extends B, of A with the field f and the method m, and of B, which extends A and has the fields
/// g and f and the methods f and m.
const CLASSES: [&str; 3] = [
    "\
    cafebabe00000034000501000143070001010001420700030421000200040000000000000000\
    ",
    "\
    cafebabe000000340009010001410700010100106a6176612f6c616e672f4f626a65637407000301000166010001490100016d0100032829\
    56042100020004000000010000000500060000000104010007000800000000\
    ",
    "\
    cafebabe00000034000a01000142070001010001410700030100016701000149010001660100032829560100016d04210002000400000002\
    000000050006000000000007000600000002040100070008000004010009000800000000\
    ",
];

/// The set of those classes, in that order.
fn three_classes(alloc: Global) -> Result<ClassSet, Fail> {
    let mut files = IndexMap::new(alloc);
    for digits in CLASSES {
        let path = format!(in alloc; "d/{}.class", files.len())?;
        files.insert(path, hex::decode(alloc, digits)?)?;
    }
    match load_files(alloc, files)? {
        Ok(loaded) => Ok(loaded.set),
        Err(_) => Err("refused".into()),
    }
}

fn name_text<'a>(set: &'a ClassSet, name: u32) -> &'a str {
    let text = set.names().text(name).unwrap_or(b"no name");
    std::str::from_utf8(text).unwrap_or("no text")
}

/// A class's name, its first field and its first method.
fn class_text(alloc: Global, set: &ClassSet, id: u32) -> Result<String, AllocError> {
    if id >= set.counts().0 {
        return String::from_str(alloc, "no class");
    }
    let name = name_text(set, set.class(id).name);
    format!(in alloc; "{name} {} {}", set.first_field(id), set.first_method(id))
}

/// The name of a field, and its class.
fn field_text(alloc: Global, set: &ClassSet, id: u32) -> Result<String, AllocError> {
    if id >= set.counts().1 {
        return String::from_str(alloc, "no field");
    }
    let name = name_text(set, set.field(id).name);
    format!(in alloc; "{name} of {}", set.class_of_field(id))
}

/// The name of a method, and its class.
fn method_text(alloc: Global, set: &ClassSet, id: u32) -> Result<String, AllocError> {
    if id >= set.counts().2 {
        return String::from_str(alloc, "no method");
    }
    let name = name_text(set, set.method(id).name);
    format!(in alloc; "{name} of {}", set.class_of_method(id))
}

/// The class, the field and the method of a number.
fn numbered_text(alloc: Global, set: &ClassSet, id: u32) -> Result<String, AllocError> {
    let class = class_text(alloc, set, id)?;
    let field = field_text(alloc, set, id)?;
    let method = method_text(alloc, set, id)?;
    format!(in alloc; "{class}, {field}, {method}")
}

#[test]
fn a_set_is_read_by_number(rt: HostRuntime) -> Result<(), Fail> {
    let set = three_classes(rt.alloc())?;
    for (id, wanted) in [
        (0, "C 0 0, f of 1, m of 1"),
        (1, "A 0 0, g of 2, f of 2"),
        (2, "B 1 1, f of 2, m of 2"),
        (3, "no class, no field, no method"),
        (u32::MAX, "no class, no field, no method"),
    ] {
        let text = numbered_text(rt.alloc(), &set, id)?;
        assert_eq!(rt; text.as_str(), wanted);
    }
    Ok(())
}

#[test]
fn a_set_is_read_by_name(rt: HostRuntime) -> Result<(), Fail> {
    let set = three_classes(rt.alloc())?;
    for (name, wanted) in [
        (b"A".as_slice(), Some(1)),
        (b"B", Some(2)),
        (b"C", Some(0)),
        (b"f", None),
        (b"java/lang/Object", None),
    ] {
        let name = set.names().find(name).ok_or("no name")?;
        assert_eq!(rt; set.find_class(name), wanted);
    }
    for name in [100, u32::MAX] {
        assert_eq!(rt; set.find_class(name), None);
    }
    Ok(())
}
