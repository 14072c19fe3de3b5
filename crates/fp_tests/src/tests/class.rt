//! Class files as classes in numbers of a table of names, and as bytes again.
use super::forms::{descr_text, instr_text};
use crate::short;
use fp_base::Names;
use fp_class::{read_class, to_class};
use fp_model::look_up::{class_name, text};
use fp_model::{Class, Code, Method, Raw};
use fp_write::spell;
use std::alloc::{AllocError, Global};
use std::test::Fail;

/// A class `A` with the final field `x` of descriptor `I`.
const FIELD: &str = "\
    cafebabe000000340007010001410700010100106a6176612f6c616e672f4f626a6563740700030100017801000149002100020004000000\
    01001000050006000000000000\
    ";

/// A class `A` with the static method `m` of descriptor `()V`, whose code is `return`.
const METHOD: &str = "\
    cafebabe000000320008010001410700010100106a6176612f6c616e672f4f626a6563740700030100016d010003282956010004436f6465\
    002100020004000000000001000900050006000100070000000d0002000000000001b1000000000000\
    ";

/// A module, which has no superclass.
const MODULE: &str = "\
    cafebabe000000350003010010736f6d652f6d6f64756c652d696e666f0700018000000200000000000000000000\
    ";

/// A class with a constant of each kind, an interface, a field with its value, a method with `wide`, both switches, a call site, a
/// row of its exception table and an attribute of its code, two `BootstrapMethods` and another attribute.
const EVERY_PART: &str = "\
    cafebabe00000041001d010001410700010100106a6176612f6c616e672f4f626a6563740700030100016d010003282956010004436f6465\
    01000d436f6e7374616e7456616c7565010010426f6f7473747261704d6574686f6473010001490300000007043f80000005000000010000\
    0002063ff00000000000000800010c0001000a09000200120c000500060a000200140b000200140f06001510000611000000121200000014\
    13000114000100210002000400010004000100180001000a0001000800000002000b000100090005000600010007000000520002012c0000\
    0036c48401000001120baa5a5b5c00000014000000050000000500000014ab0102030000001400000001ffffffff00000014ba001a0000b1\
    000100000036003000020001000100000002090a000300090000000a000100170002000b0018000900000003deadbe000100000000\
    ";

/// A class `A` with the static method `m` of descriptor `(I[LA;)I`, whose code is `aload_0`, `getfield` of `x`, `invokestatic` and
/// `invokespecial` of `n` and `ireturn`; the first two are guarded, for `E` and for any class.
const CALLS: &str = "\
    cafebabe000000340012010001410700010100106a6176612f6c616e672f4f626a6563740700030100016d01000828495b4c413b29490100\
    04436f646501000178010001490c00080009090002000a0100016e01000828495b4c413b29560c000c000d0a0002000e0100014507001000\
    21000200040000000000010009000500060001000700000027000200020000000b2ab4000bb8000fb7000fac000200000004000100110000\
    00040001000000000000\
    ";

fn instrs_text(alloc: Global, code: &Code) -> Result<String, AllocError> {
    let mut texts = Vec::new(alloc);
    for (pc, instr) in code.instrs.as_slice() {
        let instr = instr_text(alloc, instr)?;
        texts.push(format!(in alloc; "{pc} {instr}")?)?;
    }
    texts.join(alloc, "; ")
}

fn code_text(alloc: Global, code: &Code) -> Result<String, AllocError> {
    let instrs = instrs_text(alloc, code)?;
    let mut texts = Vec::new(alloc);
    for row in code.rows.as_slice() {
        let class = row.class;
        texts.push(format!(in alloc;
            "{}-{} to {} for {class:?}",
            row.start, row.end, row.handler
        )?)?;
    }
    let rows = texts.join(alloc, "; ")?;
    format!(in alloc;
        "stack {} locals {} code {instrs} rows {rows}",
        code.max_stack, code.max_locals
    )
}

fn method_text(alloc: Global, method: &Method) -> Result<String, AllocError> {
    let kinds = descr_text(alloc, &method.kinds)?;
    let code = match &method.code {
        Some(code) => code_text(alloc, code)?,
        None => String::from_str(alloc, "no code")?,
    };
    format!(in alloc;
        "{}:{} {} {kinds} {code}",
        method.name, method.descr, method.flags
    )
}

fn class_text(alloc: Global, class: &Class) -> Result<String, AllocError> {
    let parent = class.parent;
    let mut texts = Vec::new(alloc);
    texts.push(format!(in alloc; "{} {parent:?} {}", class.name, class.flags)?)?;
    for field in class.fields.as_slice() {
        let kind = field.kind;
        texts.push(format!(in alloc;
            "field {}:{} {} {kind:?}",
            field.name, field.descr, field.flags
        )?)?;
    }
    for method in class.methods.as_slice() {
        let method = method_text(alloc, method)?;
        texts.push(format!(in alloc; "method {method}")?)?;
    }
    texts.join(alloc, ", ")
}

/// The names of a table, in the order of their numbers.
fn names_text(alloc: Global, names: &Names) -> Result<String, Fail> {
    let mut texts = Vec::new(alloc);
    for number in 0..names.len() {
        let name = names.text(number).ok_or("no name")?;
        texts.push(std::str::from_utf8(name)?)?;
    }
    Ok(texts.join(alloc, " ")?)
}

/// The class of a file, and the names that it took.
fn told(alloc: Global, bytes: &[u8]) -> Result<String, Fail> {
    let bytes = short(bytes).ok_or("too long")?;
    let raw = read_class(alloc, bytes)?;
    let mut names = Names::new(alloc);
    let class = match to_class(alloc, &raw, &mut names)? {
        Some(class) => class_text(alloc, &class)?,
        None => String::from_str(alloc, "no class")?,
    };
    let names = names_text(alloc, &names)?;
    Ok(format!(in alloc; "{class} names {names}")?)
}

#[test]
fn a_class_is_numbered(rt: HostRuntime) -> Result<(), Fail> {
    for (file, wanted) in [
        (
            FIELD,
            "0 Some(1) 33, field 2:3 16 Int(73) names A java/lang/Object x I",
        ),
        (
            METHOD,
            "0 Some(1) 33, method 2:3 9 [] None stack 2 locals 0 code 0 Return 177 rows  names A java/lang/Object m ()V",
        ),
        (MODULE, "no class names "),
        (
            CALLS,
            "0 Some(1) 33, method 2:3 9 [Int(73), Array(1, Class(0))] Int(73) stack 2 locals 2 code 0 Load Ref, 0; 1 GetField 0, 4, 5, Int(73); 4 InvokeStatic 0, 6, 7, [Int(73), Array(1, Class(0))] None; 7 InvokeSpecial 0, 6, 7, [Int(73), Array(1, Class(0))] None; 10 Return 172 rows 0-4 to 1 for Some(8); 0-4 to 1 for None names A java/lang/Object m (I[LA;)I x I n (I[LA;)V E",
        ),
    ] {
        let bytes = hex::decode(rt.alloc(), file)?;
        assert_eq!(rt; told(rt.alloc(), &bytes)?.as_str(), wanted);
    }
    Ok(())
}

/// The texts and the classes of a constant pool, by index.
fn entries_text(alloc: Global, raw: &Raw) -> Result<String, Fail> {
    let pool = raw.pool.entries.as_slice();
    let mut texts = Vec::new(alloc);
    for index in [1, 3, 5, 6] {
        texts.push(std::str::from_utf8(text(pool, index).ok_or("no text")?)?)?;
    }
    for index in [2, 4] {
        texts.push(std::str::from_utf8(class_name(pool, index).ok_or("no class")?)?)?;
    }
    Ok(texts.join(alloc, " ")?)
}

/// The parts of the class file with a field.
fn parts_text(alloc: Global) -> Result<String, Fail> {
    let bytes = hex::decode(alloc, FIELD)?;
    let raw = read_class(alloc, short(&bytes).ok_or("too long")?)?;
    let entries = entries_text(alloc, &raw)?;
    let numbers = (raw.minor, raw.major, raw.flags, raw.this, raw.parent);
    let counts = (
        raw.interfaces.len(),
        raw.fields.len(),
        raw.methods.len(),
        raw.attributes.len(),
    );
    Ok(format!(in alloc; "{entries} {numbers:?} {counts:?}")?)
}

#[test]
fn a_file_is_cut_into_its_parts(rt: HostRuntime) -> Result<(), Fail> {
    let text = parts_text(rt.alloc())?;
    assert_eq!(rt;
        text.as_str(),
        "A java/lang/Object x I A java/lang/Object (0, 52, 33, 2, 4) (0, 1, 0, 0)"
    );
    Ok(())
}

/// The digits of a file that is read and spelled again.
fn spelled(alloc: Global, digits: &str) -> Result<String, Fail> {
    let bytes = hex::decode(alloc, digits)?;
    let raw = read_class(alloc, short(&bytes).ok_or("too long")?)?;
    let bytes = spell(alloc, &raw)?;
    Ok(hex::encode(alloc, bytes.as_slice())?)
}

#[test]
fn a_file_is_spelled_as_it_was_read(rt: HostRuntime) -> Result<(), Fail> {
    for digits in [FIELD, METHOD, MODULE, EVERY_PART, CALLS] {
        assert_eq!(rt; spelled(rt.alloc(), digits)?.as_str(), digits);
    }
    Ok(())
}
