//! Attributes (JVMS SE 21 section 4.7), each read alone.
use super::table::check;
use crate::short;
use fp_attr::{Owner, read_attr, skip_attr};
use fp_model::RawBody;
use fp_pool::cut_pool;
use std::alloc::Global;
use std::test::Fail;

/// A constant pool: the names of attributes from 1 to 4, and from 5 on an entry of each tag that a value or an argument may
/// have or may not.
const POOL: &str = "\
    001201000d436f6e7374616e7456616c7565010004436f6465010010426f6f7473747261704d6574686f64730100095369676e6174757265\
    030000000004000000000500000000000000000600000000000000000800040700040f01000e09000c000010000411000000001200000000\
    ";

/// Attributes that are cut by their lengths. The length comes before the name, and the name before what is held.
const CUT: &str = "\
    Class 0 000400000000;unread 6\n\
    Field 0 0004000000024142;unread 8\n\
    Method 0 000400000002414243;unread 8\n\
    Code 3 41424300040000000141;unread 10\n\
    Class 0 ;Truncated { at: 0 }\n\
    Class 0 00;Truncated { at: 0 }\n\
    Class 0 0004000000;Truncated { at: 2 }\n\
    Class 0 00040000000241;Truncated { at: 6 }\n\
    Class 1 410004ffffffff41;Truncated { at: 7 }\n\
    Class 0 000500000001;Truncated { at: 6 }\n\
    Class 0 000500000000;Index { at: 0, index: 5 }\n\
    Field 0 000000000000;Index { at: 0, index: 0 }\n\
    Code 2 4142001200000000;Index { at: 2, index: 18 }\n\
    Method 0 000c0000000141;Index { at: 0, index: 12 }\n\
    ";

/// `ConstantValue` of a field (section 4.7.2), and of others.
const CONSTANTS: &str = "\
    Field 0 0001000000020005;constant 8\n\
    Field 0 0001000000020006;constant 8\n\
    Field 0 0001000000020007;constant 8\n\
    Field 0 0001000000020009;constant 8\n\
    Field 0 000100000002000b;constant 8\n\
    Field 0 000100000000;Bounds { at: 2 }\n\
    Field 0 00010000000100;Bounds { at: 2 }\n\
    Field 0 000100000003000500;Bounds { at: 2 }\n\
    Field 0 0001000000020000;Index { at: 6, index: 0 }\n\
    Field 0 0001000000020004;Index { at: 6, index: 4 }\n\
    Field 0 0001000000020008;Index { at: 6, index: 8 }\n\
    Field 0 000100000002000c;Index { at: 6, index: 12 }\n\
    Field 0 000100000002000d;Index { at: 6, index: 13 }\n\
    Field 0 0001000000020012;Index { at: 6, index: 18 }\n\
    Class 0 0001000000020005;unread 8\n\
    Method 0 0001000000020000;unread 8\n\
    Code 0 00010000000100;unread 7\n\
    ";

/// `Code` of a method (section 4.7.3), and of others. It is cut whole before anything else of it is looked at; the locals come
/// before the size of the code, and that before the instructions, their branches and the names of attributes.
const CODES: &str = "\
    Method 0 00020000000d0000000100000001b100000000;code 19\n\
    Method 0 0002000000100000000100000004a70003b100000000;code 22\n\
    Method 0 0002000000140000000100000001b10000000100020000000141;code 26\n\
    Method 0 000200000000;Truncated { at: 6 }\n\
    Method 0 000200000003000000;Truncated { at: 8 }\n\
    Method 0 00020000000700000001000000;Truncated { at: 10 }\n\
    Method 0 0002000000090000000100000002b1;Truncated { at: 14 }\n\
    Method 0 0002000000090000000100000001b1;Truncated { at: 15 }\n\
    Method 0 00020000000d0000000100000001b100010000;Truncated { at: 19 }\n\
    Method 0 00020000000c0000000100000001b1000000;Truncated { at: 17 }\n\
    Method 0 0002000000140000000100000001b10000000100040000000241;Truncated { at: 25 }\n\
    Method 0 00020000000e0000000100000001b10000000000;Trailing { at: 19 }\n\
    Method 0 00020000000d00000000000000000000000000;Trailing { at: 18 }\n\
    Method 0 00020000000c000000000000000000000000;Bounds { at: 8 }\n\
    Method 0 00020000000d0000000000000001b100000000;Bounds { at: 8 }\n\
    Method 0 00020000000c000000010000000000000000;Bounds { at: 10 }\n\
    Method 0 00020000000d0000000100000001ca00000000;Opcode { at: 14, byte: 202 }\n\
    Method 0 00020000000e0000000100000002b11000000000;Truncated { at: 16 }\n\
    Method 0 0002000000100000000100000004b1a7000100000000;Bounds { at: 15 }\n\
    Method 0 0002000000140000000100000001b10000000100050000000141;Index { at: 19, index: 5 }\n\
    Method 0 00020000001a0000000100000001b10000000200040000000141000c00000000;Index { at: 26, index: 12 }\n\
    Field 0 00020000000100;unread 7\n\
    Class 0 000200000000;unread 6\n\
    Code 0 00020000000c000000010000000000000000;unread 18\n\
    ";

/// Rows of the exception table of the code `bipush 5; return`, the first of which stands at 19.
const RANGES: &str = "\
    Method 0 00020000001700000001000000031005b1000100000003000200000000;code 29\n\
    Method 0 00020000001700000001000000031005b10001000200030000000c0000;code 29\n\
    Method 0 00020000001700000001000000031005b10001000000020000000c0000;code 29\n\
    Method 0 00020000001700000001000000031005b1000100020002000000000000;Bounds { at: 19 }\n\
    Method 0 00020000001700000001000000031005b1000100020000000000000000;Bounds { at: 19 }\n\
    Method 0 00020000001700000001000000031005b1000100000004000000000000;Bounds { at: 19 }\n\
    Method 0 00020000001700000001000000031005b1000100010003000000000000;Bounds { at: 19 }\n\
    Method 0 00020000001700000001000000031005b1000100000001000000000000;Bounds { at: 19 }\n\
    Method 0 00020000001700000001000000031005b1000100000003000100000000;Bounds { at: 19 }\n\
    Method 0 00020000001700000001000000031005b1000100000003000300000000;Bounds { at: 19 }\n\
    Method 0 00020000001700000001000000031005b1000100000003000000050000;Index { at: 25, index: 5 }\n\
    Method 0 00020000001700000001000000031005b1000100000003000000120000;Index { at: 25, index: 18 }\n\
    Method 0 00020000001700000001000000031005b1000100000004000000050000;Bounds { at: 19 }\n\
    ";

/// `BootstrapMethods` of a class (section 4.7.23), and of others. Bytes that are left come before what the rows refer to.
const BOOTS: &str = "\
    Class 0 0003000000020000;boot 8\n\
    Class 0 0003000000060001000d0000;boot 12\n\
    Class 0 0003000000180001000d00090005000600070009000b000c000d000f0010;boot 30\n\
    Class 0 00030000000c0002000d00010005000d0000;boot 18\n\
    Class 0 000300000000;Truncated { at: 6 }\n\
    Class 0 0003000000020001;Truncated { at: 8 }\n\
    Class 0 0003000000050001000d00;Truncated { at: 10 }\n\
    Class 0 0003000000070001000d000100;Truncated { at: 12 }\n\
    Class 0 000300000003000000;Trailing { at: 8 }\n\
    Class 0 0003000000070001000e000000;Trailing { at: 12 }\n\
    Class 0 0003000000060001000e0000;Index { at: 8, index: 14 }\n\
    Class 0 000300000006000100000000;Index { at: 8, index: 0 }\n\
    Class 0 00030000000c0002000d00010005000c0000;Index { at: 14, index: 12 }\n\
    Class 0 0003000000080001000d0001000e;Index { at: 12, index: 14 }\n\
    Class 0 00030000000a0001000d000200050011;Index { at: 14, index: 17 }\n\
    Class 0 0003000000080001000d00010004;Index { at: 12, index: 4 }\n\
    Field 0 000300000003000000;unread 9\n\
    Method 0 000300000000;unread 6\n\
    Code 0 0003000000020001;unread 8\n\
    ";

/// Attributes that are skipped by their lengths.
const SKIPPED: &str = "\
    0 00040000000141;7\n\
    1 41000000000000;7\n\
    0 00040000000241;Truncated { at: 6 }\n\
    ";

/// How an attribute is kept.
fn name_of(body: &RawBody) -> &'static str {
    match body {
        RawBody::Bytes(_) => "unread",
        RawBody::Code(_) => "code",
        RawBody::Boot(_) => "boot",
        RawBody::Constant(_) => "constant",
    }
}

/// The owner of a name. The arguments of a method take one word.
fn owner_of(name: &str) -> Owner {
    match name {
        "Class" => Owner::Class,
        "Field" => Owner::Field,
        "Method" => Owner::Method { words: 1 },
        _ => Owner::Code,
    }
}

/// How the attribute of an owner is kept and where it ends, or its fault, by its place and the digits of the bytes.
fn told(alloc: Global, input: &str) -> Result<String, Fail> {
    let (owner, rest) = input.split_once(' ').ok_or("no owner")?;
    let (at, digits) = rest.split_once(' ').ok_or("no place")?;
    let at = at.parse::<u32>()?;
    let bytes = hex::decode(alloc, digits)?;
    attribute_text(alloc, owner_of(owner), at, &bytes)
}

fn attribute_text(alloc: Global, owner: Owner, at: u32, bytes: &[u8]) -> Result<String, Fail> {
    let bytes = short(bytes).ok_or("too long")?;
    let entries = hex::decode(alloc, POOL)?;
    let entries = short(&entries).ok_or("too long")?;
    let (pool, _end) = cut_pool(alloc, entries, 0)?;
    let text = match read_attr(alloc, bytes, at, &pool, owner) {
        Ok((attr, end)) => format!(in alloc; "{} {end}", name_of(&attr.body)),
        Err(fault) => format!(in alloc; "{fault:?}"),
    };
    Ok(text?)
}

/// Where an attribute is skipped to, or its fault.
fn skipped(alloc: Global, input: &str) -> Result<String, Fail> {
    let (at, digits) = input.split_once(' ').ok_or("no place")?;
    let at = at.parse::<u32>()?;
    let bytes = hex::decode(alloc, digits)?;
    let bytes = short(&bytes).ok_or("too long")?;
    let text = match skip_attr(bytes, at) {
        Ok(end) => format!(in alloc; "{end}"),
        Err(fault) => format!(in alloc; "{fault:?}"),
    };
    Ok(text?)
}

#[test]
fn attributes_are_read_by_name_and_owner(rt: HostRuntime) -> Result<(), Fail> {
    for table in [CUT, CONSTANTS, CODES, RANGES, BOOTS] {
        check(&rt, rt.alloc(), table, told)?;
    }
    Ok(())
}

#[test]
fn attributes_are_skipped_by_their_lengths(rt: HostRuntime) -> Result<(), Fail> {
    check(&rt, rt.alloc(), SKIPPED, skipped)
}
