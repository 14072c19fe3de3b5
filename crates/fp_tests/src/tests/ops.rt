//! Instructions (JVMS SE 21 chapter 6): which bytes are some, and their forms.
ghost use Rattle.std.specs.Prelude.{◌<◌, length};

use super::forms::instr_text;
use super::table::check;
use crate::short;
use fp_base::Names;
use fp_model::{BootRow, Pool, RawIns};
use fp_ops::{check_targets, decode, has_form, to_instr};
use fp_pool::cut_pool;
use sqlite_items::Items;
use std::alloc::{AllocError, Global};
use std::test::Fail;

/// A constant pool: the class `A` at 2 and the array class `[[I` at 4, a constant of each kind from 5 on, the types `I` and `J`
/// at 14 and 24, and a member of each kind from 17 on.
const POOL: &str = "\
    001b010001410700010100035b5b49070003030000000704000000000500000000000000000600000000000000000800010100016d010001\
    490c000c000d0100032829560c000c000f090002000e0a000200100b000200100f06001210000f110000000e0100014a0c000c0017110000\
    00181200000010\
    ";

/// The first and last of some opcodes, and operands that chapter 6 allows each.
const ALLOWED: &str = "\
    0 15 ;accepted\n\
    16 16 80;accepted\n\
    17 17 8000;accepted\n\
    18 18 05;accepted\n\
    19 19 000b;accepted\n\
    20 20 0007;accepted\n\
    21 21 03;accepted\n\
    22 22 02;accepted\n\
    23 23 03;accepted\n\
    24 24 02;accepted\n\
    25 25 03;accepted\n\
    26 32 ;accepted\n\
    34 40 ;accepted\n\
    42 53 ;accepted\n\
    54 54 03;accepted\n\
    55 55 02;accepted\n\
    56 56 03;accepted\n\
    57 57 02;accepted\n\
    58 58 03;accepted\n\
    59 65 ;accepted\n\
    67 73 ;accepted\n\
    75 131 ;accepted\n\
    132 132 03ff;accepted\n\
    133 152 ;accepted\n\
    153 167 0000;accepted\n\
    170 170 00000000000000ffffffff000000000000000000000000;accepted\n\
    171 171 0102030000000000000002ffffffff000000000000000000000000;accepted\n\
    172 177 ;accepted\n\
    178 181 0011;accepted\n\
    182 184 0012;accepted\n\
    183 184 0013;accepted\n\
    185 185 00130900;accepted\n\
    186 186 001a0000;accepted\n\
    187 187 0002;accepted\n\
    188 188 04;accepted\n\
    188 188 0b;accepted\n\
    189 189 0004;accepted\n\
    190 191 ;accepted\n\
    192 193 0004;accepted\n\
    194 195 ;accepted\n\
    196 196 150003;accepted\n\
    196 196 160002;accepted\n\
    196 196 3a0003;accepted\n\
    196 196 8400038000;accepted\n\
    197 197 000402;accepted\n\
    198 199 0000;accepted\n\
    200 200 00000000;accepted\n\
    18 18 06;accepted\n\
    18 18 02;accepted\n\
    18 18 14;accepted\n\
    18 18 15;accepted\n\
    18 18 16;accepted\n\
    20 20 0009;accepted\n\
    20 20 0019;accepted\n\
    ";

/// Codes that break one check each: of opcodes, operands, `wide`, locals and arrays of primitive types.
const REFUSED: &str = "\
    0 4 ca;Opcode { at: 0, byte: 202 }\n\
    0 4 00ff;Opcode { at: 1, byte: 255 }\n\
    0 4 a80000;Subroutine { at: 0 }\n\
    0 4 a9;Subroutine { at: 0 }\n\
    0 4 00c9;Subroutine { at: 1 }\n\
    0 4 10;Truncated { at: 1 }\n\
    0 4 1100;Truncated { at: 1 }\n\
    0 4 84ff;Truncated { at: 2 }\n\
    0 4 b9001301;Truncated { at: 4 }\n\
    0 4 c50004;Truncated { at: 3 }\n\
    0 4 c8000000;Truncated { at: 1 }\n\
    0 4 c4;Truncated { at: 1 }\n\
    0 4 c484000300;Truncated { at: 4 }\n\
    0 4 aa;Truncated { at: 4 }\n\
    0 4 aa000000000000000000;Truncated { at: 8 }\n\
    0 4 ab0000000000000000;Truncated { at: 8 }\n\
    0 4 c460;Opcode { at: 1, byte: 96 }\n\
    0 4 c4c4;Opcode { at: 1, byte: 196 }\n\
    0 4 c4a8;Opcode { at: 1, byte: 168 }\n\
    0 4 c4c9;Opcode { at: 1, byte: 201 }\n\
    0 4 c4a90000;Subroutine { at: 1 }\n\
    0 4 00c4150004;Bounds { at: 1 }\n\
    0 4 c4370003;Bounds { at: 0 }\n\
    0 4 c48400040000;Bounds { at: 0 }\n\
    0 4 001504;Bounds { at: 1 }\n\
    0 4 1803;Bounds { at: 0 }\n\
    0 4 21;Bounds { at: 0 }\n\
    0 4 29;Bounds { at: 0 }\n\
    0 4 42;Bounds { at: 0 }\n\
    0 4 4a;Bounds { at: 0 }\n\
    0 4 840400;Bounds { at: 0 }\n\
    0 4 bc03;Bounds { at: 0 }\n\
    0 4 bc0c;Bounds { at: 0 }\n\
    ";

/// The same of switches, numbers that have to be 0, dimensions, constants, members and classes.
const REFUSED_INDEXES: &str = "\
    0 4 aa00000000000000000000010000000000000000;Bounds { at: 0 }\n\
    0 4 aa00000000000000000000000000000100000000;Bounds { at: 0 }\n\
    0 4 aa00000000000000800000007fffffff00000000;Bounds { at: 0 }\n\
    0 4 ab00000000000000ffffffff;Bounds { at: 0 }\n\
    0 4 ab000000000000007fffffff;Bounds { at: 0 }\n\
    0 4 ab000000000000000000000100000000000000;Bounds { at: 0 }\n\
    0 4 ab000000000000000000000200000005000000000000000500000000;Bounds { at: 0 }\n\
    0 4 ab00000000000000000000020000000000000000ffffffff00000000;Bounds { at: 0 }\n\
    0 4 b900120101;Bounds { at: 0 }\n\
    0 4 ba001a0100;Bounds { at: 0 }\n\
    0 4 ba001a0001;Bounds { at: 0 }\n\
    0 4 c5000400;Bounds { at: 0 }\n\
    0 4 c5000403;Bounds { at: 0 }\n\
    0 4 c5000201;Bounds { at: 0 }\n\
    0 4 1207;Index { at: 1, index: 7 }\n\
    0 4 1219;Index { at: 1, index: 25 }\n\
    0 4 1201;Index { at: 1, index: 1 }\n\
    0 4 1200;Index { at: 1, index: 0 }\n\
    0 4 13001b;Index { at: 1, index: 27 }\n\
    0 4 140005;Index { at: 1, index: 5 }\n\
    0 4 140016;Index { at: 1, index: 22 }\n\
    0 4 b20012;Index { at: 1, index: 18 }\n\
    0 4 b60013;Index { at: 1, index: 19 }\n\
    0 4 b70011;Index { at: 1, index: 17 }\n\
    0 4 00b900120100;Index { at: 2, index: 18 }\n\
    0 4 ba00160000;Index { at: 1, index: 22 }\n\
    0 4 bb0004;Index { at: 1, index: 4 }\n\
    0 4 bd0001;Index { at: 1, index: 1 }\n\
    0 4 c00001;Index { at: 1, index: 1 }\n\
    0 4 c1000b;Index { at: 1, index: 11 }\n\
    0 4 c5000101;Index { at: 1, index: 1 }\n\
    ";

/// Codes that begin at 90, with switches at the places 1 to 4, which have the paddings 2, 1, 0 and 3, and with branches.
const BRANCHES: &str = "\
    90 0 03aa000000000013000000000000000000000013b1;accepted\n\
    90 0 0003aa0000000012000000000000000000000012b1;accepted\n\
    90 0 000003aa00000011000000000000000000000011b1;accepted\n\
    90 0 00000003aa00000000000014000000000000000000000014b1;accepted\n\
    90 0 000003aa00000011000000000000000000000012b1;Bounds { at: 93 }\n\
    90 0 a70001b1;Bounds { at: 90 }\n\
    90 0 cab1;Opcode { at: 90, byte: 202 }\n\
    90 0 a80003b1;Subroutine { at: 90 }\n\
    90 0 00a70000b1;accepted\n\
    90 0 00a7ffffb1;accepted\n\
    90 0 00a7fffeb1;Bounds { at: 91 }\n\
    90 0 a70003;Bounds { at: 90 }\n\
    90 0 c800000005b1;accepted\n\
    90 0 00c8fffffffe;Bounds { at: 91 }\n\
    90 0 ab00000000000014000000010000000900000014b1;accepted\n\
    90 0 ab00000000000014000000010000000000000009b1;Bounds { at: 90 }\n\
    90 0 a70003a70002;Bounds { at: 93 }\n\
    ";

/// Opcodes with operands, and the form of each at the place 10, in numbers of a table that has no name yet.
const FORMS: &str = "\
    0 ;Nop\n\
    1 ;Null\n\
    2 ;Const Int\n\
    10 ;Const Long\n\
    11 ;Const Float\n\
    15 ;Const Double\n\
    17 8000;Const Int\n\
    18 05;Const Int\n\
    18 02;ConstRef\n\
    19 000b;ConstRef\n\
    20 0009;Const Double\n\
    20 0019;Const Long\n\
    24 02;Load Double, 2\n\
    45 ;Load Ref, 3\n\
    54 03;Store Int, 3\n\
    63 ;Store Long, 0\n\
    46 ;ArrayLoad 46\n\
    86 ;ArrayStore 86\n\
    95 ;Shuffle 95\n\
    96 ;Op 96\n\
    152 ;Op 152\n\
    132 03ff;Inc 3\n\
    153 0005;If 153, 15\n\
    199 fff6;If 199, 0\n\
    167 fffe;Goto 8\n\
    200 00000005;Goto 15\n\
    170 00000005000000000000000100000006fffffffc;Switch [15, 16, 6]\n\
    171 00000005000000010000000700000008;Switch [15, 18]\n\
    176 ;Return 176\n\
    178 0011;GetStatic 0, 1, 2, Int(73)\n\
    179 0011;PutStatic 0, 1, 2, Int(73)\n\
    180 0011;GetField 0, 1, 2, Int(73)\n\
    181 0011;PutField 0, 1, 2, Int(73)\n\
    182 0012;InvokeVirtual 0, 1, 2, [] None\n\
    183 0012;InvokeSpecial 0, 1, 2, [] None\n\
    184 0013;InvokeStatic 0, 1, 2, [] None\n\
    185 00130100;InvokeInterface 0, 1, 2, [] None\n\
    186 001a0000;InvokeDynamic 0, [] None, BootRef { kind: 6, class: 1, name: 0, descr: 2 }, [Sig [] None, Ref BootRef { kind: 6, class: 1, name: 0, descr: 2 }, Other]\n\
    187 0002;New 0\n\
    188 0a;NewArray 1, Int(73)\n\
    189 0002;NewArray 1, Class(0)\n\
    189 0004;NewArray 1, Array(2, Prim(73))\n\
    197 000402;NewArray 2, Array(1, Prim(73))\n\
    190 ;ArrayLength\n\
    191 ;Throw\n\
    192 0004;CheckCast 0\n\
    193 0002;InstanceOf 0\n\
    195 ;Monitor\n\
    178 0012;no form\n\
    167 fff5;no form\n\
    186 00150000;no form\n\
    ";

fn constants(alloc: Global) -> Result<Pool, Fail> {
    let bytes = hex::decode(alloc, POOL)?;
    let bytes = short(&bytes).ok_or("too long")?;
    let (pool, _end) = cut_pool(alloc, bytes, 0)?;
    Ok(pool)
}

/// The first fault of a code with so many local variables that stands behind so many bytes: of its instructions, and then of
/// its branches.
fn code_text(alloc: Global, at: u8, locals: u16, code: &[u8]) -> Result<String, Fail> {
    let code = short(code).ok_or("too long")?;
    let pool = constants(alloc)?;
    let mut file = vec![in alloc; 0u8; at as usize]?;
    file.extend_from_slice(code)?;
    let at = u32::from(at);
    let judged = match decode(alloc, &file, at, code.len() as u32, &pool, locals) {
        Ok(code) => check_targets(alloc, code.as_slice(), at),
        Err(fault) => Err(fault),
    };
    let text = match judged {
        Ok(()) => String::from_str(alloc, "accepted"),
        Err(fault) => format!(in alloc; "{fault:?}"),
    };
    Ok(text?)
}

/// What comes of a code, by the bytes before it, its local variables and its digits.
fn told(alloc: Global, input: &str) -> Result<String, Fail> {
    let (at, rest) = input.split_once(' ').ok_or("no place")?;
    let (locals, digits) = rest.split_once(' ').ok_or("no locals")?;
    let code = hex::decode(alloc, digits)?;
    code_text(alloc, at.parse::<u8>()?, locals.parse::<u16>()?, &code)
}

/// The first fault of the opcodes from one to another, each with the same operands.
fn told_of_each(alloc: Global, input: &str) -> Result<String, Fail> {
    let (first, rest) = input.split_once(' ').ok_or("no opcode")?;
    let (last, digits) = rest.split_once(' ').ok_or("no last one")?;
    let operands = hex::decode(alloc, digits)?;
    each_text(alloc, first.parse::<u8>()?, last.parse::<u8>()?, &operands)
}

fn each_text(alloc: Global, first: u8, last: u8, operands: &[u8]) -> Result<String, Fail> {
    for op in first..=last {
        let mut code = vec![in alloc; op]?;
        code.extend_from_slice(operands)?;
        let text = code_text(alloc, 0, 4, &code)?;
        if text.as_str() != "accepted" {
            return Ok(text);
        }
    }
    Ok(String::from_str(alloc, "accepted")?)
}

#[test]
fn codes_are_decoded_or_refused_at_their_first_fault(rt: HostRuntime) -> Result<(), Fail> {
    for table in [REFUSED, REFUSED_INDEXES, BRANCHES] {
        check(&rt, rt.alloc(), table, told)?;
    }
    check(&rt, rt.alloc(), ALLOWED, told_of_each)
}

/// The parts of instructions behind other bytes of a file, where the padding depends on the code's start.
fn parts_text(alloc: Global, code: &[RawIns]) -> Result<String, AllocError> {
    let mut texts = Vec::new(alloc);
    for ins in code {
        texts.push(format!(in alloc;
            "{} {} {:?} {:?}",
            ins.op,
            ins.wide,
            ins.padding.as_slice(),
            ins.args.as_slice()
        )?)?;
    }
    texts.join(alloc, ", ")
}

#[test]
fn a_code_is_decoded_where_it_stands(rt: HostRuntime) -> Result<(), Fail> {
    let file =
        b"\xFF\0\xC4\x19\x01\x00\xAA\x07\x08\x09\0\0\0\x19\0\0\0\0\0\0\0\0\0\0\0\x19\xB1\xFF";
    let pool = constants(rt.alloc())?;
    let code = decode(rt.alloc(), file, 2, 25, &pool, 257)?;
    let text = parts_text(rt.alloc(), code.as_slice())?;
    assert_eq!(rt;
        text.as_str(),
        "25 true [] [1, 0], 170 false [7, 8, 9] [0, 0, 0, 25, 0, 0, 0, 0, 0, 0, 0, 0, 0, 0, 0, 25], 177 false [] []"
    );
    Ok(())
}

/// The one row of bootstrap methods: a handle of `A.m()V`, with the type `()V`, that handle and an int.
fn boots(alloc: Global) -> Result<Vec<BootRow>, AllocError> {
    let args = Items::from_slice(alloc, &[21, 20, 5])?;
    let rows = Vec::from_array(alloc, [BootRow { method: 20, args }])?;
    Ok(rows)
}

/// The form of an instruction, by its opcode and the digits of its operands.
fn told_form(alloc: Global, input: &str) -> Result<String, Fail> {
    let (op, digits) = input.split_once(' ').ok_or("no opcode")?;
    let args = hex::decode(alloc, digits)?;
    let ins = RawIns {
        op: op.parse::<u8>()?,
        wide: false,
        padding: Items::new(alloc),
        args: Items::from_vec(args),
    };
    form_text(alloc, &ins)
}

fn form_text(alloc: Global, ins: &RawIns) -> Result<String, Fail> {
    let pool = constants(alloc)?;
    let boots = boots(alloc)?;
    if !has_form(alloc, ins, 10, &pool, &boots)? {
        return Ok(String::from_str(alloc, "no form")?);
    }
    let mut names = Names::new(alloc);
    let instr = to_instr(alloc, ins, 10, &pool, &boots, &mut names)?;
    Ok(instr_text(alloc, &instr)?)
}

#[test]
fn each_form_is_told(rt: HostRuntime) -> Result<(), Fail> {
    check(&rt, rt.alloc(), FORMS, told_form)
}
