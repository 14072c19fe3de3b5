//! The forms of instructions that take no name from the constant pool.
ghost use Rattle.std.specs.Prelude.{◌≡◌, ◌<◌, ◌/◌, ◌%◌, codes, slice_get};
ghost use Rattle.std.specs.Option.{option_map};
ghost use Rattle.std.specs.Int.{w8, w16};
ghost use Rattle.fp_model.specs.Reading.{number_at};
ghost use Rattle.fp_model.specs.Branches.{far_target, near_target};
ghost use Rattle.fp_model.specs.References.{descr_at};
ghost use Rattle.fp_model.specs.Descriptor.{is_among};
ghost use Rattle.fp_model.specs.Entries.{text_at};
ghost use Rattle.fp_model.specs.Instructions as instructions;

use crate::branches::{far, near};
use fp_model::look_up::text;
use fp_model::{Entry, Instr, Kind, RawIns, Sort};
use sqlite_items::at;

/// The sort of what is loaded or stored, by the types in the order of the opcodes.
fn type_sort(place: u8) -> Sort
    ensures { result ≡ instructions.type_sort place }
{
    match place {
        0 => Sort::Int,
        1 => Sort::Long,
        2 => Sort::Float,
        3 => Sort::Double,
        _ => Sort::Ref,
    }
}

/// The instruction that an opcode alone says, if it does.
#[tactic(auto, unfolding(fp_model::specs::Instructions::fixed_instr))]
pub fn fixed_instr(op: u8) -> Option<Instr>
    ensures { result ≡ instructions.fixed_instr op }
{
    match op {
        0 => Some(Instr::Nop),
        1 => Some(Instr::Null),
        2..=8 | 16 | 17 => Some(Instr::Const { sort: Sort::Int }),
        9 | 10 => Some(Instr::Const { sort: Sort::Long }),
        11..=13 => Some(Instr::Const { sort: Sort::Float }),
        14 | 15 => Some(Instr::Const { sort: Sort::Double }),
        26..=45 => Some(near_load(op - 26)),
        46..=53 => Some(Instr::ArrayLoad { op }),
        59..=78 => Some(near_store(op - 59)),
        79..=86 => Some(Instr::ArrayStore { op }),
        87..=95 => Some(Instr::Shuffle { op }),
        96..=131 | 133..=152 => Some(Instr::Op { op }),
        172..=177 => Some(Instr::Return { op }),
        190 => Some(Instr::ArrayLength),
        191 => Some(Instr::Throw),
        194 | 195 => Some(Instr::Monitor),
        _ => None,
    }
}

/// A load of a local that the opcode names, by its place in a row of four for each type.
fn near_load(place: u8) -> Instr
    ensures { result ≡ Instr.Load (instructions.type_sort (place / 4)) (place % 4) }
{
    Instr::Load {
        sort: type_sort(place / 4),
        at: (place % 4) as u16,
    }
}

/// A store to a local that the opcode names, by its place in a row of four for each type.
fn near_store(place: u8) -> Instr
    ensures { result ≡ Instr.Store (instructions.type_sort (place / 4)) (place % 4) }
{
    Instr::Store {
        sort: type_sort(place / 4),
        at: (place % 4) as u16,
    }
}

/// The number of one byte that operands begin with.
#[tactic(auto, unfolding(fp_model::specs::Reading::number_at))]
pub fn byte_in(args: &[u8]) -> Option<u8>
    ensures { result ≡ instructions.found (number_at w8 args.now 0) }
{
    if args.is_empty() {
        return None;
    }
    Some(args[0])
}

/// The number of two bytes that operands begin with.
#[tactic(auto, unfolding(fp_model::specs::Reading::number_at))]
pub fn number_in(args: &[u8]) -> Option<u16>
    ensures { result ≡ instructions.found (number_at w16 args.now 0) }
{
    if args.len() < 2 {
        return None;
    }
    Some(u16::from_be_bytes([args[0], args[1]]))
}

/// The local that an instruction's operands name.
fn local(ins: &RawIns) -> Option<u16>
    ensures { result ≡ instructions.local_in ins.now }
{
    if ins.wide {
        return number_in(ins.args.as_slice());
    }
    match byte_in(ins.args.as_slice()) {
        Some(local) => Some(local as u16),
        None => None,
    }
}

/// A place in a code, which is shorter than 2^16 bytes.
pub fn short(place: Option<u64>) -> Option<u16>
    ensures { result ≡ instructions.short_place place }
{
    match place {
        Some(place) if place < 65536 => Some(place as u16),
        _ => None,
    }
}

/// The primitive type that `newarray` makes an array of, by its code.
fn primitive_kind(code: u8) -> Option<Kind>
    ensures { result ≡ instructions.primitive_kind code }
{
    let kind = match code {
        4 => Kind::Int(b'Z'),
        5 => Kind::Int(b'C'),
        6 => Kind::Float,
        7 => Kind::Double,
        8 => Kind::Int(b'B'),
        9 => Kind::Int(b'S'),
        10 => Kind::Int(b'I'),
        11 => Kind::Long,
        _ => return None,
    };
    Some(kind)
}

/// The array of a primitive type that operands say.
fn primitive_array(args: &[u8]) -> Option<Instr>
    ensures { result ≡ instructions.primitive_array (instructions.found (number_at w8 args.now 0)) }
{
    let element = primitive_kind(byte_in(args)?)?;
    Some(Instr::NewArray { dims: 1, element })
}

/// A load of a local, by the place of its opcode among the loads.
fn load(place: u8, ins: &RawIns) -> Option<Instr>
    ensures { result ≡ option_map (λ at. Instr.Load (instructions.type_sort place) at) (instructions.local_in ins.now) }
{
    let at = local(ins)?;
    Some(Instr::Load {
        sort: type_sort(place),
        at,
    })
}

/// A store to a local, by the place of its opcode among the stores.
fn store(place: u8, ins: &RawIns) -> Option<Instr>
    ensures { result ≡ option_map (λ at. Instr.Store (instructions.type_sort place) at) (instructions.local_in ins.now) }
{
    let at = local(ins)?;
    Some(Instr::Store {
        sort: type_sort(place),
        at,
    })
}

/// `iinc`.
fn increment(ins: &RawIns) -> Option<Instr>
    ensures { result ≡ option_map (λ at. Instr.Inc at) (instructions.local_in ins.now) }
{
    let at = local(ins)?;
    Some(Instr::Inc { at })
}

/// A branch on a condition to a place.
fn branch(op: u8, place: Option<u64>) -> Option<Instr>
    ensures { result ≡ option_map (λ to. Instr.If op to) (instructions.short_place place) }
{
    let to = short(place)?;
    Some(Instr::If { op, to })
}

/// A jump to a place.
fn jump(place: Option<u64>) -> Option<Instr>
    ensures { result ≡ option_map (λ to. Instr.Goto to) (instructions.short_place place) }
{
    let to = short(place)?;
    Some(Instr::Goto { to })
}

/// The instruction that an opcode and its operands say, if they do, at a place.
#[tactic(auto, unfolding(fp_model::specs::Instructions::operand_instr))]
pub fn operand_instr(pc: u32, ins: &RawIns) -> Option<Instr>
    ensures { result ≡ instructions.operand_instr pc ins.now }
{
    let op = ins.op;
    let args = ins.args.as_slice();
    match op {
        21..=25 => load(op - 21, ins),
        54..=58 => store(op - 54, ins),
        132 => increment(ins),
        153..=166 | 198 | 199 => branch(op, near(pc, args)),
        167 => jump(near(pc, args)),
        188 => primitive_array(args),
        200 => jump(far(pc, args, 0)),
        _ => None,
    }
}

/// What loads a value, by the first letter of its descriptor.
fn letter_instr(letter: u8) -> Instr
    ensures { result ≡ instructions.letter_instr letter }
{
    match letter {
        b'B' | b'C' | b'I' | b'S' | b'Z' => Instr::Const { sort: Sort::Int },
        b'J' => Instr::Const { sort: Sort::Long },
        b'F' => Instr::Const { sort: Sort::Float },
        b'D' => Instr::Const { sort: Sort::Double },
        _ => Instr::ConstRef,
    }
}

/// What loads the value of a pair's descriptor.
fn pair_instr(entries: &[Entry], index: u16) -> Option<Instr>
    ensures { result ≡ instructions.descr_instr (descr_at entries.now index) }
{
    match at(entries, index as usize) {
        Some(Entry::Pair { descr, .. }) => text_instr(entries, *descr),
        _ => None,
    }
}

/// What loads the value of the descriptor at an index.
fn text_instr(entries: &[Entry], index: u16) -> Option<Instr>
    ensures { result ≡ instructions.descr_instr (text_at entries.now index) }
{
    match text(entries, index) {
        Some([first, ..]) => Some(letter_instr(*first)),
        Some([]) => Some(Instr::ConstRef),
        None => None,
    }
}

/// What loads the constant at an index.
fn entry_instr(entries: &[Entry], index: u16) -> Option<Instr>
    ensures { result ≡ instructions.entry_instr entries.now (slice_get entries.now index) }
{
    let instr = match at(entries, index as usize)? {
        Entry::Integer(_) => Instr::Const { sort: Sort::Int },
        Entry::Float(_) => Instr::Const { sort: Sort::Float },
        Entry::Long(_) => Instr::Const { sort: Sort::Long },
        Entry::Double(_) => Instr::Const { sort: Sort::Double },
        Entry::Class(_) | Entry::Text(_) | Entry::Handle { .. } | Entry::MethodType(_) => {
            Instr::ConstRef
        }
        Entry::Dynamic { pair, .. } => return pair_instr(entries, *pair),
        _ => return None,
    };
    Some(instr)
}

/// What loads the constant that operands refer to, where the opcode is one of those that do.
#[tactic(auto, unfolding(fp_model::specs::Instructions::constant_instr))]
pub fn constant_instr(entries: &[Entry], ins: &RawIns) -> Option<Instr>
    ensures { result ≡ instructions.constant_instr entries.now ins.now }
{
    let args = ins.args.as_slice();
    match ins.op {
        18 => entry_instr(entries, byte_in(args)? as u16),
        19 | 20 => entry_instr(entries, number_in(args)?),
        _ => None,
    }
}
