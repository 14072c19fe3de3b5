//! The facts of sets of classes, each worked out by hand.
ghost use Rattle.std.specs.Prelude.{All, IfOk};
ghost use Rattle.fp_model.specs.ClassSet.{methods_of};
ghost use Rattle.fp_model.specs.SoundCode.{IsSoundMethod};
ghost use Rattle.fp_facts.specs.Kinded.{IsKindedMethod};

use super::files::{load_files, method_file};
use super::origin::{P, set_text};
use super::table::check;
use fp_extract::{Room, facts};
use fp_facts::{
    Access, Assume, CallSite, CallTargets, Facts, Loaded, MethodFacts, OriginSet, Reference,
};
use fp_hier::Hier;
use fp_model::{ClassSet, name_text};
use indexmap::IndexMap;
use sqlite_items::Items;
use std::alloc::{AllocError, Global};
use std::test::Fail;

/// More than the facts of any set here take.
pub const AMPLE: Room = Room {
    places: 1_048_576,
    uses: 16_777_216,
    gives: 16_777_216,
};

/// A name of a set, as text.
fn name_of(alloc: Global, set: &ClassSet, name: u32) -> Result<String, Fail> {
    Ok(String::from_utf8(Vec::from_slice(alloc, name_text(set.names(), name))?)?)
}

/// The origins of some words, with commas between them.
fn sets_text(alloc: Global, sets: &[OriginSet]) -> Result<String, AllocError> {
    let mut texts = Vec::new(alloc);
    for set in sets {
        texts.push(set_text(alloc, set)?)?;
    }
    texts.join(alloc, ",")
}

/// The offset, the number of the reference and the arguments of each of some calls.
fn sites_text(alloc: Global, sites: &[CallSite]) -> Result<String, AllocError> {
    let mut texts = Vec::new(alloc);
    for site in sites {
        let args = sets_text(alloc, site.args.as_slice())?;
        texts.push(format!(in alloc; "{}:{}({args})", site.pc, site.call)?)?;
    }
    texts.join(alloc, " ")
}

/// The offset, the form, the field, the object and the value of each of some reads and writes.
fn accesses_text(alloc: Global, accesses: &[Access]) -> Result<String, AllocError> {
    let mut texts = Vec::new(alloc);
    for access in accesses {
        let object = set_text(alloc, &access.object)?;
        let value = set_text(alloc, &access.value)?;
        let (pc, form, field) = (access.pc, access.form, access.field);
        texts.push(format!(in alloc; "{pc} {form:?} {field:?} {object}/{value}")?)?;
    }
    texts.join(alloc, " ")
}

/// The facts of a method: its calls, what it makes and begins, its reads and writes, and what it raises and gives back.
fn method_text(alloc: Global, facts: &MethodFacts) -> Result<String, AllocError> {
    let sites = sites_text(alloc, facts.sites.as_slice())?;
    let news = facts.news.as_slice();
    let allocs = facts.allocs.as_slice();
    let begins = facts.begins.as_slice();
    let accesses = accesses_text(alloc, facts.accesses.as_slice())?;
    let thrown = sets_text(alloc, facts.thrown.as_slice())?;
    let returned = sets_text(alloc, facts.returned.as_slice())?;
    format!(in alloc; "{sites}|{news:?} {allocs:?} {begins:?}|{accesses}|{thrown}/{returned}")
}

/// What calls can reach: the targets, the bits that are always reached, and each class with the bits that its objects add.
fn targets_text(alloc: Global, call: &CallTargets) -> Result<String, AllocError> {
    let mut texts = Vec::new(alloc);
    for (class, bits) in call.watch.as_slice() {
        texts.push(format!(in alloc; "{class}{:?}", bits.as_slice())?)?;
    }
    let watch = texts.join(alloc, ",")?;
    format!(in alloc;
        "{:?} {:?}/{watch}",
        call.targets.as_slice(),
        call.always.as_slice()
    )
}

/// A reference of calls, and what these can reach.
fn call_text(
    alloc: Global,
    set: &ClassSet,
    reference: &Reference,
    call: &CallTargets,
) -> Result<String, Fail> {
    let class = name_of(alloc, set, reference.class)?;
    let name = name_of(alloc, set, reference.name)?;
    let descr = name_of(alloc, set, reference.descr)?;
    let targets = targets_text(alloc, call)?;
    let (form, caller) = (reference.form, reference.caller);
    Ok(format!(in alloc; "{form:?} {class}.{name}{descr} {caller}: {targets}")?)
}

/// Facts as text: a line for each reference, one for each method with code, and one of the seed classes and the roots.
fn facts_text(alloc: Global, set: &ClassSet, facts: &Facts) -> Result<String, Fail> {
    let mut lines = Vec::new(alloc);
    let calls = facts.calls.as_slice();
    let references = facts.references.as_slice();
    for at in 0..references.len() {
        let call = calls.get(at).ok_or("no targets")?;
        lines.push(call_text(alloc, set, &references[at], call)?)?;
    }
    for method in facts.methods.as_slice() {
        lines.push(method_text(alloc, method)?)?;
    }
    let seeds = facts.seeds.as_slice();
    let roots = facts.roots.as_slice();
    lines.push(format!(in alloc; "{seeds:?} {roots:?}")?)?;
    Ok(lines.join(alloc, "\n")?)
}

/// The set of class files, whose digits have spaces between them.
pub fn load_digits(alloc: Global, digits: &str) -> Result<Loaded, Fail>
    ensures sound { IfOk result (λ loaded. All IsSoundMethod (methods_of loaded.set.classes)) }
    ensures kinded { IfOk result (λ loaded. All IsKindedMethod (methods_of loaded.set.classes)) }
{
    let mut files = IndexMap::new(alloc);
    for (at, file) in digits.split_whitespace().enumerate() {
        let path = format!(in alloc; "d/{at}.class")?;
        files.insert(path, hex::decode(alloc, file)?)?;
    }
    match load_files(alloc, files)? {
        Ok(loaded) => Ok(loaded),
        Err(_) => Err("refused".into()),
    }
}

/// The facts of class files and of a root.
fn told(alloc: Global, digits: &str, root: u32) -> Result<String, Fail> {
    let loaded = load_digits(alloc, digits)?;
    let hier = Hier::build(alloc, &loaded.set)?;
    let roots = Items::from_vec(Vec::from_array(alloc, [root])?);
    let mut room = AMPLE;
    match facts(
        alloc,
        &loaded.set,
        &hier,
        roots,
        Assume::none(alloc),
        &mut room,
    ) {
        Ok(facts) => facts_text(alloc, &loaded.set, &facts),
        Err(fault) => Ok(format!(in alloc; "{fault:?}")?),
    }
}

/// A class H with a constructor, and a method that prints a text: what it calls is outside the set.
const H: &str = "\
    cafebabe00000034001a010001480700010100106a6176612f6c616e672f4f626a6563740700030100063c696e69743e010003282956010004436f64\
    650c000500060a000400080100046d61696e010016285b4c6a6176612f6c616e672f537472696e673b29560100106a6176612f6c616e672f53797374\
    656d07000c0100036f75740100154c6a6176612f696f2f5072696e7453747265616d3b0c000e000f09000d001001000268690800120100136a617661\
    2f696f2f5072696e7453747265616d0700140100077072696e746c6e010015284c6a6176612f6c616e672f537472696e673b29560c001600170a0015\
    0018002100020004000000000002000100050006000100070000001100010001000000052ab70009b1000000000009000a000b000100070000001500\
    02000100000009b200111213b60019b1000000000000\
    ";

/// A final class L, whose constructor keeps another L in its field.
pub const L: &str = "\
    cafebabe00000034000f0100014c0700010100106a6176612f6c616e672f4f626a6563740700030100047461696c0100034c4c3b0100063c696e6974\
    3e010006284c4c3b2956010004436f64650100032829560c0007000a0a0004000b0c00050006090002000d0031000200040000000100100005000600\
    0000010001000700080001000900000016000200020000000a2ab7000c2a2bb5000eb1000000000000\
    ";

/// Classes A, B and C, where B and C extend A and each has a method m, and M, which makes a B and calls A.m on it.
pub const CALLS: &str = "\
    cafebabe00000034000b010001410700010100106a6176612f6c616e672f4f626a6563740700030100063c696e69743e010003282956010004436f64\
    650c000500060a000400080100016d002100020004000000000002000100050006000100070000001100010001000000052ab70009b1000000000001\
    000a0006000100070000000d0000000100000001b1000000000000 \
    cafebabe00000034000e01000142070001010001410700030100063c696e69743e010003282956010004436f64650c000500060a000400080100016d\
    0100014307000b0a000c0008002100020004000000000002000100050006000100070000001100010001000000052ab70009b1000000000001000a00\
    0600010007000000150002000100000009bb000c59b7000d57b1000000000000 \
    cafebabe00000034000b01000143070001010001410700030100063c696e69743e010003282956010004436f64650c000500060a000400080100016d\
    002100020004000000000002000100050006000100070000001100010001000000052ab70009b1000000000001000a0006000100070000000d000000\
    0100000001b1000000000000 \
    cafebabe0000003400120100014d0700010100106a6176612f6c616e672f4f626a6563740700030100046d61696e010003282956010004436f646501\
    0001420700080100063c696e69743e0c000a00060a0009000b0100014107000d0100016d0c000f00060a000e00100021000200040000000000010009\
    000500060001000700000017000200000000000bbb000959b7000cb60011b1000000000000\
    ";

/// Classes p.A, q.B and p.M of two packages, where B extends A, each of the two with a method m, and M makes a B and calls A.m on it.
pub const PACKAGES: &str = "\
    cafebabe00000034000b010003702f410700010100106a6176612f6c616e672f4f626a6563740700030100063c696e69743e01000328295601000443\
    6f64650c000500060a000400080100016d002100020004000000000002000100050006000100070000001100010001000000052ab70009b100000000\
    0000000a0006000100070000000d0000000100000001b1000000000000 \
    cafebabe00000034000b010003712f42070001010003702f410700030100063c696e69743e010003282956010004436f64650c000500060a00040008\
    0100016d002100020004000000000002000100050006000100070000001100010001000000052ab70009b1000000000001000a000600010007000000\
    0d0000000100000001b1000000000000 \
    cafebabe000000340012010003702f4d0700010100106a6176612f6c616e672f4f626a6563740700030100046d61696e010003282956010004436f64\
    65010003712f420700080100063c696e69743e0c000a00060a0009000b010003702f4107000d0100016d0c000f00060a000e00100021000200040000\
    000000010009000500060001000700000017000200000000000bbb000959b7000cb60011b1000000000000\
    ";

/// Classes T and U with initialisers, where U extends T, and V, whose methods make a U, read U.x, which is T's, and call U.touch,
/// which is T's too.
const INITIALISED: &str = "\
    cafebabe0000003d00160a000200030700040c000500060100106a6176612f6c616e672f4f626a6563740100063c696e69743e010003282956070008\
    0100116a6176612f6c616e672f496e7465676572037ffffffe09000b000c07000d0c000e000f01000154010001780100014909000b00110c0012000f\
    010006736861726564010004436f6465010005746f7563680100083c636c696e69743e0020000b0002000000020008000e000f000000080012000f00\
    000003000000050006000100130000001100010001000000052ab70001b100000000000800140006000100130000000d0000000000000001b1000000\
    000008001500060001001300000016000100000000000a1209b3000a04b30010b1000000000000 \
    cafebabe0000003d000f0a000200030700040c00050006010001540100063c696e69743e010003282956090008000907000a0c000b000c0100015501\
    00017901000149010004436f64650100083c636c696e69743e002000080002000000010008000b000c000000020000000500060001000d0000001100\
    010001000000052ab70001b1000000000008000e00060001000d00000011000100000000000505b30007b1000000000000 \
    cafebabe0000003d00190a000200030700040c000500060100106a6176612f6c616e672f4f626a6563740100063c696e69743e010003282956070008\
    010001550a00070003090007000b0c000c000d01000178010001490a0007000f0c00100006010005746f75636807001201000156010004436f646501\
    00046d616b650100047265616401000328294901000463616c6c0100046e6f6e65002000110002000000000005000000050006000100130000001100\
    010001000000052ab70001b10000000000080014000600010013000000150002000000000009bb000759b7000957b100000000000800150016000100\
    13000000100001000000000004b2000aac0000000000080017000600010013000000100000000000000004b8000eb100000000000800180016000100\
    130000000e000100000000000204ac000000000000\
    ";

/// Classes Base, which has a field of the type Part; Other; Part, which has a static field of the type Other; and Sub, which extends
/// Base and has a field of the type Sub[].
const PARTS: &str = "\
    cafebabe0000003d000c0a000200030700040c000500060100106a6176612f6c616e672f4f626a6563740100063c696e69743e010003282956070008\
    01000442617365010004706172740100064c506172743b010004436f64650020000700020000000100000009000a000000010000000500060001000b\
    0000001100010001000000052ab70001b1000000000000 \
    cafebabe0000003d000a0a000200030700040c000500060100106a6176612f6c616e672f4f626a6563740100063c696e69743e010003282956070008\
    0100054f74686572010004436f6465002000070002000000000001000000050006000100090000001100010001000000052ab70001b1000000000000 \
    cafebabe0000003d000c0a000200030700040c000500060100106a6176612f6c616e672f4f626a6563740100063c696e69743e010003282956070008\
    01000450617274010006756e7365656e0100074c4f746865723b010004436f64650020000700020000000100080009000a0000000100000005000600\
    01000b0000001100010001000000052ab70001b1000000000000 \
    cafebabe0000003d000d0a000200030700040c00050006010004426173650100063c696e69743e0100032829560700080100035375620100046d6f72\
    650100065b4c5375623b010004436f6465010004726f6f740020000700020000000100000009000a000000020000000500060001000b000000110001\
    0001000000052ab70001b1000000000000000c00060001000b0000000d0000000100000001b1000000000000\
    ";

const H_FACTS: &str = "\
    Special java/lang/Object.<init>()V 0: [] []/\n\
    Virtual java/io/PrintStream.println(Ljava/lang/String;)V 0: [] [0]/\n\
    1:0(Param(0))|[] [] []||/\n\
    5:1(Other,Other)|[] [] []|0 GetStatic None /|/\n\
    [] [1]";

const L_FACTS: &str = "\
    Special java/lang/Object.<init>()V 0: [] []/\n\
    1:0(Param(0))|[] [] []|6 PutField Some(0) Param(0)/Param(1)|/\n\
    [0] [0]";

const CALLS_FACTS: &str = "\
    Special java/lang/Object.<init>()V 0: [] []/\n\
    Special A.<init>()V 1: [0] [0]/\n\
    Special C.<init>()V 1: [4] [0]/\n\
    Special A.<init>()V 2: [0] [0]/\n\
    Special B.<init>()V 3: [2] [0]/\n\
    Virtual A.m()V 0: [1, 3, 5] []/0[0],1[1],2[2]\n\
    1:0(Param(0))|[] [] []||/\n\
    |[] [] []||/\n\
    1:1(Param(0))|[] [] []||/\n\
    4:2(New(0))|[2] [0] []||/\n\
    1:3(Param(0))|[] [] []||/\n\
    |[] [] []||/\n\
    4:4(New(0)) 7:5(New(0))|[1] [0] []||/\n\
    [] [6]";

const PACKAGES_FACTS: &str = "\
    Special java/lang/Object.<init>()V 0: [] []/\n\
    Special p/A.<init>()V 1: [0] [0]/\n\
    Special q/B.<init>()V 2: [2] [0]/\n\
    Virtual p/A.m()V 0: [1, 3] []/0[0],1[1]\n\
    1:0(Param(0))|[] [] []||/\n\
    |[] [] []||/\n\
    1:1(Param(0))|[] [] []||/\n\
    |[] [] []||/\n\
    4:2(New(0)) 7:3(New(0))|[1] [0] []||/\n\
    [] [4]";

/// What the methods of the class P do (its constructor, one that sets a field of an object from a static, two that make one, and
/// one that sets the field): two calls of one reference have one number.
const P_FACTS: &str = "\
    Special java/lang/Object.<init>()V 0: [] []/\n\
    Static P.set(LP;)V 0: [4] [0]/\n\
    Special P.<init>()V 0: [0] [0]/\n\
    1:0(Param(0))|[] [] []|6 PutField Some(0) Param(0)/|/\n\
    3:1(Other)|[] [] []|0 GetStatic Some(1) /|/\n\
    4:2(New(0))|[0] [0] []||/New(0)\n\
    4:2(New(0)) 7:1(New(0))|[0] [0] []||/\n\
    |[] [] []|2 PutField Some(0) Param(0)/|/\n\
    [0] [4]";

const INITIALISED_FACTS: &str = "\
    Special java/lang/Object.<init>()V 0: [] []/\n\
    Special T.<init>()V 1: [0] [0]/\n\
    Special java/lang/Object.<init>()V 2: [] []/\n\
    Special U.<init>()V 2: [3] [0]/\n\
    Static U.touch()V 0: [1] [0]/\n\
    1:0(Param(0))|[] [] []||/\n\
    |[] [] []||/\n\
    |[] [] [0]|2 PutStatic Some(0) / 6 PutStatic Some(1) /|/\n\
    1:1(Param(0))|[] [] []||/\n\
    |[] [] [0, 1]|1 PutStatic Some(2) /|/\n\
    1:2(Param(0))|[] [] []||/\n\
    4:3(New(0))|[1] [0] [0, 1]||/\n\
    |[] [] [0]|0 GetStatic Some(0) /|/\n\
    0:4()|[] [] [0]||/\n\
    |[] [] []||/\n\
    [1] [3]";

const PARTS_FACTS: &str = "\
    Special java/lang/Object.<init>()V 0: [] []/\n\
    Special java/lang/Object.<init>()V 1: [] []/\n\
    Special java/lang/Object.<init>()V 2: [] []/\n\
    Special Base.<init>()V 3: [0] [0]/\n\
    1:0(Param(0))|[] [] []||/\n\
    1:1(Param(0))|[] [] []||/\n\
    1:2(Param(0))|[] [] []||/\n\
    1:3(Param(0))|[] [] []||/\n\
    |[] [] []||/\n\
    [2, 3] [4]";

#[test]
fn facts_are_what_the_codes_say(rt: HostRuntime) -> Result<(), Fail> {
    assert_eq!(rt; told(rt.alloc(), H, 1)?.as_str(), H_FACTS);
    assert_eq!(rt; told(rt.alloc(), L, 0)?.as_str(), L_FACTS);
    assert_eq!(rt; told(rt.alloc(), CALLS, 6)?.as_str(), CALLS_FACTS);
    assert_eq!(rt; told(rt.alloc(), PACKAGES, 4)?.as_str(), PACKAGES_FACTS);
    assert_eq!(rt; told(rt.alloc(), P, 4)?.as_str(), P_FACTS);
    Ok(())
}

#[test]
fn initialisers_begin_and_seeds_follow_fields(rt: HostRuntime) -> Result<(), Fail> {
    assert_eq!(rt;
        told(rt.alloc(), INITIALISED, 3)?.as_str(),
        INITIALISED_FACTS
    );
    assert_eq!(rt; told(rt.alloc(), PARTS, 4)?.as_str(), PARTS_FACTS);
    Ok(())
}

/// Descriptors and codes of static methods, and what they do: an element that is read and raised, and an object that no way leads to.
const ROWS: &str = "\
    ([Ljava/lang/Throwable;)V 2a0332bf;|[] [] []|2 Load None Param(0)/|Other/\n\
    ()V b1bb00024cb1;|[] [] []||/\n\
    ";

#[test]
fn elements_are_read_and_what_is_unreachable_does_nothing(rt: HostRuntime) -> Result<(), Fail> {
    for line in ROWS.lines() {
        let (row, wanted) = line.rsplit_once(';').ok_or("no answer")?;
        let (descr, code) = row.split_once(' ').ok_or("no code")?;
        let code = hex::decode(rt.alloc(), code)?;
        let bytes = method_file(rt.alloc(), descr, &code, &[])?;
        let text = told(rt.alloc(), hex::encode(rt.alloc(), &bytes)?.as_str(), 9)?;
        let first = text.as_str().split_once('\n').ok_or("one line")?.0;
        assert_eq!(rt; first, wanted, "at {line}");
    }
    Ok(())
}

/// What is left of some room after the facts of a set, or why there are none.
fn left_text(alloc: Global, loaded: &Loaded, mut room: Room) -> Result<String, Fail>
    requires sound { All IsSoundMethod (methods_of loaded.now.set.classes) }
    requires kinded { All IsKindedMethod (methods_of loaded.now.set.classes) }
{
    let hier = Hier::build(alloc, &loaded.set)?;
    let roots = Items::new(alloc);
    match facts(
        alloc,
        &loaded.set,
        &hier,
        roots,
        Assume::none(alloc),
        &mut room,
    ) {
        Ok(_) => Ok(format!(in alloc; "{} {} {}", room.places, room.uses, room.gives)?),
        Err(fault) => Ok(format!(in alloc; "{fault:?}")?),
    }
}

/// Rooms, and what the calls and allocations of the classes A, B, C and M leave: six calls, of which one watches three classes, with
/// seven targets in all, and two allocations.
const ROOMS: &str = "\
    8 9 13;0 0 0\n\
    108 209 313;100 200 300\n\
    7 0 0;Limit(Places)\n\
    8 8 0;Limit(Uses)\n\
    8 9 12;Limit(Gives)\n\
    ";

#[test]
fn the_first_bound_that_is_passed_is_told(rt: HostRuntime) -> Result<(), Fail> {
    for line in ROOMS.lines() {
        let (row, wanted) = line.split_once(';').ok_or("no answer")?;
        let (places, rest) = row.split_once(' ').ok_or("no uses")?;
        let (uses, gives) = rest.split_once(' ').ok_or("no gives")?;
        let room = Room {
            places: places.parse()?,
            uses: uses.parse()?,
            gives: gives.parse()?,
        };
        let loaded = load_digits(rt.alloc(), CALLS)?;
        let text = left_text(rt.alloc(), &loaded, room)?;
        assert_eq!(rt; text.as_str(), wanted, "at {line}");
    }
    Ok(())
}

/// A text of a constant pool (JVMS SE 21 section 4.4.7).
fn push_text(bytes: &mut Vec<u8>, text: &str) -> Result<(), AllocError> {
    bytes.push(1)?;
    bytes.extend_from_slice(&u16::try_from(text.len()).unwrap_or(0).to_be_bytes())?;
    bytes.extend_from_slice(text.as_bytes())?;
    Ok(())
}

/// The class file of a class of a name and a superclass with one method, of these flags and this name and without parameters or
/// a result, by its code, which uses one word of the stack and one local variable. The twelfth entry of its pool refers to Base.m.
fn one_method_file(
    alloc: Global,
    name: &str,
    parent: &str,
    flags: u8,
    method: &str,
    code: &[u8],
) -> Result<Vec<u8>, AllocError> {
    let mut bytes = Vec::from_slice(alloc, &[0xCA, 0xFE, 0xBA, 0xBE, 0, 0, 0, 52, 0, 13])?;
    push_text(&mut bytes, name)?;
    bytes.extend_from_slice(&[7, 0, 1])?;
    push_text(&mut bytes, parent)?;
    bytes.extend_from_slice(&[7, 0, 3])?;
    push_text(&mut bytes, method)?;
    push_text(&mut bytes, "()V")?;
    push_text(&mut bytes, "Code")?;
    push_text(&mut bytes, "Base")?;
    bytes.extend_from_slice(&[7, 0, 8])?;
    push_text(&mut bytes, "m")?;
    bytes.extend_from_slice(&[12, 0, 10, 0, 6, 10, 0, 9, 0, 11])?;
    bytes.extend_from_slice(&[0, 1, 0, 2, 0, 4, 0, 0, 0, 0, 0, 1])?;
    bytes.extend_from_slice(&[0, flags, 0, 5, 0, 6, 0, 1, 0, 7])?;
    let count = u32::try_from(code.len()).unwrap_or(0);
    bytes.extend_from_slice(&count.wrapping_add(12).to_be_bytes())?;
    bytes.extend_from_slice(&[0, 1, 0, 1])?;
    bytes.extend_from_slice(&count.to_be_bytes())?;
    bytes.extend_from_slice(code)?;
    bytes.extend_from_slice(&[0, 0, 0, 0, 0, 0])?;
    Ok(bytes)
}

/// A class Base with a method m, so many classes that extend it and override m, and one that calls Base.m as often.
pub fn overriders(alloc: Global, count: u32) -> Result<Loaded, Fail>
    ensures sound { IfOk result (λ loaded. All IsSoundMethod (methods_of loaded.set.classes)) }
    ensures kinded { IfOk result (λ loaded. All IsKindedMethod (methods_of loaded.set.classes)) }
{
    let mut files = IndexMap::new(alloc);
    let base = one_method_file(alloc, "Base", "java/lang/Object", 1, "m", &[0xB1])?;
    files.insert(String::from_str(alloc, "d/Base.class")?, base)?;
    let mut calls = Vec::new(alloc);
    for at in 0..count {
        let name = format!(in alloc; "C{at}")?;
        let path = format!(in alloc; "d/C{at}.class")?;
        let file = one_method_file(alloc, name.as_str(), "Base", 1, "m", &[0xB1])?;
        files.insert(path, file)?;
        calls.extend_from_slice(&[0x01, 0xB6, 0, 12])?;
    }
    calls.push(0xB1)?;
    let caller = one_method_file(alloc, "M", "java/lang/Object", 9, "main", &calls)?;
    files.insert(String::from_str(alloc, "d/M.class")?, caller)?;
    match load_files(alloc, files)? {
        Ok(loaded) => Ok(loaded),
        Err(_) => Err("refused".into()),
    }
}

/// How many classes override a method that is called as often, and what is told of the bounds of a system: n calls use n (n + 2)
/// places, and give to n ((n + 1) / 64 + n + 2).
const OVERRIDERS: &str = "\
    4096;Limit(Uses)\n\
    4095;Limit(Gives)\n\
    4064;Limit(Gives)\n\
    4063;788544 261121 5152\n\
    ";

fn overriders_told(alloc: Global, count: &str) -> Result<String, Fail> {
    let loaded = overriders(alloc, count.parse()?)?;
    left_text(alloc, &loaded, AMPLE)
}

#[test]
fn many_targets_of_many_calls_pass_the_bounds(rt: HostRuntime) -> Result<(), Fail> {
    check(&rt, rt.alloc(), OVERRIDERS, overriders_told)
}
