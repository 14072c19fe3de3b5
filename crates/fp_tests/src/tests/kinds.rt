//! The frames before the instructions of a code, each worked out by hand.
ghost use Rattle.std.specs.Prelude.{All};
ghost use Rattle.fp_model.specs.SoundCode.{IsSoundMethod};

use super::files::class_of;
use fp_flow::edges;
use fp_kinds::{Kinds, kinds, law_frames};
use fp_model::Method;
use std::alloc::{AllocError, Global};
use std::test::Fail;

/// The class file of a class Y whose method takes a monitor, with a handler that lies in its own range, as compilers write it.
const MONITOR: &str = "\
    cafebabe000000340008010001590700010100106a6176612f6c616e672f4f626a65637407000301000177010015284c6a6176612f6c616e\
    672f4f626a6563743b2949010004436f64650021000200040000000000010009000500060001000700000029000200030000000d2a594cc2\
    042bc3ac4d2bc32cbf000200040008000800000008000b0008000000000000\
    ";

/// The class file of a method of 64 instructions with 65,535 words in each frame: 4,194,240 frame words, which are looked at.
const FULL: &str = "\
    cafebabe000000320008010001410700010100106a6176612f6c616e672f4f626a6563740700030100016d010003282956010004436f6465\
    002100020004000000000001000900050006000100070000004cffff00000000004000000000000000000000000000000000000000000000\
    0000000000000000000000000000000000000000000000000000000000000000000000000000000000b1000000000000\
    ";

/// The same of 65 instructions: 4,259,775 frame words, more than are looked at.
const LARGE: &str = "\
    cafebabe000000320008010001410700010100106a6176612f6c616e672f4f626a6563740700030100016d010003282956010004436f6465\
    002100020004000000000001000900050006000100070000004dffff00000000004100000000000000000000000000000000000000000000\
    0000000000000000000000000000000000000000000000000000000000000000000000000000000000b1b1000000000000\
    ";

/// The class file of a method that returns an int from `void`, at 1.
const BAD: &str = "\
    cafebabe000000320008010001410700010100106a6176612f6c616e672f4f626a6563740700030100016d010003282956010004436f6465\
    002100020004000000000001000900050006000100070000000e000200000000000203ac000000000000\
    ";

/// The words of the local variables and those of the stack before an instruction.
fn frame_text(alloc: Global, found: &Kinds, number: usize) -> Result<String, AllocError> {
    match found.frames.get(number) {
        Some(Some(frame)) => format!(in alloc;
            "{:?} {:?}",
            frame.locals.as_slice(),
            frame.stack.as_slice()
        ),
        Some(None) => String::from_str(alloc, "unreached"),
        None => String::from_str(alloc, "no instruction"),
    }
}

/// The same of a method, or why it has no frames.
fn method_text(alloc: Global, method: &Method, number: usize) -> Result<String, AllocError>
    requires { IsSoundMethod method.now }
{
    let Some(code) = &method.code else {
        return String::from_str(alloc, "no code");
    };
    let flow = edges(alloc, code)?;
    match kinds(alloc, code, &flow, method) {
        Ok(found) => frame_text(alloc, &found, number),
        Err(fault) => format!(in alloc; "{fault:?}"),
    }
}

/// The same of the first of some methods.
#[tactic(auto, using(crate::proofs::MethodLemmas::first))]
fn first_text(alloc: Global, methods: &[Method], number: usize) -> Result<String, Fail>
    requires { All IsSoundMethod methods.now }
{
    let method = methods.get(0).ok_or("no method")?;
    Ok(method_text(alloc, method, number)?)
}

fn told(alloc: Global, digits: &str, number: usize) -> Result<String, Fail> {
    let bytes = hex::decode(alloc, digits)?;
    let class = class_of(alloc, &bytes)?;
    first_text(alloc, class.methods.as_slice(), number)
}

#[test]
fn each_instruction_has_its_frame(rt: HostRuntime) -> Result<(), Fail> {
    for (digits, number, wanted) in [
        (MONITOR, 0, "[Ref, Unset, Unset] []"),
        (MONITOR, 2, "[Ref, Unset, Unset] [Ref, Ref]"),
        (MONITOR, 7, "[Ref, Ref, Unset] [Int]"),
        (MONITOR, 8, "[Ref, Ref, Unset] [Ref]"),
        (MONITOR, 12, "[Ref, Ref, Ref] [Ref]"),
        (MONITOR, 13, "no instruction"),
        (FULL, 63, "[] []"),
        (LARGE, 63, "Limit"),
        (BAD, 0, "Bad { pc: 1 }"),
    ] {
        let text = told(rt.alloc(), digits, number)?;
        assert_eq!(rt; text.as_str(), wanted, "at {number}");
    }
    law_frames();
    Ok(())
}
