//! Where the words of frames may come from, each worked out by hand.
ghost use Rattle.std.specs.Prelude.{All};
ghost use Rattle.fp_model.specs.ClassSet.{methods_of};
ghost use Rattle.fp_model.specs.SoundCode.{IsSoundMethod};
ghost use Rattle.fp_facts.specs.Kinded.{IsKindedMethod};

use super::files::{load_file, method_file};
use fp_facts::OriginSet;
use fp_flow::edges;
use fp_model::{ClassSet, Method, MethodId};
use fp_origin::origins;
use std::alloc::{AllocError, Global};
use std::test::Fail;

/// The descriptors of static methods, the digits of their codes and of a row of their exception tables, if any, the number of an
/// instruction, and the origins of the words before it: loads, stores and casts keep an argument, and null has no origin; what is
/// made, and what a call gives; the element of an array, and a caught object; a word that is a reference on one way and an int on
/// another; a long takes two words, and the next argument has its number all the same; a loop that rotates three local variables.
const ROWS: &str = "\
    (Ljava/lang/Object;)V 2ac000024cb1  3=Param(0) Param(0)  \n\
    (Ljava/lang/Object;)V 2ab1  1=Param(0)    Param(0)\n\
    ()V 014cb1  2=   \n\
    ()V bb00024cb1  2= New(0)  \n\
    ()V 03bc0a4cb1  3= New(1)  \n\
    (Ljava/lang/Object;)Ljava/lang/Object; 2ab80009b0  2=Param(0)    Result(1)\n\
    (Ljava/lang/Object;)V 2a03324cb1  4=Param(0) Other  \n\
    ()V b14cb1 0000000100010000 2= Other  \n\
    (Ljava/lang/Object;)V 039900082a4ca70005033cb1  7=Param(0) Param(0)  \n\
    (JLjava/lang/Object;)V 2c4eb1  2=  Param(1) Param(1)\n\
    (Ljava/lang/Object;Ljava/lang/Object;Ljava/lang/Object;)V 2a4e2b4b2c4c2d4da7fff8  0=Param(0)+Param(1)+Param(2) Param(0)+Param(1)+Param(2) Param(0)+Param(1)+Param(2) Param(0)+Param(1)+Param(2)\n\
    ";

/// The origins of a word.
pub fn set_text(alloc: Global, set: &OriginSet) -> Result<String, AllocError> {
    let mut names = Vec::new(alloc);
    for origin in set.as_slice() {
        names.push(format!(in alloc; "{origin:?}")?)?;
    }
    names.join(alloc, "+")
}

/// The origins of the words before an instruction of a method.
fn words_text(alloc: Global, method: &Method, number: usize) -> Result<String, AllocError>
    requires sound { IsSoundMethod method.now }
    requires kinded { IsKindedMethod method.now }
{
    let Some(code) = &method.code else {
        return String::from_str(alloc, "no code");
    };
    let flow = edges(alloc, code)?;
    let Ok(found) = origins(alloc, code, &flow, method) else {
        return String::from_str(alloc, "fault");
    };
    let Some(Some(words)) = found.frames.get(number) else {
        return String::from_str(alloc, "unreached");
    };
    let mut texts = Vec::new(alloc);
    for word in words.as_slice() {
        texts.push(set_text(alloc, word)?)?;
    }
    texts.join(alloc, " ")
}

/// The same of the method of a number.
#[tactic(auto, using(crate::proofs::MethodLemmas::first))]
fn method_text(
    alloc: Global,
    set: &ClassSet,
    method: MethodId,
    number: usize,
) -> Result<String, AllocError>
    requires sound { All IsSoundMethod (methods_of set.now.classes) }
    requires kinded { All IsKindedMethod (methods_of set.now.classes) }
{
    let (_classes, _fields, methods) = set.counts();
    if method >= methods {
        return String::from_str(alloc, "no method");
    }
    words_text(alloc, set.method(method), number)
}

/// The same of a method of a class file.
fn file_text(
    alloc: Global,
    bytes: Vec<u8>,
    method: MethodId,
    number: usize,
) -> Result<String, Fail> {
    let loaded = load_file(alloc, bytes)?;
    Ok(method_text(alloc, &loaded.set, method, number)?)
}

/// The same of a row.
fn row_text(alloc: Global, row: &str) -> Result<String, Fail> {
    let (descr, rest) = row.split_once(' ').ok_or("no code")?;
    let (code, rest) = rest.split_once(' ').ok_or("no rows")?;
    let (rows, number) = rest.split_once(' ').ok_or("no number")?;
    let code = hex::decode(alloc, code)?;
    let rows = hex::decode(alloc, rows)?;
    let number = number.parse::<usize>()?;
    let bytes = method_file(alloc, descr, &code, &rows)?;
    file_text(alloc, bytes, 0, number)
}

#[test]
fn references_come_from_their_origins(rt: HostRuntime) -> Result<(), Fail> {
    for line in ROWS.lines() {
        let (row, wanted) = line.split_once('=').ok_or("no answer")?;
        let text = row_text(rt.alloc(), row)?;
        assert_eq!(rt; text.as_str(), wanted, "at {line}");
    }
    Ok(())
}

/// A class H that prints a text, as a Java compiler writes it. Its method 1 is the main method.
const H: &str = "\
    cafebabe0000003d001d0a000200030700040c000500060100106a6176612f6c616e672f4f626a6563740100063c696e69743e0100032829\
    56090008000907000a0c000b000c0100106a6176612f6c616e672f53797374656d0100036f75740100154c6a6176612f696f2f5072696e74\
    53747265616d3b08000e01000268690a001000110700120c001300140100136a6176612f696f2f5072696e7453747265616d010007707269\
    6e746c6e010015284c6a6176612f6c616e672f537472696e673b295607001601000148010004436f646501000f4c696e654e756d62657254\
    61626c650100046d61696e010016285b4c6a6176612f6c616e672f537472696e673b295601000a536f7572636546696c65010006482e6a61\
    7661002000150002000000000002000000050006000100170000001d00010001000000052ab70001b1000000010018000000060001000000\
    0100090019001a00010017000000210002000100000009b20007120db6000fb1000000010018000000060001000000010001001b00000002\
    001c\
    ";

/// A class P with a field v and methods that set it in an object that they are handed or make. Its method 2 makes one.
pub const P: &str = "\
    cafebabe00000034001b010001500700010100106a6176612f6c616e672f4f626a6563740700030100017601000149010003637572010003\
    4c503b0100063c696e69743e010003282956010004436f64650c0009000a0a0004000c0c00050006090002000e0100036261640c00070008\
    0900020011010003736574010006284c503b29560c001300140a000200150100026d6b01000528294c503b0a0002000c0100026f6b002100\
    0200040000000200000005000600000008000700080000000500010009000a0001000b00000016000200010000000a2ab7000d2a04b5000f\
    b10000000000090010000a0001000b000000130004000000000007b20012b80016b1000000000009001700180001000b0000001400040000\
    00000008bb000259b70019b0000000000009001a000a0001000b00000017000400000000000bbb000259b70019b80016b100000000000900\
    1300140001000b0000001200040001000000062a05b5000fb1000000000000\
    ";

/// A class S, whose method 0 gives back its argument.
const S: &str = "\
    cafebabe00000034000c010001530700010100106a6176612f6c616e672f4f626a6563740700030100026964010008284c533b294c533b01\
    0004436f64650100063c696e69743e0100032829560c000800090a0004000a00210002000400000000000200090005000600010007000000\
    0e00040001000000022ab000000000000100080009000100070000001100010001000000052ab7000bb1000000000000\
    ";

#[test]
fn what_is_made_handed_in_and_read_has_its_origin(rt: HostRuntime) -> Result<(), Fail> {
    for (digits, method, number, wanted) in [
        (P, 2, 3, "New(0)"),
        (S, 0, 1, "Param(0) Param(0)"),
        (H, 1, 2, "Param(0) Other Other"),
    ] {
        let bytes = hex::decode(rt.alloc(), digits)?;
        let text = file_text(rt.alloc(), bytes, method, number)?;
        assert_eq!(rt; text.as_str(), wanted);
    }
    Ok(())
}
