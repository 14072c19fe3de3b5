//! Whether the codes of classes are kinded (JVMS SE 21 section 4.10).
ghost use Rattle.std.specs.Prelude.{◌≡◌, ◌<◌, ◌^◌, ◌++◌, [], None, false, length, map, zip, All, IfOk, OnOk, IfErr};
ghost use Rattle.std.specs.List.{list_any};
ghost use Rattle.fp_base.specs.Files.{texts};
ghost use Rattle.fp_model.specs.SoundCode.{IsSoundMethod};
ghost use Rattle.fp_facts.specs.Kinded.{IsKindedMethod};
ghost use Rattle.fp_load.specs.Faults.{refusal_told};
ghost use Rattle.fp_load.specs.Judging.{AreKindedClasses, AreSoundClasses, TellsJudged};
ghost use Rattle.fp_load.specs.Kinds as defined;

use crate::fault::{FileRefusal, LoadFault};
use fp_flow::edges;
use fp_kinds::{KindFault, MOST_FRAME_WORDS, frame_words, kinds};
use fp_model::{Class, LimitName, Method};
use sqlite_items::Items;
use std::alloc::{AllocError, Global};

/// Whether the code of a method has more frame words than are looked at.
fn is_large(method: &Method) -> bool
    requires { IsSoundMethod method.now }
    ensures { result ≡ defined.is_large method.now }
{
    match &method.code {
        Some(code) => frame_words(code) > MOST_FRAME_WORDS,
        None => false,
    }
}

/// Whether some method has such a code.
fn some_large(methods: &[Method]) -> bool
    requires { All IsSoundMethod methods.now }
    ensures { result ≡ list_any defined.is_large methods.now }
{
    for method in methods {
        if is_large(method) {
            return true;
        }
    }
    false
}

/// Whether some class has such a method.
fn any_large(classes: &[Class]) -> bool
    requires { AreSoundClasses classes.now }
    ensures { result ≡ list_any defined.has_large classes.now }
{
    for class in classes {
        if some_large(class.methods.as_slice()) {
            return true;
        }
    }
    false
}

/// Where the code of a method fails, none where the method is kinded.
fn failing(alloc: Global, method: &Method) -> Result<Option<u16>, AllocError>
    requires sound { IsSoundMethod method.now }
    requires small { defined.is_large method.now ≡ false }
    ensures failing { IfOk result (λ pc. pc ≡ defined.failing_of method.now) }
    ensures kinded { IfOk result (λ pc. pc ≡ None → IsKindedMethod method.now) }
{
    let Some(code) = &method.code else {
        return Ok(None);
    };
    let flow = edges(alloc, code)?;
    match kinds(alloc, code, &flow, method) {
        Ok(_) => Ok(None),
        Err(KindFault::Bad { pc }) => Ok(Some(pc)),
        Err(KindFault::Limit) => unreachable!(),
        Err(KindFault::Memory) => Err(AllocError),
    }
}

/// The first method that is not kinded, by its place, and where it fails.
fn first_failing(alloc: Global, methods: &[Method]) -> Result<Option<(u32, u16)>, AllocError>
    requires sound { All IsSoundMethod methods.now }
    requires small { list_any defined.is_large methods.now ≡ false }
    requires few { length methods.now < 2 ^ 32 }
    ensures failing { IfOk result (λ first. first ≡ defined.first_failing 0 methods.now) }
    ensures kinded { IfOk result (λ first. first ≡ None → All IsKindedMethod methods.now) }
{
    for (number, method) in methods.iter().enumerate() {
        if let Some(pc) = failing(alloc, method)? {
            return Ok(Some((number as u32, pc)));
        }
    }
    Ok(None)
}

/// Adds the file of a class that has a method which is not kinded.
fn add_refusal(
    alloc: Global,
    refused: &mut Items<(String, FileRefusal)>,
    class: &Class,
    path: &str,
) -> Result<(), AllocError>
    requires sound { All IsSoundMethod class.now.methods }
    requires small { defined.has_large class.now ≡ false }
    requires few { length class.now.methods < 2 ^ 32 }
    ensures refused { OnOk result (map refusal_told refused.new ≡ map refusal_told refused.old ++ defined.refusal_at path.now (defined.first_failing 0 class.now.methods)) }
    ensures kept { OnOk result (refused.new ≡ [] → refused.old ≡ []) }
    ensures kinded { OnOk result (refused.new ≡ [] → All IsKindedMethod class.now.methods) }
{
    let Some((method, pc)) = first_failing(alloc, class.methods.as_slice())? else {
        return Ok(());
    };
    let path = String::from_str(alloc, path)?;
    refused.push((path, FileRefusal::Kinds { method, pc }))
}

/// The files whose classes have a method that is not kinded.
fn refusals(
    alloc: Global,
    classes: &[Class],
    paths: &[String],
) -> Result<Items<(String, FileRefusal)>, AllocError>
    requires long { length paths.now ≡ length classes.now }
    requires sound { AreSoundClasses classes.now }
    requires small { list_any defined.has_large classes.now ≡ false }
    requires few { All (λ c. length c.methods < 2 ^ 32) classes.now }
    ensures refused { IfOk result (λ refused. map refusal_told refused ≡ defined.refusals_of (zip (texts paths.now) classes.now)) }
    ensures kinded { IfOk result (λ refused. refused ≡ [] → AreKindedClasses classes.now) }
{
    let mut refused = Items::new(alloc);
    for (at, class) in classes.iter().enumerate() {
        add_refusal(alloc, &mut refused, class, paths[at].as_str())?;
    }
    Ok(refused)
}

/// Refuses a code that is too large, and then the files with a method that is not kinded.
pub(crate) fn judge(alloc: Global, classes: &[Class], paths: &[String]) -> Result<(), LoadFault>
    requires long { length paths.now ≡ length classes.now }
    requires sound { AreSoundClasses classes.now }
    requires few { All (λ c. length c.methods < 2 ^ 32) classes.now }
    ensures small { OnOk result (list_any defined.has_large classes.now ≡ false) }
    ensures none { OnOk result (defined.refusals_of (zip (texts paths.now) classes.now) ≡ []) }
    ensures kinded { OnOk result (AreKindedClasses classes.now) }
    ensures fault { IfErr result (TellsJudged (zip (texts paths.now) classes.now) classes.now) }
{
    if any_large(classes) {
        return Err(LoadFault::Limit(LimitName::FrameWords, MOST_FRAME_WORDS));
    }
    let refused = refusals(alloc, classes, paths)?;
    if !refused.is_empty() {
        return Err(LoadFault::Refused(refused));
    }
    Ok(())
}
