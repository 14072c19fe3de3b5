//! The facts of all methods with code, one after the other.
ghost use Rattle.std.specs.Prelude.{◌≡◌, ◌<◌, ◌∷◌, [], ◌++◌, false, All, List, Some, map, length, IsTrue, IfOk, IfErr, OnOk};
ghost use Rattle.std.specs.List.{range_with_len};
ghost use Rattle.fp_model.specs.ClassSet.{methods_of};
ghost use Rattle.fp_model.specs.SoundCode.{IsSoundMethod};
ghost use Rattle.fp_facts.specs.declared.reference.Reference.{Reference};
ghost use Rattle.fp_facts.specs.Behaviour.{references_of};
ghost use Rattle.fp_facts.specs.Facts.{Coded, coded, coded_at};
ghost use Rattle.fp_facts.specs.Initialisation.{has_initialiser};
ghost use Rattle.fp_facts.specs.Kinded.{IsKindedCode, IsKindedMethod};
ghost use Rattle.fp_facts.specs.References.{with_references};
ghost use Rattle.fp_facts.specs.Steps.{frames_of, steps_of};
ghost use Rattle.fp_hier.specs.Hierarchies.{IsHierOf};
ghost use Rattle.fp_extract.specs.Calling.{IsCallTable};
ghost use Rattle.fp_extract.specs.Gathering.{HasGathered, facts_by};
ghost use Rattle.fp_extract.specs.Refusals.{TellsPairs, has_many_pairs};
ghost use Rattle.fp_extract.specs.Rooms.{fits, left_after};

use crate::access::accesses;
use crate::begun::begun;
use crate::calls::CallTable;
use crate::fault::FactsFault;
use crate::initialisers::initialiser_flags;
use crate::objects::{allocs, news};
use crate::outcomes::{returned, thrown};
use crate::room::{Left, Room};
use crate::site::sites;
use fp_facts::{MethodFacts, OriginSet};
use fp_flow::edges;
use fp_hier::Hier;
use fp_model::{ClassId, ClassSet, Code, Instr, LimitName, Method, MethodId};
use fp_origin::{OriginFault, Origins, origins};
use sqlite_items::Items;
use std::alloc::{AllocError, Global};

/// The calls of some methods, and the facts of these as long as no bound is passed.
#[derive(Drop)]
pub(crate) struct Gathered {
    pub(crate) calls: CallTable,
    pub(crate) methods: Vec<MethodFacts>,
}

/// Gathers the facts of all methods with code. Their bounds are told later; the origin pairs of a method are told at once.
pub(crate) fn gather(
    alloc: Global,
    set: &ClassSet,
    hier: &Hier,
    room: Room,
) -> Result<Gathered, FactsFault>
    requires hier { IsHierOf set.now hier.now }
    requires sound { All IsSoundMethod (methods_of set.now.classes) }
    requires kinded { All IsKindedMethod (methods_of set.now.classes) }
    ensures told { IfOk result (λ g. IsCallTable set.now g.calls) }
    ensures gathered { IfOk result (HasGathered set.now room (coded set.now.classes)) }
    ensures fault { IfErr result (TellsPairs (coded set.now.classes)) }
{
    let initialisers = initialiser_flags(alloc, set)?;
    let mut gathered = Gathered {
        calls: CallTable::new(alloc, Left::of(room)),
        methods: Vec::new(alloc),
    };
    let (_classes, _fields, methods) = set.counts();
    for id in 0..methods {
        gather_method(alloc, set, hier, initialisers.as_slice(), id, &mut gathered)?;
    }
    Ok(gathered)
}

// Gathers those of a method, where it has code.
fn gather_method(
    alloc: Global,
    set: &ClassSet,
    hier: &Hier,
    initialisers: &[bool],
    id: MethodId,
    gathered: &mut Gathered,
) -> Result<(), FactsFault>
    requires hier { IsHierOf set.now hier.now }
    requires sound { All IsSoundMethod (methods_of set.now.classes) }
    requires kinded { All IsKindedMethod (methods_of set.now.classes) }
    requires initialisers { initialisers.now ≡ map (has_initialiser set.now) (range_with_len 0 (length set.now.classes)) }
    requires id { id < length (methods_of set.now.classes) }
    requires told { IsCallTable set.now gathered.old.calls }
    ensures told { OnOk result (IsCallTable set.now gathered.new.calls) }
    ensures gathered { (room : Room) (before : List Coded) → HasGathered set.now room before gathered.old
        → OnOk result (HasGathered set.now room (before ++ coded_at set.now.classes id) gathered.new) }
    ensures fault { IfErr result (TellsPairs (coded_at set.now.classes id)) }
{
    let method = set.method(id);
    let Some(code) = &method.code else {
        return Ok(());
    };
    let caller = set.class_of_method(id);
    let frames = frames_before(alloc, method, code)?;
    let facts = code_facts(
        alloc,
        set,
        hier,
        initialisers,
        id,
        caller,
        code.instrs.as_slice(),
        frames.as_slice(),
        &mut gathered.calls,
    )?;
    gathered.calls.take_allocations(facts.allocs.len());
    if gathered.calls.left.fits() {
        gathered.methods.push(facts)?;
    }
    Ok(())
}

// The origins of the words before each instruction of a code.
fn frames_before(
    alloc: Global,
    method: &Method,
    code: &Code,
) -> Result<Items<Option<Items<OriginSet>>>, FactsFault>
    requires sound { IsSoundMethod method.now }
    requires code { method.now.code ≡ Some code.now }
    requires kinded { IsKindedCode method.now code.now }
    ensures frames { IfOk result (λ frames. frames ≡ frames_of method.now code.now) }
    ensures few { OnOk result (has_many_pairs (record { id = 0; caller = 0; method = method.now; code = code.now }) ≡ false) }
    ensures fault { IfErr result (TellsPairs (record { id = 0; caller = 0; method = method.now; code = code.now } ∷ [])) }
{
    let flow = edges(alloc, code)?;
    match origins(alloc, code, &flow, method) {
        Ok(Origins { frames }) => Ok(frames),
        Err(OriginFault::Limit) => Err(FactsFault::Limit(LimitName::OriginPairs)),
        Err(OriginFault::Memory) => Err(FactsFault::Memory),
    }
}

// The facts of a method of a class, by the frames before its instructions.
fn code_facts(
    alloc: Global,
    set: &ClassSet,
    hier: &Hier,
    initialisers: &[bool],
    id: MethodId,
    caller: ClassId,
    instrs: &[(u16, Instr)],
    frames: &[Option<Items<OriginSet>>],
    calls: &mut CallTable,
) -> Result<MethodFacts, AllocError>
    requires hier { IsHierOf set.now hier.now }
    requires caller { caller < length set.now.classes }
    requires initialisers { initialisers.now ≡ map (has_initialiser set.now) (range_with_len 0 (length set.now.classes)) }
    requires frames { length instrs.now ≡ length frames.now }
    requires told { IsCallTable set.now calls.old }
    ensures told { OnOk result (IsCallTable set.now calls.new) }
    ensures table { OnOk result (calls.new.references ≡ with_references calls.old.references (references_of caller (steps_of instrs.now frames.now))) }
    ensures left { OnOk result (calls.new.left ≡ left_after set.now calls.old.left (references_of caller (steps_of instrs.now frames.now))) }
    ensures facts { IfOk result (λ facts. (more : List Reference) → facts ≡ facts_by set.now (calls.new.references ++ more) id caller (steps_of instrs.now frames.now)) }
{
    let sites = sites(alloc, set, hier, caller, instrs, frames, calls)?;
    let news = news(alloc, set, instrs, frames)?;
    let allocs = allocs(alloc, instrs, frames)?;
    let begins = begun(alloc, set, hier, initialisers, instrs, frames)?;
    let accesses = accesses(alloc, set, hier, instrs, frames)?;
    let thrown = thrown(alloc, instrs, frames)?;
    let returned = returned(alloc, instrs, frames)?;
    Ok(MethodFacts {
        method: id,
        sites: Items::from_vec(sites),
        news: Items::from_vec(news),
        allocs: Items::from_vec(allocs),
        begins: Items::from_vec(begins),
        accesses: Items::from_vec(accesses),
        thrown: Items::from_vec(thrown),
        returned: Items::from_vec(returned),
    })
}
