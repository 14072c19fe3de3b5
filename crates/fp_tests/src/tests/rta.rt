//! The call graphs of small sets, each worked out by hand.
ghost use Rattle.std.specs.Prelude.{◌≡◌, ◌<◌, ◌∷◌, [], ◌++◌, All, IfOk, OnOk, length, map};
ghost use Rattle.std.specs.List.{flat_map};
ghost use Rattle.fp_model.specs.ClassSet.{methods_of};
ghost use Rattle.fp_model.specs.SoundCode.{IsSoundMethod};
ghost use Rattle.fp_facts.specs.Kinded.{IsKindedMethod};
ghost use Rattle.fp_hier.specs.Hierarchies.{IsHierOf};
ghost use Rattle.fp_extract.specs.Within.{AreCallsKnown};
ghost use Rattle.fp_rta.specs.CallGraph.{HasCells, callees_cell};
ghost use Rattle.fp_tests.specs.Graphs.{method_cells};

use super::extract::{AMPLE, CALLS, L, PACKAGES, load_digits, overriders};
use fp_cells::{Cells, Entity, KindId};
use fp_eqs::{Analysis, Ask, Bound, Gives, Start, System, rounds};
use fp_extract::facts;
use fp_facts::{Assume, CallSite, Facts, Loaded, MethodFacts};
use fp_hier::Hier;
use fp_model::{ClassSet, MethodId, SiteId};
use fp_rta::RtaTasks;
use sqlite_items::Items;
use std::alloc::{AllocError, Global};
use std::test::Fail;

/// A system of one analysis, each of whose places starts with nothing and is shown.
#[derive(Drop)]
struct Alone<X: Analysis + Drop> {
    analysis: X,
    places: u32,
    ghost same: { places ≡ X.places analysis },
}

impl<X: Analysis + Drop> System for Alone<X> {
    ghost use Rattle.std.proofs.Common.{subst, sym};
    ghost use Rattle.fp_eqs.specs.Equations.{AllLawful};
    ghost use Rattle.fp_tests.specs.Alone.{alone, alone-monotone};

    ghost equations = { λ s. alone s.places (X.meaning s.analysis) };

    ghost monotone = { λ s. alone-monotone s.places (X.meaning s.analysis) (subst (λ n. AllLawful n (X.meaning s.analysis)) (sym s.same) (X.lawful s.analysis)) };

    fn places(&self) -> u32 {
        self.places
    }

    fn tasks(&self) -> u32 {
        self.analysis.tasks()
    }

    fn start(&self, task: u32) -> Start {
        self.analysis.start(task)
    }

    fn bound(&self, task: u32) -> Bound {
        self.analysis.bound(task)
    }

    fn fixed(&self, _place: u32) -> u64 {
        0
    }

    fn shown(&self, place: u32) -> bool {
        place < self.places
    }

    fn maker(&self, place: u32, k: u32) -> Option<u32> {
        self.analysis.maker(place, k)
    }

    fn eval<A: Ask>(&self, task: u32, ask: &mut A, give: &mut Gives) {
        self.analysis.eval(task, ask, give)
    }
}

/// Adds a cell of few bits that is not there yet.
fn add_cell(cells: &mut Cells, kind: KindId, entity: Entity, bits: u32) -> Result<(), Fail>
    ensures { OnOk result (cells.new ≡ cells.old ++ record { kind = kind; entity = entity; bits = bits } ∷ []) }
{
    if cells.find(kind, entity).is_some() || bits > 1000 || cells.places() > 1000 {
        return Err("a cell too many".into());
    }
    cells.add(kind, entity, bits)?;
    Ok(())
}

/// Adds a cell for each class that may have objects.
fn add_class_cells(cells: &mut Cells, set: &ClassSet) -> Result<(), Fail> {
    let (classes, _fields, _methods) = set.counts();
    for id in 0..classes {
        add_cell(cells, KindId::Inst, Entity::Class(id), 1)?;
    }
    Ok(())
}

/// Adds the cell of a call.
fn add_call_cell(
    cells: &mut Cells,
    facts: &Facts,
    method: MethodId,
    site: &CallSite,
) -> Result<(), Fail>
    ensures { OnOk result (cells.new ≡ cells.old ++ callees_cell facts.now method site.now ∷ []) }
{
    if site.call as usize >= facts.calls.len() {
        return Err("a call without targets".into());
    }
    let targets = facts.targets(site).len();
    if targets > 1000 {
        return Err("targets too many".into());
    }
    let entity = Entity::Site(SiteId {
        method,
        pc: site.pc,
    });
    add_cell(cells, KindId::Callees, entity, targets as u32 + 1)
}

/// Adds the cells of calls.
fn add_call_cells(
    cells: &mut Cells,
    facts: &Facts,
    method: MethodId,
    sites: &[CallSite],
) -> Result<(), Fail>
    ensures { OnOk result (cells.new ≡ cells.old ++ map (callees_cell facts.now method) sites.now) }
{
    for site in sites {
        add_call_cell(cells, facts, method, site)?;
    }
    Ok(())
}

/// Adds the cells of a method and its calls.
fn add_method_cells(cells: &mut Cells, facts: &Facts, method: &MethodFacts) -> Result<(), Fail>
    ensures { OnOk result (cells.new ≡ cells.old ++ method_cells facts.now method.now) }
{
    add_cell(cells, KindId::Reach, Entity::Method(method.method), 1)?;
    add_call_cells(cells, facts, method.method, method.sites.as_slice())
}

/// Adds those of all methods.
fn add_all_cells(cells: &mut Cells, facts: &Facts) -> Result<(), Fail>
    ensures { OnOk result (cells.new ≡ cells.old ++ flat_map (method_cells facts.now) facts.now.methods) }
{
    for method in facts.methods.as_slice() {
        add_method_cells(cells, facts, method)?;
    }
    Ok(())
}

/// The cells of a call graph.
fn graph_cells(alloc: Global, set: &ClassSet, facts: &Facts) -> Result<Cells, Fail>
    ensures { IfOk result (HasCells facts.now) }
{
    let mut cells = Cells::new(alloc);
    add_class_cells(&mut cells, set)?;
    add_all_cells(&mut cells, facts)?;
    Ok(cells)
}

/// The facts of a set for a root.
fn graph_facts(alloc: Global, set: &ClassSet, hier: &Hier, root: MethodId) -> Result<Facts, Fail>
    requires hier { IsHierOf set.now hier.now }
    requires sound { All IsSoundMethod (methods_of set.now.classes) }
    requires kinded { All IsKindedMethod (methods_of set.now.classes) }
    ensures known { IfOk result AreCallsKnown }
    ensures roots { IfOk result (λ facts. facts.roots ≡ root ∷ []) }
{
    let roots = Items::from_vec(Vec::from_array(alloc, [root])?);
    let mut room = AMPLE;
    match facts(alloc, set, hier, roots, Assume::none(alloc), &mut room) {
        Ok(facts) => Ok(facts),
        Err(_) => Err("no facts".into()),
    }
}

/// The facts with other seed classes.
fn with_seeds(facts: Facts, seeds: Vec<u32>) -> Facts
    requires { AreCallsKnown facts }
    ensures known { AreCallsKnown result }
    ensures roots { result.roots ≡ facts.roots }
{
    let Facts {
        references,
        calls,
        methods,
        roots,
        assume,
        ..
    } = facts;
    Facts {
        references,
        calls,
        methods,
        seeds: Items::from_vec(seeds),
        roots,
        assume,
    }
}

/// A line for each place that isn't empty, with its kind, what it is of, and its word in hexadecimal digits.
fn values_text(alloc: Global, cells: &Cells, values: &[u64]) -> Result<String, Fail> {
    let mut lines = Vec::new(alloc);
    for (place, value) in values.iter().enumerate() {
        if *value != 0 {
            let cell = cells.cell_of(u32::try_from(place).unwrap_or(u32::MAX));
            lines.push(format!(in alloc; "{cell:?} {value:x}")?)?;
        }
    }
    Ok(lines.join(alloc, "\n")?)
}

/// The solved call graph of facts.
fn solved(alloc: Global, set: &ClassSet, hier: &Hier, facts: &Facts) -> Result<String, Fail>
    requires hier { IsHierOf set.now hier.now }
    requires known { AreCallsKnown facts.now }
    requires roots { All (λ root. root < length (methods_of set.now.classes)) facts.now.roots }
{
    let cells = graph_cells(alloc, set, facts)?;
    let analysis = RtaTasks::make(alloc, set, hier, facts, &cells)?;
    let system = Alone {
        analysis,
        places: cells.places(),
    };
    let solved = rounds(alloc, &system)?;
    values_text(alloc, &cells, solved.values.as_slice())
}

/// That of a set for a root, and for seed classes where there are some.
fn graph(alloc: Global, loaded: &Loaded, root: MethodId, seeds: u32) -> Result<String, Fail>
    requires sound { All IsSoundMethod (methods_of loaded.now.set.classes) }
    requires kinded { All IsKindedMethod (methods_of loaded.now.set.classes) }
{
    let set = &loaded.set;
    let (_classes, _fields, methods) = set.counts();
    if root >= methods {
        return Err("no root".into());
    }
    let hier = Hier::build(alloc, set)?;
    let mut facts = graph_facts(alloc, set, &hier, root)?;
    if seeds != 0 {
        facts = with_seeds(facts, seed_classes(alloc, seeds)?);
    }
    solved(alloc, set, &hier, &facts)
}

/// The first so many classes.
fn seed_classes(alloc: Global, count: u32) -> Result<Vec<u32>, AllocError> {
    let mut seeds = Vec::new(alloc);
    for class in 0..count {
        seeds.push(class)?;
    }
    Ok(seeds)
}

/// L, whose constructor is the root, so that there may be an L. The constructor of Object does nothing.
const L_GRAPH: &str = "\
    Some((Inst, Class(0))) 1\n\
    Some((Reach, Method(0))) 1";

/// M.main makes a B and calls A.m on it, and B.m makes a C: A.m has no object. The targets of that call are A.m, B.m and C.m.
const CALLS_GRAPH: &str = "\
    Some((Inst, Class(1))) 1\n\
    Some((Inst, Class(2))) 1\n\
    Some((Reach, Method(0))) 1\n\
    Some((Reach, Method(2))) 1\n\
    Some((Callees, Site(SiteId { method: 2, pc: 1 }))) 1\n\
    Some((Reach, Method(3))) 1\n\
    Some((Callees, Site(SiteId { method: 3, pc: 4 }))) 1\n\
    Some((Reach, Method(4))) 1\n\
    Some((Callees, Site(SiteId { method: 4, pc: 1 }))) 1\n\
    Some((Reach, Method(5))) 1\n\
    Some((Reach, Method(6))) 1\n\
    Some((Callees, Site(SiteId { method: 6, pc: 4 }))) 1\n\
    Some((Callees, Site(SiteId { method: 6, pc: 7 }))) 6";

/// p.M.main makes a q.B and calls p.A.m on it, which selects q.B.m.
const PACKAGES_GRAPH: &str = "\
    Some((Inst, Class(1))) 1\n\
    Some((Reach, Method(0))) 1\n\
    Some((Reach, Method(2))) 1\n\
    Some((Callees, Site(SiteId { method: 2, pc: 1 }))) 1\n\
    Some((Reach, Method(3))) 1\n\
    Some((Reach, Method(4))) 1\n\
    Some((Callees, Site(SiteId { method: 4, pc: 4 }))) 1\n\
    Some((Callees, Site(SiteId { method: 4, pc: 7 }))) 2";

#[test]
fn call_graphs_are_the_least_solutions(rt: HostRuntime) -> Result<(), Fail> {
    let alloc = rt.alloc();
    let set = load_digits(alloc, L)?;
    assert_eq!(rt; graph(alloc, &set, 0, 0)?.as_str(), L_GRAPH);
    let set = load_digits(alloc, CALLS)?;
    assert_eq!(rt; graph(alloc, &set, 6, 0)?.as_str(), CALLS_GRAPH);
    let set = load_digits(alloc, PACKAGES)?;
    assert_eq!(rt; graph(alloc, &set, 4, 0)?.as_str(), PACKAGES_GRAPH);
    Ok(())
}

/// Of 70 targets all are reached, as each class has objects: the outside is not.
#[test]
fn bits_of_many_targets_stand_in_several_places(rt: HostRuntime) -> Result<(), Fail> {
    let alloc = rt.alloc();
    let set = overriders(alloc, 69)?;
    let text = graph(alloc, &set, 70, 71)?;
    let last = text.as_str().lines().last().ok_or("no line")?;
    assert_eq!(rt;
        last,
        "Some((Callees, Site(SiteId { method: 70, pc: 273 }))) 3f"
    );
    let reached = text
        .as_str()
        .lines()
        .filter(|line| line.starts_with("Some((Reach"))
        .count();
    assert_eq!(rt; reached, 71);
    Ok(())
}
