//! The tasks of the call graph.
ghost use Rattle.std.specs.Prelude.{◌+◌, ◌<◌, ◌^◌, length};
ghost use Rattle.fp_eqs.specs.Equations.{AllLawful};
ghost use Rattle.fp_rta.specs.Meaning.{AreGiversShort, AreShapesShort, AreSitesOf, row_tasks};

use crate::call::evaluate;
use crate::giver::Giver;
use crate::givers::givers;
use crate::shapes::shapes;
use crate::site::{Shape, Site};
use crate::sites::sites;
use fp_cells::{Cells, law_places};
use fp_eqs::{Analysis, Ask, Bound, Gives, Start};
use fp_facts::Facts;
use fp_hier::Hier;
use fp_model::ClassSet;
use sqlite_items::Items;
use std::alloc::{AllocError, Global};

/// The tasks of rapid type analysis: one for the roots, one for each method with code, and one for each call.
///
/// Calls of one reference share their candidates, so that a call takes 12 bytes. An evaluation asks the places of all classes that a
/// call watches, and takes no memory.
#[derive(Drop)]
pub struct RtaTasks {
    pub(crate) givers: Items<Giver>,
    pub(crate) shapes: Items<Shape>,
    pub(crate) sites: Items<Site>,
    pub(crate) places: u32,
    ghost laws: { AllLawful places (row_tasks givers shapes sites) },
    ghost few: { length givers + length sites < 2 ^ 32 },
    ghost short_givers: { AreGiversShort givers },
    ghost short_shapes: { AreShapesShort shapes },
    ghost known: { AreSitesOf shapes sites },
}

impl RtaTasks {
    ghost use Rattle.std.specs.Prelude.{◌≡◌, ◌-◌, ◌<◌, ◌≤◌, All, Some, length, slice_get, IfOk};
    ghost use Rattle.fp_model.specs.ClassSet.{methods_of};
    ghost use Rattle.fp_cells.specs.Cells.{total_places};
    ghost use Rattle.fp_hier.specs.Hierarchies.{IsHierOf};
    ghost use Rattle.fp_extract.specs.Within.{AreCallsKnown};
    ghost use Rattle.fp_rta.specs.CallGraph.{HasCells, call_graph_tasks};
    ghost use Rattle.fp_rta.specs.Meaning.{row_tasks};

    /// The tasks of a set by its facts, over the places of cells. There is a cell for each method with code, and for each call, whose
    /// bits are those of its targets and of the outside.
    pub fn make(
        alloc: Global,
        set: &ClassSet,
        hier: &Hier,
        facts: &Facts,
        cells: &Cells,
    ) -> Result<RtaTasks, AllocError>
        requires hier { IsHierOf set.now hier.now }
        requires roots { All (λ root. root < length (methods_of set.now.classes)) facts.now.roots }
        requires known { AreCallsKnown facts.now }
        requires cells { HasCells facts.now cells.now }
        ensures tasks { IfOk result (λ r. row_tasks r.givers r.shapes r.sites ≡ call_graph_tasks set.now facts.now cells.now) }
        ensures places { IfOk result (λ r. r.places ≡ total_places cells.now) }
    {
        law_places();
        let places = cells.places();
        let givers = givers(alloc, set, hier, facts, cells)?;
        let shapes = shapes(alloc, cells, facts.calls.as_slice())?;
        let sites = sites(alloc, cells, facts.methods.as_slice())?;
        if givers.len() + sites.len() > u32::MAX as usize {
            return Err(AllocError);
        }
        Ok(RtaTasks {
            givers: Items::from_vec(givers),
            shapes: Items::from_vec(shapes),
            sites: Items::from_vec(sites),
            places,
        })
    }

    // A task of the roots or of a method.
    fn giver(&self, task: u32) -> &Giver
        requires { task < length self.now.givers }
        ensures { slice_get self.now.givers task ≡ Some result.now }
    {
        &self.givers.as_slice()[task as usize]
    }

    // A task behind those: a call.
    fn site(&self, task: u32) -> Site
        requires behind { length self.now.givers ≤ task }
        requires task { task < (row_tasks self.now.givers self.now.shapes self.now.sites).count }
        ensures { slice_get self.now.sites (task - length self.now.givers) ≡ Some result }
    {
        self.sites.as_slice()[task as usize - self.givers.len()]
    }

    // What a call shares with others.
    fn shape(&self, site: Site) -> &Shape
        requires { site.shape < length self.now.shapes }
        ensures { slice_get self.now.shapes site.shape ≡ Some result.now }
    {
        &self.shapes.as_slice()[site.shape as usize]
    }
}

impl Analysis for RtaTasks {
    ghost use Rattle.fp_rta.specs.Meaning.{row_tasks};

    ghost meaning = { λ r. row_tasks r.givers r.shapes r.sites };

    ghost places = { λ r. r.places };

    ghost lawful = { λ r. r.laws };

    fn tasks(&self) -> u32 {
        self.givers.len() as u32 + self.sites.len() as u32
    }

    fn start(&self, task: u32) -> Start {
        if (task as usize) < self.givers.len() {
            self.giver(task).start()
        } else {
            Start::Triggered(self.site(task).trigger)
        }
    }

    fn bound(&self, task: u32) -> Bound {
        if (task as usize) < self.givers.len() {
            self.giver(task).bound()
        } else {
            self.shape(self.site(task)).bound()
        }
    }

    fn maker(&self, _place: u32, _k: u32) -> Option<u32> {
        None
    }

    fn eval<A: Ask>(&self, task: u32, ask: &mut A, give: &mut Gives) {
        if (task as usize) < self.givers.len() {
            self.giver(task).evaluate(ask, give)
        } else {
            let site = self.site(task);
            let candidates = self.shape(site).candidates.as_slice();
            evaluate(site.trigger, site.callees, candidates, ask, give)
        }
    }
}
