//! The system of a run.
ghost use Rattle.std.specs.Prelude.{◌≡◌, ◌<◌, ◌^◌, [], length, slice_index};
ghost use Rattle.fp_eqs.specs.Equations.{IsWords};

use crate::declared::DeclaredTasks;
use fp_cells::Cells;
use fp_eqs::{Analysis, Ask, Bound, Gives, Start, System};
use fp_model::{MethodId, SiteId};
use sqlite_items::Items;
use std::alloc::Global;

/// The system of equations of a set of classes and the words of a run.
#[derive(Drop)]
pub struct JavaSystem {
    cells: Cells,
    targets: Vec<(SiteId, Items<MethodId>)>,
    declared: DeclaredTasks,
    // The word that each place starts with, and whether it is shown.
    fixed: Items<u64>,
    shown: Items<bool>,
    shown_cells: Items<u32>,
    ghost same_places: { declared.places ≡ length fixed },
    ghost few: { length fixed < 2 ^ 32 },
    ghost long: { length shown ≡ length fixed },
    ghost untargeted: { targets.items ≡ [] },
    ghost words: { IsWords (slice_index fixed) },
}

impl JavaSystem {
    ghost use Rattle.std.specs.Prelude.{◌≡◌, ◌<◌, ◌^◌, [], length};
    ghost use Rattle.fp_system.specs.Java.{equations_of};
    ghost use Rattle.fp_system.specs.Systems.{system_cells, system_equations, system_shown_cells};

    /// The system over cells, by the equations of its analyses, the word that each place starts with, whether the place is shown,
    /// and the first places of the shown cells.
    pub fn new(
        alloc: Global,
        cells: Cells,
        declared: DeclaredTasks,
        fixed: Vec<u64>,
        shown: Vec<bool>,
        shown_cells: Vec<u32>,
    ) -> JavaSystem
        requires places { declared.places ≡ length fixed.items }
        requires few { length fixed.items < 2 ^ 32 }
        requires long { length shown.items ≡ length fixed.items }
        ensures cells { system_cells result ≡ cells }
        ensures equations { system_equations result ≡ equations_of declared.rows fixed.items shown.items }
        ensures shown { system_shown_cells result ≡ shown_cells.items }
    {
        JavaSystem {
            cells,
            targets: Vec::new(alloc),
            declared,
            fixed: Items::from_vec(fixed),
            shown: Items::from_vec(shown),
            shown_cells: Items::from_vec(shown_cells),
        }
    }

    /// The cells.
    pub fn cells(&self) -> &Cells
        ensures { result.now ≡ system_cells self.now }
    {
        &self.cells
    }

    /// The targets of each call site whose targets are known, in the order of their bits: none so far.
    pub fn targets(&self) -> &[(SiteId, Items<MethodId>)]
        ensures { result.now ≡ [] }
    {
        self.targets.as_slice()
    }

    /// The first places of the shown cells, ascending.
    pub fn shown_cells(&self) -> &[u32]
        ensures { result.now ≡ system_shown_cells self.now }
    {
        self.shown_cells.as_slice()
    }
}

impl System for JavaSystem {
    ghost use Rattle.fp_system.specs.Systems.{system_equations, system_monotone};

    ghost equations = { system_equations };

    ghost monotone = { system_monotone };

    fn places(&self) -> u32 {
        self.fixed.len() as u32
    }

    fn tasks(&self) -> u32 {
        self.declared.tasks()
    }

    fn start(&self, task: u32) -> Start {
        self.declared.start(task)
    }

    fn bound(&self, task: u32) -> Bound {
        self.declared.bound(task)
    }

    fn fixed(&self, place: u32) -> u64 {
        self.fixed.as_slice()[place as usize]
    }

    fn shown(&self, place: u32) -> bool {
        self.shown.as_slice()[place as usize]
    }

    fn maker(&self, place: u32, k: u32) -> Option<u32> {
        self.declared.maker(place, k)
    }

    fn eval<A: Ask>(&self, task: u32, ask: &mut A, give: &mut Gives) {
        self.declared.eval(task, ask, give)
    }
}
