//! The analysis of what classes declare: whether all instance fields of a class and of its superclasses are final.
ghost use Rattle.std.specs.Prelude.{◌<◌, ◌^◌, length};
ghost use Rattle.fp_system.specs.Rows.{AreRowsOver};

mod evaluate;
mod rows;

use evaluate::{bound_of, evaluate};
use fp_cells::Cells;
use fp_eqs::{Analysis, Ask, Bound, Gives, Start};
use fp_model::ClassSet;
use rows::class_rows;
use sqlite_items::Items;
use std::alloc::{AllocError, Global};

/// The equation of one class.
#[derive(Clone, Copy, Debug, PartialEq, Eq)]
pub struct ClassTask {
    /// The place of the class.
    pub place: u32,
    /// The place of its superclass, where that is in the set.
    pub parent: Option<u32>,
    /// Whether the class is open whatever its superclass is.
    pub is_open: bool,
}

/// The equations of all classes, which stand at their own places: that of the class `i` is the task `i`, and makes the place `i`.
#[derive(Drop)]
pub struct DeclaredTasks {
    rows: Items<ClassTask>,
    places: u32,
    ghost over: { AreRowsOver places rows },
    ghost few: { length rows < 2 ^ 32 },
}

impl DeclaredTasks {
    ghost use Rattle.std.specs.Prelude.{◌≡◌, [], IfOk};
    ghost use Rattle.fp_cells.specs.Cells.{total_places};
    ghost use Rattle.fp_system.specs.ClassEquations.{class_tasks};
    ghost use Rattle.fp_system.specs.Java.{java_cells};

    /// No equation, over so many places.
    pub fn none(alloc: Global, places: u32) -> DeclaredTasks
        ensures rows { result.rows ≡ [] }
        ensures places { result.places ≡ places }
    {
        DeclaredTasks {
            rows: Items::new(alloc),
            places,
        }
    }

    /// The equation of each class of a set, over the places of its cells.
    pub fn make(alloc: Global, set: &ClassSet, cells: &Cells) -> Result<DeclaredTasks, AllocError>
        requires { cells.now ≡ java_cells set.now.classes }
        ensures rows { IfOk result (λ d. d.rows ≡ class_tasks set.now cells.now) }
        ensures places { IfOk result (λ d. d.places ≡ total_places cells.now) }
    {
        let rows = class_rows(alloc, set, cells)?;
        Ok(DeclaredTasks {
            rows: Items::from_vec(rows),
            places: cells.places(),
        })
    }
}

impl Analysis for DeclaredTasks {
    ghost use Rattle.fp_system.specs.ClassEquations.{declared_tasks};
    ghost use Rattle.fp_system.specs.Rows.{rows_lawful};

    ghost meaning = { λ d. declared_tasks d.rows };

    ghost places = { λ d. d.places };

    ghost lawful = { λ d. rows_lawful d.places d.rows d.over };

    fn tasks(&self) -> u32 {
        self.rows.len() as u32
    }

    fn start(&self, _task: u32) -> Start {
        Start::Lazy
    }

    fn bound(&self, task: u32) -> Bound {
        bound_of(self.rows.as_slice()[task as usize])
    }

    fn maker(&self, place: u32, k: u32) -> Option<u32> {
        let is_made = (place as usize) < self.rows.len();
        if is_made && k == 0 { Some(place) } else { None }
    }

    fn eval<A: Ask>(&self, task: u32, ask: &mut A, give: &mut Gives) {
        evaluate(self.rows.as_slice()[task as usize], ask, give)
    }
}
