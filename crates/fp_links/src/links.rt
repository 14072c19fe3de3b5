//! Pairs of a task and a place, walked from the place and dropped by the task.
ghost use Rattle.std.specs.Prelude.{◌≡◌, ℕ, ◌+◌, ◌<◌, ◌≤◌, ◌++◌, ◌∷◌, [], Some, None, true, false, nat_lt, length, map, IsTrue, OnOk, OnErr, if◌then◌else◌};
ghost use Rattle.fp_links.specs.Linked.{AreDistinct, HasDropped, HasLinked, HasUnlinked, edge_after, edges_of, first_edge, has_edge, has_task, is_edge, rest_of, row, task_of_edge};

use crate::edge::{Edge, Ends, NONE, insert, next_of, remove};
use std::alloc::{AllocError, Global};
use std::marker::Model;

/// Pairs of a task and a place, each an edge with a number of its own. The edges of a place are walked one after the other, the
/// newest first, and those of a task are dropped together, each in constant time and without memory. `reserve` makes room for
/// edges, which take 20 bytes each.
#[derive(Drop)]
pub struct Links {
    edges: Vec<Edge>,
    places: Vec<Ends>,
    // The newest edge of each task.
    firsts: Vec<u32>,
    // The first free edge.
    free: u32,
    spare: u32,
}

impl Model for Links {
    ghost use Rattle.fp_links.specs.Linked.{Linked};
    ghost use Rattle.fp_links.specs.Fields.{IsLinks, linked_of};

    ghost Value = { Linked };

    ghost view = { λ l. linked_of l.edges.items l.places.items l.firsts.items l.spare };

    ghost invariant = { λ l. IsLinks l.edges.items l.places.items l.firsts.items l.free l.spare };
}

impl Links {
    /// No pairs, and no task or place is known.
    pub fn new(alloc: Global) -> Links
        ensures rows { result.rows ≡ [] }
        ensures tasks { result.tasks ≡ 0 }
        ensures spare { result.spare ≡ 0 }
    {
        Links {
            edges: Vec::new(alloc),
            places: Vec::new(alloc),
            firsts: Vec::new(alloc),
            free: NONE,
            spare: 0,
        }
    }

    /// Makes tasks and places below these numbers known, and room for so many edges more. What is known and linked stays, also where
    /// there is no memory for all of it.
    pub fn reserve(&mut self, tasks: u32, places: u32, edges: u32) -> Result<(), AllocError>
        ensures rows { (q : ℕ) → row self.new q ≡ row self.old q }
        ensures kept { (self.old.tasks ≤ self.new.tasks) × (length self.old.rows ≤ length self.new.rows) × (self.old.spare ≤ self.new.spare) }
        ensures known { OnOk result ((tasks ≤ self.new.tasks) × (places ≤ length self.new.rows) × (edges ≤ self.new.spare)) }
    {
        self.know_tasks(tasks)?;
        self.know_places(places)?;
        self.make_room(edges)
    }

    /// Adds the pair, which is not there yet, before the others of its place.
    pub fn link(&mut self, task: u32, place: u32)
        requires task { task < self.old.tasks }
        requires place { place < length self.old.rows }
        requires room { 0 < self.old.spare }
        requires absent { has_task (row self.old place) task ≡ false }
        ensures { HasLinked self.old self.new task place }
    {
        let number = self.free;
        let behind = self.firsts[task as usize];
        self.free = self.edges[number as usize].behind;
        self.spare -= 1;
        insert(
            &mut self.edges,
            &mut self.places,
            number,
            place,
            task,
            behind,
        );
        self.firsts[task as usize] = number;
    }

    /// Drops all pairs of the task.
    pub fn unlink_task(&mut self, task: u32)
        requires { task < self.old.tasks }
        ensures { HasUnlinked self.old self.new task }
    {
        while self.drop_newest(task) {}
    }

    /// The first edge that leads to the place, if there is one.
    pub fn first_of_place(&self, place: u32) -> Option<u32>
        requires { place < length self.now.rows }
        ensures first { result ≡ first_edge (row self.now place) }
        ensures edge { (e : ℕ) → result ≡ Some e → IsTrue (has_edge (row self.now place) e) }
        ensures distinct { AreDistinct self.now }
        ensures rest { rest_of (row self.now place) result ≡ row self.now place }
    {
        let first = next_of(&self.edges, &self.places, NONE - place);
        as_edge(first, self.edges.len())
    }

    /// The edge behind another one of the same place, if there is one.
    pub fn next_of_place(&self, edge: u32) -> Option<u32>
        requires { IsTrue (is_edge self.now edge) }
        ensures next { (p : ℕ) → IsTrue (has_edge (row self.now p) edge) → result ≡ edge_after (row self.now p) edge }
        ensures edge { (p : ℕ) → IsTrue (has_edge (row self.now p) edge)
            → (e : ℕ) → result ≡ Some e → IsTrue (has_edge (row self.now p) e) }
        ensures rest { (p : ℕ) → IsTrue (has_edge (row self.now p) edge)
            → rest_of (row self.now p) (Some edge) ≡ (edge, task_of_edge (row self.now p) edge) ∷ rest_of (row self.now p) result }
    {
        let next = self.edges[edge as usize].next;
        as_edge(next, self.edges.len())
    }

    /// The task of an edge.
    pub fn task_of(&self, edge: u32) -> u32
        requires { IsTrue (is_edge self.now edge) }
        ensures { (p : ℕ) → IsTrue (has_edge (row self.now p) edge) → result ≡ task_of_edge (row self.now p) edge }
    {
        self.edges[edge as usize].task
    }

    /// Whether the pair is there, which costs a walk over the edges of the place.
    pub fn has(&self, task: u32, place: u32) -> bool
        requires { place < length self.now.rows }
        ensures { result ≡ has_task (row self.now place) task }
    {
        let mut next = self.first_of_place(place);
        while let Some(edge) = next {
            if self.task_of(edge) == task {
                return true;
            }
            next = self.next_of_place(edge);
        }
        false
    }

    fn know_tasks(&mut self, tasks: u32) -> Result<(), AllocError>
        ensures rows { self.new.rows ≡ self.old.rows }
        ensures spare { self.new.spare ≡ self.old.spare }
        ensures kept { self.old.tasks ≤ self.new.tasks }
        ensures known { OnOk result (tasks ≤ self.new.tasks) }
    {
        while self.firsts.len() < tasks as usize {
            self.add_task()?;
        }
        Ok(())
    }

    fn know_places(&mut self, places: u32) -> Result<(), AllocError>
        ensures rows { (q : ℕ) → row self.new q ≡ row self.old q }
        ensures tasks { self.new.tasks ≡ self.old.tasks }
        ensures spare { self.new.spare ≡ self.old.spare }
        ensures kept { length self.old.rows ≤ length self.new.rows }
        ensures known { OnOk result (places ≤ length self.new.rows) }
    {
        while self.place_count() < places as usize {
            self.add_place()?;
        }
        Ok(())
    }

    fn make_room(&mut self, edges: u32) -> Result<(), AllocError>
        ensures rows { self.new.rows ≡ self.old.rows }
        ensures tasks { self.new.tasks ≡ self.old.tasks }
        ensures kept { self.old.spare ≤ self.new.spare }
        ensures known { OnOk result (edges ≤ self.new.spare) }
    {
        while self.spare < edges {
            self.add_edge()?;
        }
        Ok(())
    }

    // How many places are known.
    fn place_count(&self) -> usize
        ensures { result ≡ length self.now.rows }
    {
        self.places.len()
    }

    // One task more, which has no edges.
    fn add_task(&mut self) -> Result<(), AllocError>
        ensures rows { self.new.rows ≡ self.old.rows }
        ensures spare { self.new.spare ≡ self.old.spare }
        ensures ok { OnOk result (self.new.tasks ≡ self.old.tasks + 1) }
        ensures err { OnErr result (self.new ≡ self.old) }
    {
        self.firsts.push(NONE)?;
        Ok(())
    }

    // One place more, to which no edge leads.
    fn add_place(&mut self) -> Result<(), AllocError>
        ensures tasks { self.new.tasks ≡ self.old.tasks }
        ensures spare { self.new.spare ≡ self.old.spare }
        ensures ok { OnOk result (self.new.rows ≡ self.old.rows ++ [] ∷ []) }
        ensures err { OnErr result (self.new ≡ self.old) }
    {
        let count = self.places.len();
        if self.edges.len() + count >= NONE as usize {
            return Err(AllocError);
        }
        let ring = NONE - count as u32;
        self.places.push(Ends {
            next: ring,
            previous: ring,
        })?;
        Ok(())
    }

    // One edge more, which is free.
    fn add_edge(&mut self) -> Result<(), AllocError>
        ensures rows { self.new.rows ≡ self.old.rows }
        ensures tasks { self.new.tasks ≡ self.old.tasks }
        ensures ok { OnOk result (self.new.spare ≡ self.old.spare + 1) }
        ensures err { OnErr result (self.new ≡ self.old) }
    {
        let count = self.edges.len();
        if count + self.places.len() >= NONE as usize {
            return Err(AllocError);
        }
        self.edges.push(Edge {
            next: NONE,
            previous: NONE,
            place: NONE,
            task: 0,
            behind: self.free,
        })?;
        self.free = count as u32;
        self.spare += 1;
        Ok(())
    }

    // Drops the newest pair of the task, if there is one, and tells whether there was.
    fn drop_newest(&mut self, task: u32) -> bool
        requires { task < self.old.tasks }
        ensures none { result ≡ false → (self.new ≡ self.old) × (edges_of self.old task ≡ 0) }
        ensures dropped { result ≡ true → HasDropped self.old self.new task }
    {
        let number = self.firsts[task as usize];
        if number == NONE {
            return false;
        }
        self.firsts[task as usize] = self.edges[number as usize].behind;
        remove(&mut self.edges, &mut self.places, number, self.free);
        self.free = number;
        self.spare += 1;
        true
    }
}

// The edge of that number in a ring, where there are so many edges: none where it is the place's own number.
fn as_edge(number: u32, edges: usize) -> Option<u32>
    ensures { result ≡ (if nat_lt number edges then Some number else None) }
{
    if (number as usize) < edges {
        Some(number)
    } else {
        None
    }
}
