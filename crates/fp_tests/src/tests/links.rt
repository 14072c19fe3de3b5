//! Pairs of tasks and places.
ghost use Rattle.std.specs.Prelude.{◌≡◌, ◌+◌, ◌<◌, ◌≤◌, ◌^◌, ℕ, IfOk, OnOk, length, map};
ghost use Rattle.fp_links.specs.Linked.{row};

use fp_links::Links;
use std::alloc::{AllocError, Global};
use std::process::Abort;
use std::test::Fail;

/// The tasks of the edges that lead to a place, the newest first.
fn readers(alloc: Global, links: &Links, place: u32) -> Result<Vec<u32>, AllocError>
    requires { place < length links.now.rows }
{
    let mut readers = Vec::new(alloc);
    let mut next = links.first_of_place(place);
    while let Some(edge) = next {
        readers.push(links.task_of(edge))?;
        next = links.next_of_place(edge);
    }
    Ok(readers)
}

/// Links a pair unless it is there, and tells whether it wasn't.
fn link_new(links: &mut Links, task: u32, place: u32) -> Result<bool, AllocError>
    requires task { task < 1000 }
    requires place { place < 1000 }
    ensures known { OnOk result ((task < links.new.tasks) × (place < length links.new.rows)) }
{
    links.reserve(task + 1, place + 1, 1)?;
    if links.has(task, place) {
        return Ok(false);
    }
    links.link(task, place);
    Ok(true)
}

/// Tasks 1 and 2 read place 0.
fn two_readers(alloc: Global) -> Result<Links, AllocError>
    ensures { IfOk result (λ links. (3 ≤ links.tasks) × (1 ≤ length links.rows)) }
{
    let mut links = Links::new(alloc);
    link_new(&mut links, 1, 0)?;
    link_new(&mut links, 2, 0)?;
    links.reserve(3, 1, 0)?;
    Ok(links)
}

#[test]
fn a_task_is_unlinked_and_another_stays(rt: HostRuntime) -> Result<(), Fail> {
    let alloc = rt.alloc();
    let mut links = two_readers(alloc)?;
    assert_eq!(rt; readers(alloc, &links, 0)?.as_slice(), [2, 1].as_slice());
    links.unlink_task(1);
    assert_eq!(rt; readers(alloc, &links, 0)?.as_slice(), [2].as_slice());
    Ok(())
}

/// The pairs as a plain list, the newest first.
#[derive(Drop)]
struct Plain {
    pairs: Vec<(u32, u32)>,
}

impl Plain {
    fn has(&self, task: u32, place: u32) -> bool {
        self.pairs.contains(&(task, place))
    }

    fn link(&mut self, task: u32, place: u32) -> Result<(), AllocError> {
        self.pairs.insert(0, (task, place))?;
        Ok(())
    }

    fn unlink_task(&mut self, task: u32) {
        self.pairs.retain(|pair| pair.0 != task);
    }

    fn readers(&self, alloc: Global, place: u32) -> Result<Vec<u32>, AllocError> {
        let mut readers = Vec::new(alloc);
        for pair in &self.pairs {
            if pair.1 == place {
                readers.push(pair.0)?;
            }
        }
        Ok(readers)
    }
}

/// The next of a row of numbers that look chosen by chance.
fn mixed(seed: u64) -> u64 {
    seed.wrapping_mul(6_364_136_223_846_793_005)
        .wrapping_add(1_442_695_040_888_963_407)
}

/// One change of both, and whether they tell the same of the place that it is about.
fn agree(
    alloc: Global,
    links: &mut Links,
    plain: &mut Plain,
    seed: u64,
) -> Result<bool, AllocError> {
    let task = (seed >> 33) as u32 % 24;
    let place = (seed >> 45) as u32 % 12;
    let was = plain.has(task, place);
    let is_new = link_new(links, task, place)?;
    if is_new {
        plain.link(task, place)?;
    }
    if (seed >> 57) % 8 == 0 {
        links.unlink_task(task);
        plain.unlink_task(task);
    }
    links.reserve(0, place + 1, 0)?;
    let told = readers(alloc, links, place)?;
    Ok(is_new != was && told == plain.readers(alloc, place)?)
}

#[test]
fn links_are_a_plain_list_of_pairs(rt: HostRuntime) -> Result<(), Fail> {
    let alloc = rt.alloc();
    let mut links = Links::new(alloc);
    let mut plain = Plain {
        pairs: Vec::new(alloc),
    };
    let mut seed = 1;
    for step in 0..5000u32 {
        seed = mixed(seed);
        let is_same = agree(alloc, &mut links, &mut plain, seed)?;
        assert!(rt; is_same, "at {step}");
    }
    Ok(())
}
