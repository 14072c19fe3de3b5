//! The cells of a run of analyses, and the places that hold their values.
ghost use Rattle.std.specs.Prelude.{◌≡◌, ◌+◌, ◌<◌, ◌^◌, ◌++◌, ◌∷◌, ◌==◌, ◌↔◌, [], List, Some, None, false, if◌then◌else◌, is_some, length, option_map, slice_get, IfOk, IsTrue, OnOk, OnErr};
ghost use Rattle.fp_cells.specs.Cells.{AreDistinct, Cell, IsNumbering, cell_at, cell_from, first_place, has_cell, places_of, total_places};

use crate::kind::{Entity, KindId};
use indexmap::IndexMap;
use std::alloc::{AllocError, Global};
use std::marker::Model;

/// Where the places of a cell begin, and how many bits its value has.
#[derive(Clone, Copy, Debug)]
struct Spot {
    first: u32,
    bits: u32,
}

/// The cells of a run, in the order in which they were added: each has a kind, an entity and a number of bits.
///
/// The value of a cell stands in its places, which hold 64 bits each: one place for each 64 bits, and at least one. The places are
/// numbered from 0, cell after cell.
#[derive(Drop)]
pub struct Cells {
    // A map that keeps the order of adding. Its keys are numbers that the analyses give, and no names that an input could choose
    // to share a hash.
    spots: IndexMap<(KindId, Entity), Spot>,
    // The cell that each place belongs to.
    owners: Vec<(KindId, Entity)>,
}

impl Model for Cells {
    ghost use Rattle.std.specs.Prelude.{List};
    ghost use Rattle.fp_cells.specs.Cells.{Cell};

    ghost Value = { List Cell };

    ghost use Rattle.fp_cells.specs.Spots.{cells_of, IsCellTable};

    ghost view = { λ c. cells_of c.spots.entries };

    ghost invariant = { λ c. IsCellTable c.spots.entries c.owners.items };
}

impl Cells {
    /// No cells, which take no memory.
    pub fn new(alloc: Global) -> Cells
        ensures { result ≡ [] }
    {
        Cells {
            spots: IndexMap::new(alloc),
            owners: Vec::new(alloc),
        }
    }

    /// How many places there are. Their numbers are those below it.
    pub fn places(&self) -> u32
        ensures places { result ≡ total_places self.now }
        ensures distinct { AreDistinct self.now }
    {
        self.owners.len() as u32
    }

    /// Adds a cell whose value has so many bits, and gives its first place. Where there is no memory, the cells stay as they were.
    pub fn add(&mut self, kind: KindId, entity: Entity, bits: u32) -> Result<u32, AllocError>
        requires absent { has_cell self.old kind entity ≡ false }
        requires few { total_places self.old + places_of bits < 2 ^ 32 }
        ensures first { IfOk result (λ place. place ≡ total_places self.old) }
        ensures added { OnOk result (self.new
            ≡ self.old ++ record { kind = kind; entity = entity; bits = bits } ∷ []) }
        ensures err { OnErr result (self.new ≡ self.old) }
        ensures distinct { AreDistinct self.new }
    {
        let first = self.places();
        let end = first + count_places(bits);
        self.owners.resize(end as usize, (kind, entity))?;
        let spot = Spot { first, bits };
        match self.spots.insert((kind, entity), spot) {
            Ok(_) => Ok(first),
            Err(_) => {
                self.owners.truncate(first as usize);
                Err(AllocError)
            }
        }
    }

    /// The first place of the cell of that kind and entity, if there is one. Takes no memory.
    pub fn find(&self, kind: KindId, entity: Entity) -> Option<u32>
        ensures place { result ≡ first_place self.now kind entity }
        ensures known { is_some result ≡ has_cell self.now kind entity }
        ensures distinct { AreDistinct self.now }
    {
        let spot = self.spots.get(&(kind, entity))?;
        Some(spot.first)
    }

    /// The kind and the entity of the cell that the place belongs to, if there is such a place. Takes no memory.
    pub fn cell_of(&self, place: u32) -> Option<(KindId, Entity)>
        ensures cell { result ≡ cell_at self.now place }
        ensures distinct { AreDistinct self.now }
    {
        self.owners.get(place as usize).copied()
    }

    /// The kind, the entity and the number of bits of the cell whose first place this is, if there is one. Takes no memory.
    pub fn begins(&self, place: u32) -> Option<(KindId, Entity, u32)>
        ensures cell { result ≡ option_map (λ c. (c.kind, c.entity, c.bits)) (cell_from self.now 0 place) }
        ensures distinct { AreDistinct self.now }
    {
        let (kind, entity) = self.cell_of(place)?;
        let spot = self.spots.get(&(kind, entity))?;
        begun(kind, entity, *spot, place)
    }

    /// How many cells there are.
    pub fn len(&self) -> u32
        ensures len { result ≡ length self.now }
        ensures distinct { AreDistinct self.now }
    {
        self.spots.len() as u32
    }

    /// Whether there is no cell.
    pub fn is_empty(&self) -> bool
        ensures empty { IsTrue result ↔ (self.now ≡ []) }
        ensures distinct { AreDistinct self.now }
    {
        self.spots.is_empty()
    }

    /// The kind, the entity and the number of bits of the `i`-th cell in the order of adding, counted from 0. Takes no memory.
    pub fn cell(&self, i: u32) -> Option<(KindId, Entity, u32)>
        ensures cell { result ≡ option_map (λ c. (c.kind, c.entity, c.bits)) (slice_get self.now i) }
        ensures distinct { AreDistinct self.now }
    {
        let (key, spot) = self.spots.get_index(i as usize)?;
        Some((key.0, key.1, spot.bits))
    }
}

/// The places of cells are numbered one to one: a cell's first place leads back to it, each place below the total belongs to one
/// cell, and places of different cells don't meet.
pub fn law_places()
    ensures { (cells : List Cell) → AreDistinct cells → IsNumbering cells }
{}

// The cell of a spot, where it begins at the place.
fn begun(kind: KindId, entity: Entity, spot: Spot, place: u32) -> Option<(KindId, Entity, u32)>
    ensures { result ≡ (if spot.first == place then Some (kind, entity, spot.bits) else None) }
{
    if spot.first == place {
        Some((kind, entity, spot.bits))
    } else {
        None
    }
}

/// How many places a value of so many bits takes: one for each 64 bits, and at least one.
pub fn count_places(bits: u32) -> u32
    ensures { result ≡ places_of bits }
{
    bits.div_ceil(64).max(1)
}
