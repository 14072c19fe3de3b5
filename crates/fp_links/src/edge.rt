//! Edges in rings: each place has a ring in which it stands itself, with the edges that lead to it.
ghost use Rattle.std.specs.Prelude.{◌≡◌, ℕ, ◌+◌, ◌-◌, ◌<◌, ◌≤◌, ◌^◌, ◌⊎◌, length};
ghost use Rattle.fp_links.specs.Fields.{next_at, previous_at, place_at, task_at, behind_at, none, ring};
ghost use Rattle.fp_links.specs.Rings.{put};

/// No edge, and no place: the end of a list of edges, and the place of a free edge.
pub const NONE: u32 = u32::MAX;

/// An edge, whose number is its index. Numbers in rings are those of edges, and `NONE - place` for a place.
#[derive(Clone, Copy)]
pub struct Edge {
    /// What is next in the ring of its place.
    pub next: u32,
    /// What stands before it in the ring.
    pub previous: u32,
    /// The place that it leads to, or none where it is free.
    pub place: u32,
    /// The task that it belongs to.
    pub task: u32,
    /// The edge behind it in the list of its task or, where it is free, of free edges.
    pub behind: u32,
}

/// Where a place's ring begins and ends.
#[derive(Clone, Copy)]
pub struct Ends {
    /// The first edge, or the place itself.
    pub next: u32,
    /// The last edge, or the place itself.
    pub previous: u32,
}

/// What is next to an edge or a place in its ring.
pub fn next_of(edges: &[Edge], places: &[Ends], number: u32) -> u32
    requires { (number < length edges.now) ⊎ (none - number < length places.now) }
    ensures { result ≡ next_at edges.now places.now number }
{
    if (number as usize) < edges.len() {
        edges[number as usize].next
    } else {
        places[(NONE - number) as usize].next
    }
}

fn set_next(edges: &mut [Edge], places: &mut [Ends], number: u32, to: u32)
    requires { (number < length edges.old) ⊎ (none - number < length places.old) }
    ensures next { (x : ℕ) → next_at edges.new places.new x ≡ put (next_at edges.old places.old) number to x }
    ensures previous { (x : ℕ) → previous_at edges.new places.new x ≡ previous_at edges.old places.old x }
    ensures place { (x : ℕ) → place_at edges.new x ≡ place_at edges.old x }
    ensures task { (x : ℕ) → task_at edges.new x ≡ task_at edges.old x }
    ensures behind { (x : ℕ) → behind_at edges.new x ≡ behind_at edges.old x }
{
    if (number as usize) < edges.len() {
        edges[number as usize].next = to;
    } else {
        places[(NONE - number) as usize].next = to;
    }
}

fn set_previous(edges: &mut [Edge], places: &mut [Ends], number: u32, to: u32)
    requires { (number < length edges.old) ⊎ (none - number < length places.old) }
    ensures next { (x : ℕ) → next_at edges.new places.new x ≡ next_at edges.old places.old x }
    ensures previous { (x : ℕ) → previous_at edges.new places.new x ≡ put (previous_at edges.old places.old) number to x }
    ensures place { (x : ℕ) → place_at edges.new x ≡ place_at edges.old x }
    ensures task { (x : ℕ) → task_at edges.new x ≡ task_at edges.old x }
    ensures behind { (x : ℕ) → behind_at edges.new x ≡ behind_at edges.old x }
{
    if (number as usize) < edges.len() {
        edges[number as usize].previous = to;
    } else {
        places[(NONE - number) as usize].previous = to;
    }
}

/// Puts a free edge at the head of the ring of a place, and before those of its task.
pub fn insert(
    edges: &mut [Edge],
    places: &mut [Ends],
    number: u32,
    place: u32,
    task: u32,
    behind: u32,
)
    requires edge { number < length edges.old }
    requires place { place < length places.old }
    requires room { length edges.old + length places.old < 2 ^ 32 }
    requires first { (next_at edges.old places.old (ring place) < length edges.old)
        ⊎ (none - next_at edges.old places.old (ring place) < length places.old) }
    ensures next { (x : ℕ) → next_at edges.new places.new x
        ≡ put (put (next_at edges.old places.old) number (next_at edges.old places.old (ring place))) (ring place) number x }
    ensures previous { (x : ℕ) → previous_at edges.new places.new x
        ≡ put (put (previous_at edges.old places.old) number (ring place)) (next_at edges.old places.old (ring place)) number x }
    ensures place { (x : ℕ) → place_at edges.new x ≡ put (place_at edges.old) number place x }
    ensures task { (x : ℕ) → task_at edges.new x ≡ put (task_at edges.old) number task x }
    ensures behind { (x : ℕ) → behind_at edges.new x ≡ put (behind_at edges.old) number behind x }
{
    let ring = NONE - place;
    let first = next_of(edges, places, ring);
    edges[number as usize] = Edge {
        next: first,
        previous: ring,
        place,
        task,
        behind,
    };
    set_previous(edges, places, first, number);
    set_next(edges, places, ring, number);
}

/// Takes an edge out of the ring of its place, and puts it before the free edges.
pub fn remove(edges: &mut [Edge], places: &mut [Ends], number: u32, behind: u32)
    requires edge { number < length edges.old }
    requires next { (next_at edges.old places.old number < length edges.old)
        ⊎ (none - next_at edges.old places.old number < length places.old) }
    requires previous { (previous_at edges.old places.old number < length edges.old)
        ⊎ (none - previous_at edges.old places.old number < length places.old) }
    ensures next { (x : ℕ) → next_at edges.new places.new x
        ≡ put (next_at edges.old places.old) (previous_at edges.old places.old number) (next_at edges.old places.old number) x }
    ensures previous { (x : ℕ) → previous_at edges.new places.new x
        ≡ put (previous_at edges.old places.old) (next_at edges.old places.old number) (previous_at edges.old places.old number) x }
    ensures place { (x : ℕ) → place_at edges.new x ≡ put (place_at edges.old) number none x }
    ensures task { (x : ℕ) → task_at edges.new x ≡ task_at edges.old x }
    ensures behind { (x : ℕ) → behind_at edges.new x ≡ put (behind_at edges.old) number behind x }
{
    let Edge { next, previous, .. } = edges[number as usize];
    set_next(edges, places, previous, next);
    set_previous(edges, places, next, previous);
    edges[number as usize] = Edge {
        place: NONE,
        behind,
        ..edges[number as usize]
    };
}
