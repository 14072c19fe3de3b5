ghost use Rattle.std.specs.Prelude.{◌≡◌, ◌≤◌, ◌+◌, ◌++◌, ◌<◌, ℕ, [], All, IfNone, IfOk, IfSome, IsTrue, OnOk, false, length, option_to_list, slice_index_or, true};
ghost use Rattle.fp_flow.specs.Waiting.{is_listed};

use std::alloc::{AllocError, Global};

/// The nodes that wait for a visit.
#[derive(Drop)]
pub struct Worklist {
    /// The nodes, the next one last.
    pub nodes: Vec<u32>,
    /// Whether each node is among them.
    pub waiting: Vec<bool>,
    ghost marked: { (n : ℕ) → slice_index_or waiting.items n false ≡ true → IsTrue (is_listed nodes.items n) },
    ghost within: { All (λ n. n < length waiting.items) nodes.items },
}

impl Worklist {
    /// Every node, the least one next.
    pub fn full(alloc: Global, count: u32) -> Result<Worklist, AllocError>
        ensures count { IfOk result (λ work. length work.waiting.items ≡ count) }
        ensures all { IfOk result (λ work. (n : ℕ) → n < count → IsTrue (is_listed work.nodes.items n)) }
    {
        let nodes = downward(alloc, count)?;
        let waiting = all_set(alloc, count)?;
        Ok(Worklist { nodes, waiting })
    }

    /// Takes the next node off the list.
    pub fn pop(&mut self) -> Option<u32>
        ensures nodes { self.old.nodes.items ≡ self.new.nodes.items ++ option_to_list result }
        ensures some { IfSome result (λ node. node < length self.old.waiting.items) }
        ensures none { IfNone result (self.old.nodes.items ≡ []) }
        ensures count { length self.new.waiting.items ≡ length self.old.waiting.items }
    {
        let node = self.nodes.pop()?;
        self.waiting[node as usize] = false;
        Some(node)
    }

    /// Puts a node on the list, if it isn't there.
    pub fn add(&mut self, node: u32) -> Result<(), AllocError>
        requires { node < length self.old.waiting.items }
        ensures count { length self.new.waiting.items ≡ length self.old.waiting.items }
        ensures kept { (n : ℕ) → IsTrue (is_listed self.old.nodes.items n) → IsTrue (is_listed self.new.nodes.items n) }
        ensures listed { OnOk result (IsTrue (is_listed self.new.nodes.items node)) }
        ensures one { length self.new.nodes.items ≤ length self.old.nodes.items + 1 }
    {
        if !self.waiting[node as usize] {
            self.nodes.push(node)?;
            self.waiting[node as usize] = true;
        }
        Ok(())
    }
}

/// The numbers below a count, the least one last.
fn downward(alloc: Global, count: u32) -> Result<Vec<u32>, AllocError>
    ensures below { IfOk result (λ v. All (λ n. n < count) v.items) }
    ensures all { IfOk result (λ v. (n : ℕ) → n < count → IsTrue (is_listed v.items n)) }
{
    let mut nodes = Vec::with_capacity(alloc, count as usize)?;
    for node in (0..count).rev() {
        nodes.push(node)?;
    }
    Ok(nodes)
}

/// So many flags that are set.
fn all_set(alloc: Global, count: u32) -> Result<Vec<bool>, AllocError>
    ensures { IfOk result (λ v. length v.items ≡ count) }
{
    let mut flags = Vec::with_capacity(alloc, count as usize)?;
    for _ in 0..count {
        flags.push(true)?;
    }
    Ok(flags)
}
