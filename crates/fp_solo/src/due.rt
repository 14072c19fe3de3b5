//! The tasks that are due, first in, first out.
ghost use Rattle.std.specs.Prelude.{◌≡◌, ◌+◌, ◌<◌, ◌==◌, ◌&&◌, ◌||◌, ℕ, false, not, length, IsTrue, IfNone, IfOk, IfSome, OnOk};
ghost use Rattle.fp_eqs.specs.Solved.{flag_at};
ghost use Rattle.fp_solo.specs.Queued.{IsDue, is_queued, queue_length};

use std::alloc::{AllocError, Global};
use std::collections::VecDeque;

/// Tasks that wait, in two queues: those that ask few places come before those that ask many, since an evaluation of these costs
/// more and finds more where the others have run before it.
#[derive(Drop)]
pub struct Queues {
    /// The tasks that ask few places, in the order in which they came.
    pub few: VecDeque<u32>,
    /// The tasks that ask many.
    pub many: VecDeque<u32>,
}

impl Queues {
    /// Puts a task behind those that wait.
    fn push(&mut self, task: u32, wide: bool) -> Result<(), AllocError>
        ensures { OnOk result ((t : ℕ) → is_queued self.new t ≡ (is_queued self.old t || task == t)) }
    {
        if wide {
            self.many.push_back(task)?;
            return Ok(());
        }
        self.few.push_back(task)?;
        Ok(())
    }

    /// Takes the task whose turn it is.
    fn pop(&mut self) -> Option<u32>
        ensures none { IfNone result ((t : ℕ) → is_queued self.old t ≡ false) }
        ensures some { IfSome result (λ task. (t : ℕ) → is_queued self.old t ≡ (task == t || is_queued self.new t)) }
        ensures fewer { IfSome result (λ _. queue_length self.new + 1 ≡ queue_length self.old) }
    {
        if let Some(task) = self.few.pop_front() {
            return Some(task);
        }
        self.many.pop_front()
    }
}

/// Which tasks are due, each of which waits in a queue. A task that is taken out of a queue may be due no more.
#[derive(Drop)]
pub struct Due {
    /// Whether each task is due.
    pub flags: Vec<bool>,
    /// The tasks that became due and were not taken since.
    pub queues: Queues,
}

impl Due {
    /// So many tasks, none of which is due.
    pub fn new(alloc: Global, tasks: u32) -> Result<Due, AllocError>
        ensures due { IfOk result (IsDue tasks) }
        ensures none { IfOk result (λ d. (t : ℕ) → flag_at d.flags.items t ≡ false) }
    {
        Ok(Due {
            flags: unset(alloc, tasks)?,
            queues: Queues {
                few: VecDeque::new(alloc),
                many: VecDeque::new(alloc),
            },
        })
    }

    /// Makes a task due, which waits behind those that ask as few places, or as many, as it does.
    pub fn mark(&mut self, task: u32, wide: bool) -> Result<(), AllocError>
        requires { task < length self.old.flags.items }
        ensures due { OnOk result ((n : ℕ) → IsDue n self.old → IsDue n self.new) }
        ensures marked { OnOk result ((t : ℕ) → flag_at self.new.flags.items t ≡ (flag_at self.old.flags.items t || task == t)) }
    {
        if self.flags[task as usize] {
            return Ok(());
        }
        self.queues.push(task, wide)?;
        self.flags[task as usize] = true;
        Ok(())
    }

    /// Takes the next task that is due, if one is.
    pub fn take(&mut self) -> Option<u32>
        requires { IsDue (length self.old.flags.items) self.old }
        ensures due { (n : ℕ) → IsDue n self.old → IsDue n self.new }
        ensures unchanged { IfNone result (self.new.flags ≡ self.old.flags) }
        ensures none { IfNone result ((t : ℕ) → flag_at self.new.flags.items t ≡ false) }
        ensures was_due { IfSome result (λ task. IsTrue (flag_at self.old.flags.items task)) }
        ensures taken { IfSome result (λ task. (t : ℕ) → flag_at self.new.flags.items t ≡ (flag_at self.old.flags.items t && not (task == t))) }
    {
        while let Some(task) = self.queues.pop() {
            if self.is_due(task) {
                self.flags[task as usize] = false;
                return Some(task);
            }
        }
        None
    }

    fn is_due(&self, task: u32) -> bool
        ensures { result ≡ flag_at self.now.flags.items task }
    {
        match self.flags.get(task as usize) {
            Some(flag) => *flag,
            None => false,
        }
    }
}

/// So many flags that are not set.
pub fn unset(alloc: Global, count: u32) -> Result<Vec<bool>, AllocError>
    ensures long { IfOk result (λ v. length v.items ≡ count) }
    ensures unset { IfOk result (λ v. (i : ℕ) → flag_at v.items i ≡ false) }
{
    let mut flags = Vec::with_capacity(alloc, count as usize)?;
    for _ in 0..count {
        flags.push(false)?;
    }
    Ok(flags)
}
