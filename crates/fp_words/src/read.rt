ghost use Rattle.std.specs.Prelude.{◌≡◌, None, Some, IfOk, IsErrOf};
ghost use Rattle.fp_base.specs.Files.{texts};
ghost use Rattle.fp_words.specs.Asked.{asked_of};
ghost use Rattle.fp_words.specs.Words.{order_of};

use crate::command::read_run;
use crate::fault::WordsFault;
use crate::grammar::is_run;
use crate::job::Order;
use std::alloc::Global;

/// What the words ask for: options in any order, a directory, and roots.
///
/// `--analyses LIST`, `--show LIST` and `--workers N` stand once each, each with its value in the next word. They are
/// followed by the directory, and by roots, as many as there are. No word is empty, and no word but an option
/// begins with `-`.
///
/// # Errors
/// `Usage` exactly where the words are not of this grammar. `Memory` where there is no memory to read them.
#[tactic(auto, unfolding(crate::specs::Words::order_of))]
pub fn read_words(alloc: Global, words: &[String]) -> Result<Order, WordsFault>
    ensures order { IfOk result (λ order. order_of (texts words.now) ≡ Some (asked_of order)) }
    ensures usage { IsErrOf result WordsFault.Usage → order_of (texts words.now) ≡ None }
    ensures usage_exactly { order_of (texts words.now) ≡ None → IsErrOf result WordsFault.Usage }
{
    if !is_run(words) {
        return Err(WordsFault::Usage);
    }
    let job = read_run(alloc, words)?;
    Ok(Order::Run(job))
}
