//! Tables of cases: lines of an input and the answer that is wanted, with `;` between them.

use std::alloc::Global;
use std::process::Abort;
use std::test::Fail;

/// Whether each line's input has its answer.
pub fn check<F: Fn(Global, &str) -> Result<String, Fail> + Drop>(
    rt: &impl Abort,
    alloc: Global,
    table: &str,
    told: F,
) -> Result<(), Fail>
    requires { F.IsAlwaysCallable told }
{
    for line in table.lines() {
        let (input, wanted) = line.rsplit_once(';').ok_or("no answer")?;
        assert_eq!(rt; told(alloc, input)?.as_str(), wanted, "at {line}");
    }
    Ok(())
}
