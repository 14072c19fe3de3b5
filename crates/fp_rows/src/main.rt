//! A program that runs the analyser on stored cases, and prints what comes of each. The file `cases` among its data says how a
//! case is written.
#![tactic(auto)]

mod case;
mod run;

use crate::case::{is_case, read_case};
use crate::run::run_case;
use anyhow::Result;
use fp_base::HostDir;
use std::fs;

fn main(rt: HostRuntime) -> Result<()> {
    let alloc = rt.alloc();
    let mut data = HostDir::new(alloc, &rt);
    let text = fs::read_to_string(&rt, "cases")?;
    for line in text.lines() {
        if is_case(line) {
            let case = read_case(alloc, line)?;
            run_case(&rt, alloc, &mut data, case)?;
        }
    }
    Ok(())
}
