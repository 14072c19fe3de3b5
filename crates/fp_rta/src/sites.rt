//! The calls of all methods.
ghost use Rattle.std.specs.Prelude.{◌≡◌, ◌++◌, map, IfOk, OnOk};
ghost use Rattle.std.specs.List.{flat_map};
ghost use Rattle.fp_rta.specs.Meaning as rows;

use crate::places::{callees_at, reach_at};
use crate::site::Site;
use fp_cells::Cells;
use fp_facts::{CallSite, MethodFacts};
use fp_model::MethodId;
use std::alloc::{AllocError, Global};

/// The calls of all methods, in their order.
pub(crate) fn sites(
    alloc: Global,
    cells: &Cells,
    methods: &[MethodFacts],
) -> Result<Vec<Site>, AllocError>
    ensures { IfOk result (λ sites. sites.items ≡ flat_map (rows.site_rows cells.now) methods.now) }
{
    let mut sites = Vec::new(alloc);
    for method in methods {
        push_sites(&mut sites, cells, method.method, method.sites.as_slice())?;
    }
    Ok(sites)
}

// Adds the calls of a method.
fn push_sites(
    sites: &mut Vec<Site>,
    cells: &Cells,
    method: MethodId,
    calls: &[CallSite],
) -> Result<(), AllocError>
    ensures { OnOk result (sites.new.items ≡ sites.old.items ++ map (rows.site_row cells.now method) calls.now) }
{
    let trigger = reach_at(cells, method);
    for call in calls {
        sites.push(Site {
            trigger,
            callees: callees_at(cells, method, call.pc),
            shape: call.call,
        })?;
    }
    Ok(())
}
