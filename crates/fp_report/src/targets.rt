//! The targets of call sites.
ghost use Rattle.std.specs.Prelude.{◌≡◌, [], true, IfErr, IfOk};
ghost use Rattle.fp_report.specs.Report.{targets_of, IsSiteAt};
ghost use Rattle.fp_report.specs.Sites.{are_ascending, is_behind, is_site_before};

use fp_model::{MethodId, SiteId};
use sqlite_items::Items;

/// Whether each site comes before the next, as those that a system tells do.
pub fn are_ascending(targets: &[(SiteId, Items<MethodId>)]) -> bool
    ensures { result ≡ are_ascending targets.now }
{
    let mut last = None;
    for pair in targets {
        if !is_behind(last, pair.0) {
            return false;
        }
        last = Some(pair.0);
    }
    true
}

fn is_behind(last: Option<SiteId>, site: SiteId) -> bool
    ensures { result ≡ is_behind last site }
{
    match last {
        Some(last) => is_site_before(last, site),
        None => true,
    }
}

fn is_site_before(a: SiteId, b: SiteId) -> bool
    ensures { result ≡ is_site_before a b }
{
    a.method < b.method || (a.method == b.method && a.pc < b.pc)
}

/// The targets of a site, none where none are told: by a binary search, where the sites ascend.
pub fn targets_of<'a>(
    targets: &'a [(SiteId, Items<MethodId>)],
    is_ascending: bool,
    site: SiteId,
) -> &'a [MethodId]
    requires { is_ascending ≡ true → are_ascending targets.now ≡ true }
    ensures { result.now ≡ targets_of targets.now site }
{
    if !is_ascending {
        return first_targets(targets, site);
    }
    match find_site(targets, site) {
        Ok(at) => targets[at].1.as_slice(),
        Err(_) => &[],
    }
}

/// Where the site is among those that ascend, or where it would go.
fn find_site(targets: &[(SiteId, Items<MethodId>)], site: SiteId) -> Result<usize, usize>
    requires { are_ascending targets.now ≡ true }
    ensures found { IfOk result (IsSiteAt targets.now site) }
    ensures absent { IfErr result (λ at. targets_of targets.now site ≡ []) }
{
    targets.binary_search_by_key(&(site.method, site.pc), |pair| (pair.0.method, pair.0.pc))
}

/// The targets of the first pair of a site.
fn first_targets<'a>(targets: &'a [(SiteId, Items<MethodId>)], site: SiteId) -> &'a [MethodId]
    ensures { result.now ≡ targets_of targets.now site }
{
    for (other, methods) in targets {
        if other.method == site.method && other.pc == site.pc {
            return methods.as_slice();
        }
    }
    &[]
}
