//! Requests that are refused although their words are read.
ghost use Rattle.std.specs.Prelude.{◌≡◌, IfOk};
ghost use Rattle.sigma_app.specs.Requests as spec;

use crate::requests::Request;
use sigma_base::NoMemory;
use std::alloc::Global;
use std::collections::BTreeSet;

/// The greatest number of bytes of a query.
pub const QUERY_LIMIT: usize = 8_388_608;

/// Whether a path stands at two places.
fn stand_twice(alloc: Global, paths: &[&str]) -> Result<bool, NoMemory>
    ensures { IfOk result (λ twice. twice ≡ spec.stand_twice (spec.texts paths.now)) }
{
    let mut seen = BTreeSet::new(alloc);
    for path in paths {
        if !seen.insert(*path)? {
            return Ok(true);
        }
    }
    Ok(false)
}

fn is_long(request: &Request<'_>) -> bool
    ensures { result ≡ spec.is_long (spec.meaning_of request.now) }
{
    match request {
        Request::Ask(ask) => ask.query.len() > QUERY_LIMIT,
        _ => false,
    }
}

/// Whether the query has more bytes than its limit, or a path stands twice.
pub fn is_refused(alloc: Global, request: &Request<'_>) -> Result<bool, NoMemory>
    ensures { IfOk result (λ refused. refused ≡ spec.is_refused (spec.meaning_of request.now)) }
{
    Ok(is_long(request) || stand_twice(alloc, request.files())?)
}
