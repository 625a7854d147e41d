//! Known clauses, each by the fingerprint of one of its literals, so that of many only those are looked at that may subsume a new one.
ghost use Rattle.std.specs.Prelude.{◌≡◌, ◌∷◌, ◌<◌, map, IfOk, OnOk};
ghost use Rattle.sigma_base.specs.Lists.{Each};
ghost use Rattle.calculus.specs.Answers.{Among};
ghost use Rattle.saturate.specs.Indexes as spec;

use crate::fingerprint::{Fingerprints, mixed};
use sigma_base::{Listed, NoMemory};
use std::alloc::Global;
use std::collections::HashMap;

/// Numbers of clauses, by keys.
pub(crate) type Index = HashMap<u64, Listed<u32>>;

/// The key of literals with that sign and these codes of their heads and first two arguments. Others may have it too.
pub(crate) fn key(positive: bool, head: u64, first: u64, second: u64) -> u64
    requires head { head < 2147483648 }
    requires first { first < 2147483648 }
    requires second { second < 2147483648 }
    ensures { result ≡ spec.key positive head first second }
{
    let sign = if positive { 1 } else { 2 };
    mixed(mixed(mixed(sign, head), first), second)
}

/// The numbers under the key.
pub(crate) fn listed(index: &Index, key: u64) -> &[u32]
    ensures { result.now ≡ spec.listed index.now key }
{
    match index.get(&key) {
        Some(numbers) => numbers.items(),
        None => &[],
    }
}

/// Of the keys of these literals the one under which the fewest numbers stand.
pub(crate) fn rarest_key(index: &Index, prints: &Fingerprints) -> u64
    requires first { spec.HasCodes prints.now.first }
    requires others { Each spec.HasCodes prints.now.others }
    ensures { Among result (map spec.key_of (prints.now.first ∷ prints.now.others)) }
{
    let mut rarest = prints.first.key();
    let mut fewest = listed(index, rarest).len();
    for print in prints.others.items() {
        let key = print.key();
        let count = listed(index, key).len();
        if count < fewest {
            rarest = key;
            fewest = count;
        }
    }
    rarest
}

/// Adds the number last under the key.
pub(crate) fn list(alloc: Global, index: &mut Index, key: u64, number: u32) -> Result<(), NoMemory>
    ensures { OnOk result (spec.IsListed (spec.listed index.old) (spec.listed index.new) key number) }
{
    let mut numbers = match index.remove(&key) {
        Some(numbers) => numbers,
        None => Listed::new(alloc),
    };
    numbers.push(number)?;
    index.insert(key, numbers)?;
    Ok(())
}
