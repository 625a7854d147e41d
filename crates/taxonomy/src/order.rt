//! An order of numbers in which few runs hold what lies below a number. Nothing but speed rests on it.
use crate::closure::Edge;
use sigma_base::NoMemory;
use std::alloc::Global;

/// A search down the edges, from their ends to their starts, with a stack of its own.
#[derive(Debug, Drop)]
struct Search {
    /// For each number the first of the edges that end there and weren't walked.
    open: Vec<Option<usize>>,
    /// For each edge the next one that ends where it ends.
    next: Vec<Option<usize>>,
    seen: Vec<bool>,
    stack: Vec<usize>,
    order: Vec<usize>,
}

fn copies<T: Copy + Drop>(alloc: Global, value: T, count: usize) -> Result<Vec<T>, NoMemory> {
    let mut values = Vec::new(alloc);
    for _ in 0..count {
        values.push(value)?;
    }
    Ok(values)
}

impl Search {
    fn new(alloc: Global, count: usize, edges: &[Edge]) -> Result<Search, NoMemory> {
        let mut open = copies(alloc, None, count)?;
        let mut next = Vec::new(alloc);
        let mut index: usize = 0;
        for edge in edges {
            let before = open.get(edge.high).copied().flatten();
            next.push(before)?;
            if let Some(newest) = open.get_mut(edge.high) {
                *newest = Some(index);
            }
            index = index.saturating_add(1);
        }
        Ok(Search {
            open,
            next,
            seen: copies(alloc, false, count)?,
            stack: Vec::new(alloc),
            order: Vec::new(alloc),
        })
    }

    /// Begins with a number that wasn't seen.
    fn enter(&mut self, number: usize) -> Result<(), NoMemory> {
        let Some(seen) = self.seen.get_mut(number) else {
            return Ok(());
        };
        if !*seen {
            *seen = true;
            self.stack.push(number)?;
        }
        Ok(())
    }

    /// Walks one edge, or ends with a number that has none left. Whether anything was to do.
    fn step(&mut self, edges: &[Edge]) -> Result<bool, NoMemory> {
        let Some(number) = self.stack.last().copied() else {
            return Ok(false);
        };
        let Some(index) = self.open.get(number).copied().flatten() else {
            self.stack.pop();
            self.order.push(number)?;
            return Ok(true);
        };
        if let Some(rest) = self.open.get_mut(number) {
            *rest = self.next.get(index).copied().flatten();
        }
        if let Some(edge) = edges.get(index) {
            self.enter(edge.low)?;
        }
        Ok(true)
    }

    /// Walks all edges below the number.
    fn visit(&mut self, edges: &[Edge], number: usize) -> Result<(), NoMemory> {
        self.enter(number)?;
        // more steps than edges and numbers are never taken
        let most = edges.len().saturating_add(self.seen.len());
        for _ in 0..most {
            if !self.step(edges)? {
                return Ok(());
            }
        }
        Ok(())
    }
}

/// Whether an edge begins at the number, for each number below the count.
fn starts(alloc: Global, count: usize, edges: &[Edge]) -> Result<Vec<bool>, NoMemory> {
    let mut starts = copies(alloc, false, count)?;
    for edge in edges {
        if let Some(start) = starts.get_mut(edge.low) {
            *start = true;
        }
    }
    Ok(starts)
}

/// The numbers below the count, each behind those below it where no cycle forbids it.
fn searched(alloc: Global, count: usize, edges: &[Edge]) -> Result<Vec<usize>, NoMemory> {
    let starts = starts(alloc, count, edges)?;
    let mut search = Search::new(alloc, count, edges)?;
    let mut number: usize = 0;
    for is_start in starts.as_slice() {
        if !*is_start {
            search.visit(edges, number)?;
        }
        number = number.saturating_add(1);
    }
    // what only cycles lead to
    for number in 0..count {
        search.visit(edges, number)?;
    }
    let Search { order, .. } = search;
    Ok(order)
}

/// Whether one of the edges joins the number to another, for each number below the count.
fn joined(alloc: Global, count: usize, edges: &[Edge]) -> Result<Vec<bool>, NoMemory> {
    let mut joined = starts(alloc, count, edges)?;
    for edge in edges {
        if let Some(end) = joined.get_mut(edge.high) {
            *end = true;
        }
    }
    Ok(joined)
}

/// The edges, and those of the instances that none of them joins to another number.
fn with_leaves(
    alloc: Global,
    joined: &[bool],
    edges: &[Edge],
    instances: &[Edge],
) -> Result<Vec<Edge>, NoMemory> {
    let mut all = Vec::from_slice(alloc, edges)?;
    for edge in instances {
        if !is_set(joined, edge.low) {
            all.push(*edge)?;
        }
    }
    Ok(all)
}

fn is_set(flags: &[bool], number: usize) -> bool {
    match flags.get(number) {
        Some(flag) => *flag,
        None => false,
    }
}

/// The numbers of the order for which the flag is as asked.
fn append_where(
    order: &mut Vec<usize>,
    numbers: &[usize],
    flags: &[bool],
    wanted: bool,
) -> Result<(), NoMemory> {
    for number in numbers {
        if is_set(flags, *number) == wanted {
            order.push(*number)?;
        }
    }
    Ok(())
}

/// The numbers below the count, each behind those below it where no cycle forbids it. Those that are instances alone come first, so
/// that they part no runs of the others.
pub(crate) fn lowest_first(
    alloc: Global,
    count: usize,
    edges: &[Edge],
    instances: &[Edge],
) -> Result<Vec<usize>, NoMemory> {
    let joined = joined(alloc, count, edges)?;
    let all = with_leaves(alloc, joined.as_slice(), edges, instances)?;
    let numbers = searched(alloc, count, all.as_slice())?;
    let mut order = Vec::new(alloc);
    append_where(&mut order, numbers.as_slice(), joined.as_slice(), false)?;
    append_where(&mut order, numbers.as_slice(), joined.as_slice(), true)?;
    Ok(order)
}
