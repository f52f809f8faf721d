//! Which places reach one another, by one walk over all steps. No contract speaks of it.

use sqlite_items::Items;
use std::alloc::{AllocError, Global};

// Each place has the number of its turn (0 before it), the least turn that it reaches back to, and the number
// of its component (0 before it is known).
#[derive(Drop)]
struct Walk {
    turns: Vec<usize>,
    least: Vec<usize>,
    components: Vec<usize>,
    turn: usize,
    component: usize,
    // Places whose component isn't known yet, in the order of their turns.
    open: Vec<usize>,
    // The path that the walk is on: places, each with how many of its steps are done.
    path: Vec<(usize, usize)>,
}

fn at(numbers: &[usize], place: usize) -> usize {
    match numbers.get(place) {
        Some(number) => *number,
        None => 0,
    }
}

fn put(numbers: &mut [usize], place: usize, value: usize) {
    if let Some(number) = numbers.get_mut(place) {
        *number = value;
    }
}

fn lower(numbers: &mut [usize], place: usize, value: usize) {
    if let Some(number) = numbers.get_mut(place) {
        *number = (*number).min(value);
    }
}

fn enter(walk: &mut Walk, place: usize) -> Result<(), AllocError> {
    walk.turn = walk.turn.saturating_add(1);
    put(walk.turns.as_mut_slice(), place, walk.turn);
    put(walk.least.as_mut_slice(), place, walk.turn);
    walk.open.push(place)?;
    walk.path.push((place, 0))?;
    Ok(())
}

// One step: on to a new place, or back to one that is still open.
fn go(walk: &mut Walk, place: usize, next: usize) -> Result<(), AllocError> {
    let turn = at(walk.turns.as_slice(), next);
    if turn == 0 {
        return enter(walk, next);
    }
    if at(walk.components.as_slice(), next) == 0 {
        lower(walk.least.as_mut_slice(), place, turn);
    }
    Ok(())
}

// All that is open from the place on is one component.
fn close(walk: &mut Walk, place: usize) {
    walk.component = walk.component.saturating_add(1);
    for _ in 0..walk.open.len() {
        let Some(last) = walk.open.pop() else {
            return;
        };
        put(walk.components.as_mut_slice(), last, walk.component);
        if last == place {
            return;
        }
    }
}

fn leave(walk: &mut Walk, place: usize) {
    let least = at(walk.least.as_slice(), place);
    if least == at(walk.turns.as_slice(), place) {
        close(walk, place);
    }
    if let Some((above, _)) = walk.path.last() {
        lower(walk.least.as_mut_slice(), *above, least);
    }
}

fn advance(
    walk: &mut Walk,
    rows: &[Items<usize>],
    place: usize,
    done: usize,
) -> Result<(), AllocError> {
    let next = rows.get(place).and_then(|row| row.get(done)).copied();
    match next {
        Some(next) => {
            walk.path.push((place, done.saturating_add(1)))?;
            go(walk, place, next)
        }
        None => {
            leave(walk, place);
            Ok(())
        }
    }
}

fn walk_from(
    walk: &mut Walk,
    rows: &[Items<usize>],
    steps: usize,
    place: usize,
) -> Result<(), AllocError> {
    if at(walk.turns.as_slice(), place) != 0 {
        return Ok(());
    }
    enter(walk, place)?;
    for _ in 0..steps {
        let Some((place, done)) = walk.path.pop() else {
            return Ok(());
        };
        advance(walk, rows, place, done)?;
    }
    Ok(())
}

// No walk takes more steps: each place is left once, and each of its steps is gone once.
fn most_steps(rows: &[Items<usize>]) -> usize {
    let mut steps = rows.len();
    for row in rows {
        steps = steps.saturating_add(row.len());
    }
    steps
}

/// For each place a number, which two places have in common exactly where each reaches the other.
pub fn components_of(alloc: Global, rows: &[Items<usize>]) -> Result<Vec<usize>, AllocError> {
    let mut walk = Walk {
        turns: vec![in alloc; 0; rows.len()]?,
        least: vec![in alloc; 0; rows.len()]?,
        components: vec![in alloc; 0; rows.len()]?,
        turn: 0,
        component: 0,
        open: Vec::new(alloc),
        path: Vec::new(alloc),
    };
    let steps = most_steps(rows);
    for place in 0..rows.len() {
        walk_from(&mut walk, rows, steps, place)?;
    }
    Ok(walk.components)
}
