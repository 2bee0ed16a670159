//! The order in which goals are offered: each equation and comparison as soon as what it reads has values, and in between the row with
//! the most bound columns, of these the one with the fewest rows. Whatever the order is, a plan finds the same, so no clause speaks of
//! it. It takes time near linear in the goals and their places.

use crate::goals::Goal;
use fact_table::Tables;
use std::alloc::Global;
use std::collections::BTreeSet;
use tel_base::Memory;

/// How a row stands among those that are left: how many columns aren't bound, counted down from the greatest number, how many rows its
/// table has, and its number.
type RowKey = (usize, usize, usize);

/// Goals that are to be ranked.
#[derive(Drop)]
struct Ranking {
    /// The numbers of the goals that wait for each place.
    waiting: Vec<Vec<usize>>,
    /// For how many places each goal waits.
    open: Vec<usize>,
    /// Equations and comparisons that wait for none.
    ready: Vec<usize>,
    /// The rows that are left.
    rows: BTreeSet<RowKey>,
}

/// The places that a goal waits for.
fn places_of<'g>(goal: &'g Goal<'_>) -> &'g [u32] {
    match goal {
        Goal::Row(_, places) => places.as_slice(),
        Goal::Equal(_, _, reads) => reads.as_slice(),
        Goal::Compare(_, _, _, reads) => reads.as_slice(),
    }
}

/// How a row stands that waits for so many of its places.
fn row_key(tables: &Tables, predicate: u32, places: &[u32], open: usize, number: usize) -> RowKey {
    let bound = places.len().saturating_sub(open);
    (
        usize::MAX.saturating_sub(bound),
        tables.rows(predicate).len(),
        number,
    )
}

/// Adds a row.
fn add_row(rows: &mut BTreeSet<RowKey>, key: RowKey) -> Result<(), Memory> {
    match rows.insert(key) {
        Ok(_) => Ok(()),
        Err(_) => Err(Memory),
    }
}

/// A list for each of so many places.
fn no_waiting(alloc: Global, places: usize) -> Result<Vec<Vec<usize>>, Memory> {
    let mut waiting = Vec::new(alloc);
    for _ in 0..places {
        waiting.push(Vec::new(alloc))?;
    }
    Ok(waiting)
}

/// Lets a goal wait for a place.
fn wait(waiting: &mut [Vec<usize>], place: u32, number: usize) -> Result<(), Memory> {
    if let Some(numbers) = waiting.get_mut(place as usize) {
        numbers.push(number)?;
    }
    Ok(())
}

/// Tells a goal that one of its places has a value.
fn tell(
    tables: &Tables,
    goal: &Goal<'_>,
    number: usize,
    open: &mut usize,
    ready: &mut Vec<usize>,
    rows: &mut BTreeSet<RowKey>,
) -> Result<(), Memory> {
    let before = *open;
    *open = before.saturating_sub(1);
    match goal {
        Goal::Row(predicate, places) => {
            let old = row_key(tables, *predicate, places.as_slice(), before, number);
            if rows.remove(&old) {
                let new = row_key(tables, *predicate, places.as_slice(), *open, number);
                add_row(rows, new)?;
            }
        }
        Goal::Equal(_, _, _) | Goal::Compare(_, _, _, _) => {
            if before == 1 {
                ready.push(number)?;
            }
        }
    }
    Ok(())
}

/// Tells these goals that a place has a value.
fn tell_all(
    tables: &Tables,
    goals: &[Goal<'_>],
    numbers: &[usize],
    open: &mut [usize],
    ready: &mut Vec<usize>,
    rows: &mut BTreeSet<RowKey>,
) -> Result<(), Memory> {
    for number in numbers {
        if let Some(goal) = goals.get(*number) {
            if let Some(open) = open.get_mut(*number) {
                tell(tables, goal, *number, open, ready, rows)?;
            }
        }
    }
    Ok(())
}

impl Ranking {
    /// Takes in a goal.
    fn put(&mut self, tables: &Tables, number: usize, goal: &Goal<'_>) -> Result<(), Memory> {
        let places = places_of(goal);
        self.open.push(places.len())?;
        for place in places {
            wait(self.waiting.as_mut_slice(), *place, number)?;
        }
        match goal {
            Goal::Row(predicate, _) => {
                let key = row_key(tables, *predicate, places, places.len(), number);
                add_row(&mut self.rows, key)?;
            }
            Goal::Equal(_, _, _) | Goal::Compare(_, _, _, _) => {
                if places.is_empty() {
                    self.ready.push(number)?;
                }
            }
        }
        Ok(())
    }

    /// Goals over so many places.
    fn of(
        alloc: Global,
        tables: &Tables,
        goals: &[Goal<'_>],
        places: usize,
    ) -> Result<Ranking, Memory> {
        let mut ranking = Ranking {
            waiting: no_waiting(alloc, places)?,
            open: Vec::new(alloc),
            ready: Vec::new(alloc),
            rows: BTreeSet::new(alloc),
        };
        for (number, goal) in goals.iter().enumerate() {
            ranking.put(tables, number, goal)?;
        }
        Ok(ranking)
    }

    /// The goal that comes next, where one can be taken.
    fn next(&mut self) -> Option<usize> {
        if let Some(number) = self.ready.pop() {
            return Some(number);
        }
        match self.rows.pop_first() {
            Some((_, _, number)) => Some(number),
            None => None,
        }
    }

    /// Gives a place a value.
    fn learn(
        &mut self,
        alloc: Global,
        tables: &Tables,
        goals: &[Goal<'_>],
        place: u32,
    ) -> Result<(), Memory> {
        let numbers = match self.waiting.get_mut(place as usize) {
            Some(numbers) => std::mem::replace(numbers, Vec::new(alloc)),
            None => return Ok(()),
        };
        tell_all(
            tables,
            goals,
            numbers.as_slice(),
            self.open.as_mut_slice(),
            &mut self.ready,
            &mut self.rows,
        )
    }

    /// Gives the places of a goal their values.
    fn take(
        &mut self,
        alloc: Global,
        tables: &Tables,
        goals: &[Goal<'_>],
        goal: &Goal<'_>,
    ) -> Result<(), Memory> {
        match goal {
            Goal::Row(_, places) => {
                for place in places.as_slice() {
                    self.learn(alloc, tables, goals, *place)?;
                }
                Ok(())
            }
            Goal::Equal(place, _, _) => self.learn(alloc, tables, goals, *place),
            Goal::Compare(_, _, _, _) => Ok(()),
        }
    }
}

/// The rank of each goal: when it is offered. One that can't be taken in this way comes last.
pub fn ranks(
    alloc: Global,
    tables: &Tables,
    goals: &[Goal<'_>],
    places: usize,
) -> Result<Vec<usize>, Memory> {
    let mut ranking = Ranking::of(alloc, tables, goals, places)?;
    let mut ranks = vec![in alloc; goals.len(); goals.len()]?;
    for rank in 0..goals.len() {
        let number = match ranking.next() {
            Some(number) => number,
            None => return Ok(ranks),
        };
        if let Some(place) = ranks.get_mut(number) {
            *place = rank;
        }
        if let Some(goal) = goals.get(number) {
            ranking.take(alloc, tables, goals, goal)?;
        }
    }
    Ok(ranks)
}
