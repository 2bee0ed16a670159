//! The rows that a step tries.
ghost use Rattle.std.specs.Prelude.{◌≡◌, ◌<◌, ◌≤◌, length, slice_get, Some, None, MatchOption};
ghost use Rattle.std.specs.List.{All};
ghost use Rattle.std.specs.Option.{option_copied};
ghost use Rattle.fact_table.specs.Rows.{rows_of};
ghost use Rattle.join_plans.specs.Join.{place};
ghost use Rattle.plan_search.specs.Putting.{any_gives};
ghost use Rattle.plan_search.specs.Trying.{tries, IsIndex, AreEnough};

use fact_table::{Row, Tables};
use join_plans::Column;
use tel_term::Value;

/// Whether one of these columns gives a place its value.
fn any_gives(columns: &[Column], place: u32) -> bool
    ensures { result ≡ any_gives columns.now place }
{
    for column in columns {
        if let Column::New(other) = *column {
            if other == place {
                return true;
            }
        }
    }
    false
}

/// A column by which rows may be looked up, with its place.
fn index(columns: &[Column]) -> Option<(u32, u32)>
    ensures { MatchOption result Unit (λ found. IsIndex columns.now found.0 found.1) }
{
    for at in 0..columns.len() {
        if let Column::Old(place) = columns[at] {
            if !any_gives(&columns[..at], place) {
                return match u32::try_from(at) {
                    Ok(at) => Some((at, place)),
                    Err(_) => None,
                };
            }
        }
    }
    None
}

/// The places of the rows that a step may fit, if an index gives them; else all are to be tried.
pub fn listed<'t>(
    tables: &'t Tables,
    predicate: u32,
    columns: &[Column],
    env: &[Value],
) -> Option<&'t [u32]>
    requires { All (λ c. place c < length env.now) columns.now }
    ensures enough { AreEnough columns.now (rows_of tables.now predicate) env.now (option_copied result) }
    ensures few { length (tries (rows_of tables.now predicate) (option_copied result)) ≤ length (rows_of tables.now predicate) }
{
    match index(columns) {
        Some((column, place)) => Some(tables.rows_with(predicate, column, env[place as usize])),
        None => None,
    }
}

/// How many rows are tried.
pub fn count(rows: &[Row], listed: Option<&[u32]>) -> usize
    ensures { result ≡ length (tries rows.now (option_copied listed.entry)) }
{
    match listed {
        Some(places) => places.len(),
        None => rows.len(),
    }
}

/// The row that is tried at a turn.
pub fn row_at<'t>(rows: &'t [Row], listed: Option<&[u32]>, turn: usize) -> Option<&'t Row>
    requires { turn < length (tries rows.now (option_copied listed)) }
    ensures { slice_get (tries rows.now (option_copied listed.entry)) turn ≡ Some (option_copied result) }
{
    match listed {
        Some(places) => rows.get(places[turn] as usize),
        None => rows.get(turn),
    }
}
