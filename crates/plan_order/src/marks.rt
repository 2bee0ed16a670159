//! Which places have a value.
ghost use Rattle.std.specs.Prelude.{◌≡◌, ◌<◌, ℕ, length};
ghost use Rattle.std.specs.List.{list_all};
ghost use Rattle.std.specs.Prelude.{IfOk};
ghost use Rattle.tel_base.specs.Members.{In};
ghost use Rattle.join_plans.specs.Join.{place, is_known, IsRight, learn};
ghost use Rattle.plan_order.specs.Taking.{AreColumns};

use join_plans::Column;
use sqlite_items::Items;
use std::alloc::Global;
use tel_base::Memory;

/// Whether a place has a value, by these marks.
pub fn is_known(known: &[bool], at: u32) -> bool
    ensures { result ≡ is_known known.now at }
{
    match known.get(at as usize) {
        Some(mark) => *mark,
        None => false,
    }
}

/// Whether each of these places has a value.
pub fn all_known(known: &[bool], places: &[u32]) -> bool
    ensures { result ≡ list_all (is_known known.now) places.now }
{
    for at in places {
        if !is_known(known, *at) {
            return false;
        }
    }
    true
}

/// The column that goes to a place. Behind it the place has a value.
pub fn column(known: &mut Items<bool>, at: u32) -> Column
    requires { at < length known.old }
    ensures place { place result ≡ at }
    ensures right { IsRight known.old result }
    ensures learn { known.new ≡ learn known.old result }
{
    if is_known(known.as_slice(), at) {
        Column::Old(at)
    } else {
        known.set(at as usize, true);
        Column::New(at)
    }
}

/// The columns that go to these places. Behind them the places have values.
pub fn columns(
    alloc: Global,
    known: &mut Items<bool>,
    places: &[u32],
) -> Result<Items<Column>, Memory>
    requires { (v : ℕ) → In v places.now → v < length known.old }
    ensures { IfOk result (λ columns. AreColumns places.now known.old known.new columns) }
{
    let mut columns = Items::new(alloc);
    for at in places {
        columns.push(column(known, *at))?;
    }
    Ok(columns)
}
