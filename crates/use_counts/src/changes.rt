//! A get more and a get less in the rows, and rows put back.
ghost use Rattle.std.specs.List.{All};
ghost use Rattle.std.specs.Prelude.{◌≡◌, ◌<◌, ◌≤◌, ◌+◌, ◌^◌, insert, length, vec_capacity, vec_len, IfOk, OnErr, OnOk};
ghost use Rattle.use_counts.specs.Refusals.{AreUses, IsCounted, IsUngetRefused};
ghost use Rattle.use_counts.specs.Undoing.{with_row, with_rows};
ghost use Rattle.use_counts.specs.Uses.{after_get, after_unget, use_count};

use crate::counting::{held_by, no_use, one_less, one_more, total};
use crate::rows::place_of;
use crate::{Holder, NotUsing, UseRow};
use prop_map::OutOfMemory;

/// Counts one get more, and answers how many these are with it.
pub(crate) fn add_get(
    rows: &mut Vec<UseRow>,
    bundle: u64,
    service: u64,
    holder: Holder,
) -> Result<u32, OutOfMemory>
    requires uses { AreUses rows.old.items }
    requires small { use_count bundle service rows.old.items + 1 < 2 ^ 32 }
    ensures count { IfOk result (λ count. count ≡ use_count bundle service rows.old.items + 1) }
    ensures ok { OnOk result (rows.new.items ≡ after_get bundle service holder rows.old.items) }
    ensures err { OnErr result (rows.new.items ≡ rows.old.items) }
    ensures uses { AreUses rows.new.items }
{
    match place_of(rows.as_slice(), bundle, service) {
        Ok(place) => {
            let row = one_more(holder, &rows[place]);
            rows[place] = row;
            Ok(total(&row))
        }
        Err(gap) => {
            let row = one_more(holder, &no_use(bundle, service));
            rows.insert(gap, row)?;
            Ok(1)
        }
    }
}

/// Takes one get of a holder back, and answers how many gets of the bundle and the service are left.
pub(crate) fn take_get(
    rows: &mut Vec<UseRow>,
    bundle: u64,
    service: u64,
    holder: Holder,
) -> Result<u32, NotUsing>
    requires { AreUses rows.old.items }
    ensures count { IfOk result (λ count. count + 1 ≡ use_count bundle service rows.old.items) }
    ensures ok { OnOk result (rows.new.items ≡ after_unget bundle service holder rows.old.items) }
    ensures refused { IsUngetRefused bundle service holder rows.old.items result }
    ensures err { OnErr result (rows.new.items ≡ rows.old.items) }
    ensures fewer { length rows.new.items ≤ length rows.old.items }
    ensures uses { AreUses rows.new.items }
{
    match place_of(rows.as_slice(), bundle, service) {
        Ok(place) => {
            if held_by(holder, &rows[place]) == 0 {
                return Err(NotUsing);
            }
            let row = one_less(holder, &rows[place]);
            let left = total(&row);
            if left == 0 {
                let _row = rows.remove(place);
                return Ok(0);
            }
            rows[place] = row;
            Ok(left)
        }
        Err(_) => Err(NotUsing),
    }
}

// Puts a row in the place of the one of its bundle and service, or where it belongs, for which there is room.
fn put(rows: &mut Vec<UseRow>, row: UseRow)
    requires uses { AreUses rows.old.items }
    requires counted { IsCounted row }
    requires room { vec_len rows.old < vec_capacity rows.old }
    ensures now { rows.new.items ≡ with_row row rows.old.items }
    ensures uses { AreUses rows.new.items }
    ensures room { vec_capacity rows.old ≤ vec_capacity rows.new }
    ensures more { vec_len rows.new ≤ vec_len rows.old + 1 }
{
    match place_of(rows.as_slice(), row.bundle, row.service) {
        Ok(place) => rows[place] = row,
        Err(gap) => insert(rows, gap, row),
    }
}

// Puts a row at a place, for which there is room.
fn insert(rows: &mut Vec<UseRow>, place: usize, row: UseRow)
    requires within { place ≤ vec_len rows.old }
    requires room { vec_len rows.old < vec_capacity rows.old }
    ensures now { rows.new.items ≡ insert rows.old.items place row }
    ensures room { vec_capacity rows.old ≤ vec_capacity rows.new }
    ensures more { vec_len rows.new ≤ vec_len rows.old + 1 }
{
    let _inserted = rows.insert(place, row);
}

/// Puts rows back, each in the place of the one of its bundle and service, or where it belongs.
pub(crate) fn put_each(rows: &mut Vec<UseRow>, others: &[UseRow])
    requires uses { AreUses rows.old.items }
    requires counted { All IsCounted others.now }
    requires room { vec_len rows.old + length others.now ≤ vec_capacity rows.old }
    ensures now { rows.new.items ≡ with_rows others.now rows.old.items }
    ensures uses { AreUses rows.new.items }
{
    for row in others {
        put(rows, *row);
    }
}
