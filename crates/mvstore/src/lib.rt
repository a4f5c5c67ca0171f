// The C interface, thin: each export answers one small struct by value. The refusal's number comes
// first, 0 where there is an answer; everything else is 0 where document 01 says so. include/mvstore.h
// declares it.
#![tactic(auto)]

mod answer;

ghost use Rattle.std.specs.Prelude.{◌≡◌, length};
ghost use Rattle.viewing.specs.Viewing.{opened_store};
ghost use Rattle.store.specs.Asking.{value_of};
ghost use Rattle.walk.specs.Stepping.{step_of};
ghost use Rattle.examine.specs.Examine.{examine_of};
ghost use Rattle.map.specs.Map.{lookup_of, index_of, count_of, copy_of, named_of, item_of, area_after};
ghost use Rattle.mvstore.specs.Exports.{newest_out, value_out, entry_out, count_out, id_out, step_out, report_out};

pub use answer::{Count, Entry, Id, Newest, Report, Step, Value};
use answer::{count_out, entry_out, id_out, newest_out, report_out, step_out, value_out};
use cursor::Walk;
use opening::View;

#[unsafe(no_mangle)]
pub extern "C" fn mvstore_newest(image: &[u8], view: View) -> Newest
    ensures { result ≡ newest_out (opened_store image.now view) }
{
    newest_out(viewing::open(image, view))
}

#[unsafe(no_mangle)]
pub extern "C" fn mvstore_lookup(image: &[u8], view: View, map: u64, kind: u64, key: &[u8]) -> Value
    ensures { result ≡ value_out (value_of (lookup_of image.now view map kind key.now)) }
{
    value_out(map::lookup(image, view, map, kind, key))
}

#[unsafe(no_mangle)]
pub extern "C" fn mvstore_index(image: &[u8], view: View, map: u64, kind: u64, index: u64) -> Entry
    ensures { result ≡ entry_out (item_of (index_of image.now view map kind index)) }
{
    entry_out(map::index(image, view, map, kind, index))
}

#[unsafe(no_mangle)]
pub extern "C" fn mvstore_count(image: &[u8], view: View, map: u64, kind: u64) -> Count
    ensures { result ≡ count_out (count_of image.now view map kind) }
{
    count_out(map::count(image, view, map, kind))
}

#[unsafe(no_mangle)]
pub extern "C" fn mvstore_copy(
    image: &[u8],
    view: View,
    map: u64,
    kind: u64,
    key: &[u8],
    area: &mut [u8],
) -> Value
    ensures answer { result ≡ value_out (value_of (copy_of image.now view map kind key.now (length area.old))) }
    ensures area { area.new ≡ area_after image.now (copy_of image.now view map kind key.now (length area.old)) area.old }
{
    value_out(map::copy(image, view, map, kind, key, area))
}

#[unsafe(no_mangle)]
pub extern "C" fn mvstore_map(image: &[u8], view: View, name: &[u8]) -> Id
    ensures { result ≡ id_out (named_of image.now view name.now) }
{
    id_out(map::named(image, view, name))
}

#[unsafe(no_mangle)]
pub extern "C" fn mvstore_next(image: &[u8], view: View, map: u64, kind: u64, walk: Walk) -> Step
    ensures { result ≡ step_out (step_of image.now view map kind walk) }
{
    step_out(walk::advance(image, view, map, kind, walk))
}

#[unsafe(no_mangle)]
pub extern "C" fn mvstore_examine(image: &[u8], view: View, map: u64, kind: u64) -> Report
    ensures { result ≡ report_out (examine_of image.now view map kind) }
{
    report_out(examine::examine(image, view, map, kind))
}
