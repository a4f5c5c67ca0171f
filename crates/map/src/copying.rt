// Copy: a lookup that also writes the value, at the start of an area that the caller lends.
ghost use Rattle.std.specs.Prelude.{◌+◌, ◌≤◌, ◌≡◌, ◌++◌, length, take, drop};
ghost use Rattle.store.specs.Asking.{value_of};
ghost use Rattle.map.specs.Map.{copy_of, area_after};

use super::lookup;
use opening::View;
use refusal::Refusal;
use text::Spot;

// Writes the bytes of the image at a spot to the start of the area. One by one: `copy_from_slice` would have
// the archive need `memmove` of whoever links it.
fn put(area: &mut [u8], image: &[u8], spot: Spot)
    requires { (spot.at + spot.len ≤ length image.now) × (spot.len ≤ length area.old) }
    ensures { area.new ≡ take spot.len (drop spot.at image.now) ++ drop spot.len area.old }
{
    for i in 0..spot.len {
        area[i] = image[spot.at + i];
    }
}

// The value of `key`, which is also written to the area's start. On a refusal and where there is none
// the area keeps its bytes.
pub fn copy(
    image: &[u8],
    view: View,
    map: u64,
    kind: u64,
    key: &[u8],
    area: &mut [u8],
) -> Result<Option<Spot>, Refusal>
    ensures answer { result ≡ value_of (copy_of image.now view map kind key.now (length area.old)) }
    ensures area { area.new ≡ area_after image.now (copy_of image.now view map kind key.now (length area.old)) area.old }
{
    let Some(spot) = lookup(image, view, map, kind, key)? else {
        return Ok(None);
    };
    if area.len() < spot.len {
        return Err(Refusal::AreaTooSmall);
    }
    put(area, image, spot);
    Ok(Some(spot))
}
