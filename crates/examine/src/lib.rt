// The examination of a map by its id and kind. specs/Demand3.antt says what it is worth: a map that it
// passes answers every lookup, every index and the count as its entry list says.
#![tactic(auto)]

ghost use Rattle.std.specs.Prelude.{◌≡◌};
ghost use Rattle.examine.specs.Examine.{examine_of};

use opening::View;
use refusal::Refusal;
use tree::Report;

// The examination: entries, pages and the deepest page's depth, or the first fault.
pub fn examine(image: &[u8], view: View, map: u64, kind: u64) -> Result<Report, Refusal>
    ensures { result ≡ examine_of image.now view map kind }
{
    let (id, k) = map::asked(map, kind)?;
    let s = viewing::open(image, view)?;
    store::examine(image, s, id, k)
}
