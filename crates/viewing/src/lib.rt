// The one opener: from an image and a view of it to the store that every call asks.
#![tactic(auto)]

ghost use Rattle.std.specs.Prelude.{◌≡◌};
ghost use Rattle.viewing.specs.Viewing.{edition_of, opened_store};

use fletcher::Edition;
use opening::{Store, View};
use refusal::Refusal;

// The edition that a number names.
#[tactic(auto, unfolding(crate::specs::Viewing::edition_of))]
fn edition_of(n: u64) -> Result<Edition, Refusal>
    ensures { result ≡ edition_of n }
{
    match n {
        1 => Ok(Edition::First),
        2 => Ok(Edition::Second),
        _ => Err(Refusal::Argument),
    }
}

// The store of an image by a view. The edition is an argument: it is judged before the image.
#[tactic(auto, unfolding(crate::specs::Viewing::opened_store, crate::specs::Viewing::opened_in))]
pub fn open(image: &[u8], view: View) -> Result<Store, Refusal>
    ensures { result ≡ opened_store image.now view }
{
    let edition = edition_of(view.edition)?;
    let newest = opening::open(image, edition)?;
    Ok(Store { edition, newest })
}
