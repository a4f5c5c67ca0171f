// The questions about an image.
use crate::answer::Answer;
use crate::command::Command;
use key::Kind;
use opening::{Store, View};
use position::Position;
use refusal::Refusal;

// `map HEX`.
fn map(command: Command<'_>, image: &[u8], store: Store) -> Result<Answer, Refusal> {
    // On the stack, so that a question fails by a refusal alone and never for want of memory.
    let mut name = [0; 1024];
    let id = store::map_id(image, store, command.bytes(1, &mut name))?;
    Ok(Answer::Id(id))
}

// `root ID`.
fn root(command: Command<'_>, image: &[u8], store: Store) -> Result<Answer, Refusal> {
    let position = store::map_root(image, store, command.number32(1))?;
    Ok(Answer::Root(position))
}

// `chunk N`.
fn chunk(command: Command<'_>, image: &[u8], store: Store) -> Result<Answer, Refusal> {
    let place = store::chunk_place(image, store, command.number32(1))?;
    Ok(Answer::Chunk(place))
}

// `page POSITION ID KIND`; position 0 is out of place.
fn page(command: Command<'_>, image: &[u8], store: Store) -> Result<Answer, Refusal> {
    let position = Position {
        bits: command.number(1),
    };
    if position.is_empty() {
        return Err(Refusal::Place);
    }
    let kind = match command.number(3) {
        0 => Kind::Number,
        _ => Kind::Text,
    };
    let place = store::chunk_place(image, store, position.chunk())?;
    let page = page::judge(image, place, position, command.number32(2), kind)?;
    Ok(Answer::Page(page))
}

// What a question is answered in an image that is opened for it.
pub fn answer(command: Command<'_>, image: &[u8], edition: u64) -> Result<Answer, Refusal> {
    let store = viewing::open(image, View { edition })?;
    match command.name() {
        "open" => Ok(Answer::Newest(store.newest)),
        "map" => map(command, image, store),
        "root" => root(command, image, store),
        "chunk" => chunk(command, image, store),
        "page" => page(command, image, store),
        _ => Ok(Answer::Unknown),
    }
}
