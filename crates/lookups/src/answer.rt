// What a question is answered, if it is not refused.
use chunk::Chunk;
use page::{Judged, Place};
use position::Position;
use std::fmt;

#[derive(Clone, Copy)]
pub enum Answer {
    Newest(Chunk),
    Id(u32),
    Root(Position),
    Chunk(Place),
    Page(Judged),
    Unknown,
}

impl fmt::Display for Answer {
    fn fmt<W: fmt::Write>(&self, f: &mut fmt::Formatter<W>) -> fmt::Result {
        match self {
            Answer::Newest(c) => write!(
                f,
                "chunk {} block {} version {}",
                c.id, c.block, c.version
            ),
            Answer::Id(id) => write!(f, "id {id}"),
            Answer::Root(position) => write!(f, "root {}", position.bits),
            Answer::Chunk(place) => write!(f, "block {}", place.block),
            Answer::Page(Judged::Leaf(leaf)) => write!(f, "leaf {}", leaf.n),
            Answer::Page(Judged::Inner(inner)) => write!(f, "inner {}", inner.n),
            Answer::Unknown => f.write_str("?"),
        }
    }
}
