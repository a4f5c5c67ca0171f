// Images as the input makes them.
use crate::command::Command;
use std::alloc::{AllocError, Global};

// The most blocks of an image.
const MOST_BLOCKS: u64 = 140;

// The image, and the base, of which images begin as a copy; and the edition in which the image is
// opened, 1 where none is named.
#[derive(Drop)]
pub struct Images {
    pub image: Vec<u8>,
    pub edition: u64,
    base: Vec<u8>,
}

impl Images {
    pub fn new(alloc: Global) -> Self {
        Images {
            image: Vec::new(alloc),
            edition: 1,
            base: Vec::new(alloc),
        }
    }

    // An image begins: so many blocks of zeros; none if they are too many.
    pub fn begin(&mut self, blocks: u64) -> Result<(), AllocError> {
        let blocks = if blocks <= MOST_BLOCKS {
            blocks as usize
        } else {
            0
        };
        self.image.clear();
        self.image.resize(blocks * 4096, 0)?;
        self.edition = 1;
        Ok(())
    }

    // The image as it stands is the base from now on.
    pub fn keep(&mut self) -> Result<(), AllocError> {
        self.base.clear();
        self.base.extend_from_slice(&self.image)
    }

    // An image begins as a copy of the base.
    pub fn like(&mut self) -> Result<(), AllocError> {
        self.edition = 1;
        self.image.clear();
        self.image.extend_from_slice(&self.base)
    }

    // `put PLACE HEX`: bytes placed in the image, as many as fit.
    pub fn put(&mut self, command: Command<'_>) {
        let place = command.number(1) as usize;
        if place <= self.image.len() {
            command.bytes(2, &mut self.image[place..]);
        }
    }

    // So many bytes of the image are the image.
    pub fn cut(&mut self, size: usize) {
        self.image.truncate(size);
    }
}
