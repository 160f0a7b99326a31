// Writing, through a buffer of fixed size.
use arrayvec::ArrayVec;
use std::io;
use std::io::{Stdout, Write};

const OUT_BYTES: usize = 65536;

// Standard output, and the bytes that wait. No `BufWriter`: its buffer comes from the heap, so more of C's functions would be assumed.
#[derive(Drop)]
pub(crate) struct Out {
    to: Stdout,
    waiting: ArrayVec<u8, OUT_BYTES>,
}

impl Out {
    pub(crate) fn new(to: Stdout) -> Out {
        Out {
            to,
            waiting: ArrayVec::new(),
        }
    }
}

impl Write for Out {
    fn write(&mut self, bytes: &[u8]) -> io::Result<usize> {
        if self.waiting.is_full() {
            self.flush()?;
        }
        self.waiting.write(bytes)
    }

    fn flush(&mut self) -> io::Result<()> {
        self.to.write_all(self.waiting.as_slice())?;
        self.waiting.clear();
        Ok(())
    }
}
