// Pattern that a load filled, as far as a pattern is read off them.

ghost use Rattle.exam.specs.View.{Fits};

// What a pattern is read off after a load: the file, the rows of its records, handlers and lines, and how many records there are.
#[derive(Clone, Copy)]
pub struct Pattern<'a> {
    pub file: &'a [u8],
    pub records: &'a [u32],
    pub handlers: &'a [u32],
    pub lines: &'a [u32],
    pub n: usize,
    ghost fits: { Fits file.now records.now handlers.now lines.now n },
}
