// A record view: the file that a record was loaded from, and where its instruction bytes lie.
#![tactic(auto)]

ghost use Rattle.std.specs.Prelude.{◌≡◌};
ghost use Rattle.refusal.specs.Number.{answer_as};
ghost use Rattle.insn.specs.Answers.{fetched_of};
ghost use Rattle.view.specs.View.{part_of, shown, fetch_in};

use insn::Fetched;
use records_row::Record;
use refusal::Refusal;

// Place and size stand beside the file, as docs/DECISIONS.md ('The shape of each place') and the contract of `new` have them.
#[derive(Clone, Copy)]
pub struct RecordView<'a> {
    pub file: &'a [u8],
    pub place: usize,
    pub size: usize,
}

impl<'a> RecordView<'a> {
    // The view of a record, by its row.
    pub fn new(file: &'a [u8], rec: Record) -> RecordView<'a>
        ensures { (result.file ≡ file.entry) × (result.place ≡ rec.place) × (result.size ≡ rec.ilen) }
    {
        RecordView {
            file,
            place: rec.place as usize,
            size: rec.ilen as usize,
        }
    }

    // The instruction bytes; none where they pass the file's end.
    #[tactic(auto, unfolding(crate::specs::View::part_of))]
    pub fn bytes(self) -> &'a [u8]
        ensures { result.now ≡ shown self.entry }
    {
        let Some(rest) = self.file.get(self.place..) else {
            return &[];
        };
        rest.get(..self.size).unwrap_or(&[])
    }

    // The instruction at an offset of them.
    #[tactic(auto, unfolding(format::specs::Insn::fetch))]
    pub fn fetch(self, at: usize) -> Result<Fetched, Refusal>
        ensures { answer_as fetched_of result ≡ fetch_in (shown self.entry) at }
    {
        let code = self.bytes().get(at..).ok_or(Refusal::CodeCut)?;
        insn::fetch(code)
    }
}

// The instruction at an offset of a record, by its row: a caller of this needs no view.
pub fn fetch_at(file: &[u8], rec: Record, at: usize) -> Result<Fetched, Refusal>
    ensures { answer_as fetched_of result ≡ fetch_in (part_of file.now rec.place rec.ilen) at }
{
    RecordView::new(file, rec).fetch(at)
}
