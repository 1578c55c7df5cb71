// The nine lent tables.
#![tactic(auto)]

ghost use Rattle.tables.specs.Tables.{words_of, Same, Zeros};

use rows::clear;

// The tables that a caller lends, each a slice of words.
#[derive(Drop)]
pub struct Tables<'a> {
    pub records: &'a mut [u32],
    pub handlers: &'a mut [u32],
    pub pool: &'a mut [u32],
    pub symbols: &'a mut [u32],
    pub strings: &'a mut [u32],
    pub names: &'a mut [u32],
    pub filenames: &'a mut [u32],
    pub files: &'a mut [u32],
    pub lines: &'a mut [u32],
}

impl<'a> Tables<'a> {
    // Every word of the nine tables becomes 0.
    pub fn clear(&mut self)
        ensures same { Same self.old self.new }
        ensures zeros { Zeros (words_of self.old) (words_of self.new) }
    {
        clear(self.records);
        clear(self.handlers);
        clear(self.pool);
        clear(self.symbols);
        clear(self.strings);
        clear(self.names);
        clear(self.filenames);
        clear(self.files);
        clear(self.lines);
    }
}
