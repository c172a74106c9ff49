// The last line's maps, by universal number, from the tables.
use crate::text::Out;
use maps::Column;
use rules::limits::{PREFIX_WORDS, ROW_WORDS, UNIVERSAL_MARK};

impl Out<'_> {
    ghost use Rattle.std.specs.Prelude.{take};
    ghost use Rattle.report.specs.Written.{RoomFor, Appended};
    ghost use Rattle.report.specs.Tabled.{word_maps, Printable};

    // The maps of line `lines`. Sixteen take at most 934,384 bytes.
    // Kept: three tables, here and in put_reply, since ProofRows would ask for the line table too.
    pub fn put_maps(&mut self, prefix: &[u32], nodes: &[u32], roots: &[u32], lines: u32)
        requires { (Printable prefix.now nodes.now roots.now lines) × (RoomFor 934384 self.old) }
        ensures { Appended 934384 self.old self.new (word_maps nodes.now roots.now lines (take 64 prefix.now) 0) }
    {
        let row = (lines - 1) as usize * ROW_WORDS;
        for (j, word) in prefix[..PREFIX_WORDS]
            .iter()
            .filter(|w| UNIVERSAL_MARK < **w)
            .enumerate()
        {
            let column = Column { nodes, index: j };
            self.put_map(column, roots[row + j], *word - UNIVERSAL_MARK);
        }
    }
}
