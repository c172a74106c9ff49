// The line, node and root tables of a proof: cleared, written row by row, and read.
ghost use Rattle.std.specs.Prelude.{◌≡◌, ◌≤◌, ◌<◌, length};
ghost use Rattle.rules.specs.definitions.Layout.{line_words, map_words};
ghost use Rattle.rules.specs.definitions.Limits.{lines_most};

use crate::axioms::Made;
use crate::rows;
use rules::limits::{LINE_WORDS, MAP_WORDS, ROW_WORDS};
use sets::Clause;

// The three lent tables of a proof, each of its least length or longer.
#[derive(Drop)]
pub struct ProofTables<'a> {
    pub lines: &'a mut [u64],
    pub nodes: &'a mut [u32],
    pub roots: &'a mut [u32],
    pub ghost long_lines: { line_words ≤ length lines.now },
    pub ghost long_nodes: { map_words ≤ length nodes.now },
    pub ghost long_roots: { map_words ≤ length roots.now },
}

// The same three tables, lent to be read.
// Kept beside ProofTables: what is read may be lent shared, and what is written may not.
#[derive(Clone, Copy)]
pub struct ProofRows<'a> {
    pub lines: &'a [u64],
    pub nodes: &'a [u32],
    pub roots: &'a [u32],
    pub ghost long_lines: { line_words ≤ length lines.now },
    pub ghost long_nodes: { map_words ≤ length nodes.now },
    pub ghost long_roots: { map_words ≤ length roots.now },
}

impl ProofTables<'_> {
    ghost use Rattle.checker.specs.Tables.{rows_of, words_of, SameProofTables, cleared, with_line};
    ghost use Rattle.sets.specs.Values.{clause_of};
    ghost use Rattle.checker.specs.Rows.{clause_part};

    // The words that 01 names set to zero; those past them as they came.
    // Kept: `same`, here and below: without it a caller that made the struct learns nothing of its slices.
    #[tactic(auto, unfolding(rules::specs::definitions::Layout::line_words, rules::specs::definitions::Layout::map_words))]
    pub fn clear(&mut self)
        ensures words { words_of self.new ≡ cleared (words_of self.old) }
        ensures same { SameProofTables self.old self.new }
    {
        self.lines[..LINE_WORDS].fill(0);
        self.nodes[..MAP_WORDS].fill(0);
        self.roots[..MAP_WORDS].fill(0);
    }

    // Row i of each table, counted from 0, becomes the line's, and nothing else changes.
    #[tactic(auto, unfolding(rules::specs::definitions::Layout::set_words, rules::specs::definitions::Layout::line_words, rules::specs::definitions::Layout::map_words))]
    pub(crate) fn put_line(&mut self, i: usize, m: &Made)
        requires { i < lines_most }
        ensures words { words_of self.new ≡ with_line i m.now (words_of self.old) }
        ensures same { SameProofTables self.old self.new }
    {
        let s = i * Clause::words();
        let t = s + Clause::words();
        m.clause.write(&mut self.lines[s..t]);
        let a = i * ROW_WORDS;
        let e = a + ROW_WORDS;
        rows::write_row(&mut self.nodes[a..e], &mut self.roots[a..e], m.row);
    }

    // The clause of line i, counted from 1.
    #[tactic(auto, unfolding(rules::specs::definitions::Layout::set_words, rules::specs::definitions::Layout::line_words))]
    pub(crate) fn clause(&self, i: u32) -> Clause
        requires { (1 ≤ i) × (i ≤ lines_most) }
        ensures { clause_of result ≡ clause_part self.now.lines.now i }
    {
        rows::clause_at(&self.lines[..], i)
    }

    // The tables, to be read.
    pub(crate) fn rows(&self) -> ProofRows<'_>
        ensures { rows_of result ≡ words_of self.now }
    {
        ProofRows {
            lines: &self.lines[..],
            nodes: &self.nodes[..],
            roots: &self.roots[..],
        }
    }
}
