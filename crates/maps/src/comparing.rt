// Comparing two maps of one column: one pass by falling number over a pairing of their nodes.
ghost use Rattle.std.specs.Prelude.{◌≡◌, true, ℕ, ◌≤◌, get_or};
ghost use Rattle.rules.specs.definitions.Limits.{lines_most};
ghost use Rattle.rules.specs.statements.Sound.{InRange};

use crate::column::Column;
use rules::Node;
use rules::limits::LINE_PLACES;

// Each node's partner in the other map, 0 for none: place k - 1 is node k's.
// Kept: 0, since an Option would double these four KiB of stack.
#[derive(Drop)]
struct Pairing {
    to: [u16; LINE_PLACES],
    from: [u16; LINE_PLACES],
    ghost small: { (k : ℕ) → get_or to k 0 ≤ lines_most },
}

impl Pairing {
    ghost use Rattle.rules.specs.definitions.Comparing.{pair, compare, visit, pass, whole};
    ghost use Rattle.maps.specs.Columns.{column_of, Numbered};
    ghost use Rattle.maps.specs.Comparing.{held};

    // Makes nodes a and c partners if neither has one: true where they are partners now.
    #[tactic(auto, unfolding(rules::specs::definitions::Comparing::pair, crate::specs::Comparing::partner))]
    fn pair_up(&mut self, a: u32, c: u32) -> bool
        requires { Numbered a × Numbered c }
        ensures { held result self.new ≡ pair (held true self.old) a c }
    {
        let i = (a - 1) as usize;
        let k = (c - 1) as usize;
        let x = self.to[i] as u32;
        let y = self.from[k] as u32;
        if x == 0 && y == 0 {
            self.to[i] = c as u16;
            self.from[k] = a as u16;
            return true;
        }
        x == c && y == a
    }

    // Two partners: leaves agree; branches have the same variable, and their ends become partners.
    #[tactic(auto, using(theory::specs::laws::Comparing::pair_clash), unfolding(rules::specs::definitions::Comparing::compare))]
    fn compare(&mut self, m: Node, n: Node) -> bool
        requires { InRange m × InRange n }
        ensures { held result self.new ≡ compare (held true self.old) m n }
    {
        match (m, n) {
            (Node::Leaf(v), Node::Leaf(w)) => v == w,
            (Node::Branch { x, a, b }, Node::Branch { x: y, a: c, b: d }) if x == y => {
                self.pair_up(a, c) && self.pair_up(b, d)
            }
            _ => false,
        }
    }

    // Node i, if it has a partner: the two are compared.
    #[tactic(auto, unfolding(rules::specs::definitions::Comparing::visit, crate::specs::Comparing::partner))]
    fn visit(&mut self, column: Column<'_>, i: u32) -> bool
        requires { Numbered i }
        ensures { held result self.new ≡ visit (column_of column.entry) (column_of column.entry) i (held true self.old) }
    {
        let j = self.to[(i - 1) as usize] as u32;
        j == 0 || self.compare(column.node(i), column.node(j))
    }

    // The nodes from `top` down to 1, each visited: true where no pair clashed.
    #[tactic(auto, using(crate::proofs::Pairs::pass_down, theory::specs::laws::Comparing::pass_clash), unfolding(rules::specs::definitions::Comparing::pass))]
    fn pass(&mut self, column: Column<'_>, top: u32) -> bool
        requires { Numbered top }
        ensures { result ≡ whole (pass (column_of column.entry) (column_of column.entry) top (held true self.old)) }
    {
        for i in (1..=top).rev() {
            if !self.visit(column, i) {
                return false;
            }
        }
        true
    }
}

impl Column<'_> {
    ghost use Rattle.rules.specs.definitions.Comparing.{isomorphic};
    ghost use Rattle.maps.specs.Columns.{column_of, Numbered};

    // Whether the maps at r and t of the column are isomorphic.
    pub fn isomorphic(self, r: u32, t: u32) -> bool
        requires { Numbered r × Numbered t }
        ensures { result ≡ isomorphic (column_of self.entry) r (column_of self.entry) t }
    {
        let mut pairing = Pairing {
            to: [0; LINE_PLACES],
            from: [0; LINE_PLACES],
        };
        pairing.pair_up(r, t) && pairing.pass(self, r)
    }
}
