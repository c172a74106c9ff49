// Select: which of two roots of a column a resolution keeps for a universal outside its merge set.
ghost use Rattle.std.specs.Prelude.{◌≡◌};
ghost use Rattle.rules.specs.statements.Sound.{Sound};
ghost use Rattle.maps.specs.Columns.{column_of, Numbered};
ghost use Rattle.checker.specs.Selects.{answered, strict_select};

use maps::Column;

// b if a's map is one star leaf; else a if b's is, or the maps are isomorphic; else select is not
// defined. One map is isomorphic to itself, and is not walked.
#[tactic(auto, using(theory::specs::laws::Comparing::isomorphic_self), unfolding(rules::specs::definitions::Lines::select))]
pub fn select_root(column: Column<'_>, a: u32, b: u32) -> Option<u32>
    requires { Numbered a × Numbered b × Sound (column_of column) a }
    ensures { answered result ≡ strict_select (column_of column.entry) a b }
{
    if column.is_star(a) {
        return Some(b);
    }
    if column.is_star(b) || a == b || column.isomorphic(a, b) {
        return Some(a);
    }
    None
}
