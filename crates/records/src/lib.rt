// Lines as records, read where they lie.
#![tactic(auto)]

ghost use Rattle.std.specs.Prelude.{◌≡◌, get_or};
ghost use Rattle.model.specs.Request.{no_line};

use model::Line;

// Line i of the lent lines, zeros past their end: the one function that reads them.
pub fn line_in(lines: &[Line], i: usize) -> Line
    ensures { result ≡ get_or lines.now i no_line }
{
    let zero = Line {
        item: 0,
        supply: 0,
        quantity: 0,
    };
    lines.get(i).copied().unwrap_or(zero)
}
