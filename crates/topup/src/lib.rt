// The top-up table lent beside the book: refusal 17's pass over its rows, and an item's margin and lift.
#![tactic(auto)]

ghost use Rattle.std.specs.Prelude.{◌≡◌, ◌*◌, ◌≤◌, length};
ghost use Rattle.model.specs.Tests.{all_to};
ghost use Rattle.model.specs.TopUp.{margin_of, lift_of, row_ok, topup_ok};
ghost use Rattle.model.specs.Claim.{R};
ghost use Rattle.model.proofs.Fields.{Dimensioned};
ghost use Rattle.model.proofs.RuleLaws.{Tabled};

use model::Dims;

// The first n rows keep the rules: with `over` for how much a lift is over 10, that is at most 9,989, and with the margin at most 9,990. A number is at
// most k where its bits, and their sum with 2 ^ 63 - 1 - k, are below 2 ^ 63. No turn compares or leaves, so that one is compiled to sums and ors of
// several rows at once.
fn rows_ok(topup: &[i64], n: u64) -> bool
    requires { (2 * n ≤ length topup.now) × (n ≤ 100000) }
    ensures { result ≡ all_to n (row_ok topup.now) }
{
    let mut low = 0;
    let mut high = 0;
    for i in 0..n {
        let margin = cells::bits(topup, 2 * i);
        let over = cells::bits(topup, 2 * i + 1).wrapping_sub(10);
        let both = margin.wrapping_add(over);
        low |= margin | over;
        high |= over.wrapping_add(9223372036854765818) | both.wrapping_add(9223372036854765817);
    }
    (low < 9223372036854775808) & (high < 9223372036854775808)
}

// 17: the table is as long as it has to be, and each of its rows keeps the rules.
#[tactic(auto, unfolding(model::specs::TopUp::topup_ok))]
pub fn table_ok(topup: &[i64], d: Dims) -> bool
    requires { Dimensioned d }
    ensures { result ≡ topup_ok d topup.now }
{
    topup.len() as u64 == 2 * d.items && rows_ok(topup, d.items)
}

// An item's margin, and below its lift: a line each, by the model's own word.
pub fn margin_of(topup: &[i64], d: Dims, item: u64) -> u64
    requires { Dimensioned d × (Tabled d topup.now × R d.items item) }
    ensures { result ≡ margin_of topup.now item }
{
    cells::held(topup, 2 * (item - 1))
}

// An item's lift.
pub fn lift_of(topup: &[i64], d: Dims, item: u64) -> u64
    requires { Dimensioned d × (Tabled d topup.now × R d.items item) }
    ensures { result ≡ lift_of topup.now item }
{
    cells::held(topup, 2 * (item - 1) + 1)
}
