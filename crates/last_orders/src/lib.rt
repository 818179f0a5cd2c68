// The last orders lent beside the book: refusal 13's pass over a district's numbers, a customer's number read, and noted.
#![tactic(auto)]

ghost use Rattle.std.specs.Prelude.{◌≡◌, ◌+◌, ◌-◌, ◌*◌, ◌^◌, ◌<◌, ◌≤◌, true, ◌&&◌, length, nat_le};
ghost use Rattle.model.specs.Tests.{all_to};
ghost use Rattle.model.specs.Numbers.{nat, cell};
ghost use Rattle.model.specs.Layout.{per_customer};
ghost use Rattle.model.specs.Store.{run};
ghost use Rattle.model.specs.Used.{district_used};
ghost use Rattle.model.specs.LastOrder.{last_at, last_long, last_ok, last_ops};
ghost use Rattle.model.specs.Claim.{R};
ghost use Rattle.model.proofs.Fields.{Dimensioned};
ghost use Rattle.rows.specs.Book.{Booked};

use model::Dims;
use rows::Book;

// Each of the n numbers from index p on is one of 0, .., next - 1: its bits are below 2 ^ 63, and so is their sum with 2 ^ 63 - next.
// No turn compares or leaves, and the two halves go side by side, so that a turn is compiled to sums and ors of several numbers at once.
// Where n is odd, both halves have the middle number.
fn all_before(last: &[i64], p: u64, n: u64, next: u64) -> bool
    requires { (p + n ≤ length last.now) × ((1 ≤ next) × (next < 2 ^ 63)) }
    ensures { result ≡ all_to n (λ c. nat_le (cell last.now (p + (c - 1))) (next - 1)) }
{
    let room = 9223372036854775808 - next;
    let half = n / 2;
    let turns = n - half;
    let second = p + half;
    let mut low = 0;
    let mut high = 0;
    for i in 0..turns {
        let x = cells::bits(last, p + i);
        let y = cells::bits(last, second + i);
        low |= x | y;
        high |= x.wrapping_add(room) | y.wrapping_add(room);
    }
    (low < 9223372036854775808) & (high < 9223372036854775808)
}

// The first test of refusal 13: the slice is as long as it has to be.
#[tactic(auto, unfolding(model::specs::LastOrder::last_long, layout::specs::Layout::all_customers))]
pub fn long_ok(last: &[i64], d: Dims) -> bool
    requires { Dimensioned d }
    ensures { result ≡ last_long d last.now }
{
    last.len() as u64 == layout::all_customers(d)
}

// The second: the numbers of the call's district are below its next order number. The district's row has been found in range.
pub fn numbers_ok(last: &[i64], book: &Book, w: u64, k: u64) -> bool
    requires { R book.now.dims.warehouses w × (R 10 k × ((district_used book.now.dims book.now.nums.now w k ≡ true) × (last_long book.now.dims last.now ≡ true))) }
    ensures { result ≡ last_ok book.now.dims book.now.nums.now last.now w k }
{
    let p = layout::of_customer(book.dims, w, k, 1);
    let next = rows::next_order(book, w, k);
    all_before(last, p, book.dims.customers, next)
}

// Both tests, as New-Order makes them.
pub fn fits(last: &[i64], book: &Book, w: u64, k: u64) -> bool
    requires { R book.now.dims.warehouses w × (R 10 k × (district_used book.now.dims book.now.nums.now w k ≡ true)) }
    ensures { result ≡ (last_long book.now.dims last.now && last_ok book.now.dims book.now.nums.now last.now w k) }
{
    long_ok(last, book.dims) && numbers_ok(last, book, w, k)
}

// A customer's last order, 0 for none; a negative number is above every order.
pub fn last_of(last: &[i64], d: Dims, w: u64, k: u64, c: u64) -> u64
    requires { Dimensioned d × (R d.warehouses w × (R 10 k × (R d.customers c × (last_long d last.now ≡ true)))) }
    ensures { result ≡ nat (last_at d last.now w k c) }
{
    let p = layout::of_customer(d, w, k, c);
    cells::get(last, p)
}

// An order becomes its customer's last.
pub fn note(last: &mut [i64], d: Dims, w: u64, k: u64, c: u64, order: u64)
    requires { Dimensioned d × (R d.warehouses w × (R 10 k × (R d.customers c × ((length last.old ≡ 10 * d.warehouses * d.customers) × (order < 2 ^ 63))))) }
    ensures { last.new ≡ run (per_customer d) (last_ops w k c order) last.old }
{
    let at = layout::of_customer(d, w, k, c);
    cells::put(last, at, order);
}
