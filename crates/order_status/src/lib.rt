#![tactic(auto)]

ghost use Rattle.std.specs.Prelude.{◌≡◌, ◌≢◌, true, [], ◌∷◌, ◌+◌, ◌*◌, ◌≤◌, pos, length, IfOk};
ghost use Rattle.model.specs.Tests.{fault};
ghost use Rattle.model.specs.Layout.{shapes, name_bytes};
ghost use Rattle.model.specs.Store.{get, num};
ghost use Rattle.model.specs.Rows.{balance, line_count};
ghost use Rattle.model.specs.Names.{who_of};
ghost use Rattle.model.specs.Numbers.{nat};
ghost use Rattle.model.specs.Used.{district_used};
ghost use Rattle.model.specs.LastOrder.{last_at, found_ok};
ghost use Rattle.model.specs.Answer.{told};
ghost use Rattle.model.specs.OrderStatus.{status_asked, status_used, status_customer, status_order, order_shown, part_of, lines_part};
ghost use Rattle.model.specs.Claim.{R};
ghost use Rattle.model.proofs.StatusFacts.{StatusAsked};
ghost use Rattle.model.specs.Promises.{StatusCall};
ghost use Rattle.order_status.specs.Seen.{last_tests, shown_of, ShownCall};

use model::{Dims, OrderStatus, Part, Refused, Selection, StatusFigures};
use rows::Book;

// A customer and its last order; order 0 where it has none, as the lent last orders and the figures have it.
#[derive(Clone, Copy)]
pub struct Seen {
    pub customer: u64,
    pub order: u64,
}

// What a status answers: the outcome, and the part of the book that holds the shown lines.
#[derive(Clone, Copy)]
pub struct Shown {
    pub outcome: Result<StatusFigures, Refused>,
    pub part: Part,
}

// A status in one answer: the outcome, and the shown lines as that part of the lent book.
#[derive(Clone, Copy)]
pub struct StatusAnswer<'a> {
    pub outcome: Result<StatusFigures, Refused>,
    pub lines: &'a [i64],
}

// The first refusal that the request alone decides.
#[tactic(auto, unfolding(model::specs::OrderStatus::status_asked))]
fn asked(d: Dims, q: OrderStatus, who: Selection) -> Result<(), Refused>
    ensures { told result ≡ fault (status_asked d q (who_of who.entry)) }
{
    if !cells::within(q.warehouse, 1, d.warehouses) {
        return Err(Refused::Warehouse);
    }
    if !cells::within(q.district, 1, 10) {
        return Err(Refused::District);
    }
    if !lookup::who_ok(d, who) {
        return Err(Refused::Customer);
    }
    Ok(())
}

// 13: the order that is found is in range; order 0 is none.
fn found_ok(book: &Book, w: u64, k: u64, o: u64) -> bool
    requires { R book.now.dims.warehouses w × (R 10 k × (o ≤ book.now.dims.orders)) }
    ensures { result ≡ found_ok book.now.dims book.now.nums.now w k o }
{
    if o == 0 {
        return true;
    }
    let row = layout::order_at(book.dims, w, k, o);
    rows::order_ok(book.nums, book.dims, row)
}

// 13: the slice, the numbers of the district in it, and the order that is found. The customer's own number and its order go before the pass over
// the district, which takes longer: they are on their way from memory meanwhile.
fn last_ok(book: &Book, last: &[i64], w: u64, k: u64, c: u64) -> bool
    requires { R book.now.dims.warehouses w × (R 10 k × (R book.now.dims.customers c × (district_used book.now.dims book.now.nums.now w k ≡ true))) }
    ensures { result ≡ last_tests book.now.dims book.now.nums.now last.now w k (nat (last_at book.now.dims last.now w k c)) }
{
    if !last_orders::long_ok(last, book.dims) {
        return false;
    }
    let order = last_orders::last_of(last, book.dims, w, k, c);
    if order > book.dims.orders {
        return false;
    }
    if !found_ok(book, w, k, order) {
        return false;
    }
    last_orders::numbers_ok(last, book, w, k)
}

// The first refusal that the rows, names and last orders decide, else the customer and its last order.
#[tactic(auto, unfolding(model::specs::OrderStatus::status_used, model::specs::OrderStatus::status_customer, model::specs::OrderStatus::status_order))]
fn used(
    book: &Book,
    names: &[u8],
    last: &[i64],
    q: OrderStatus,
    who: Selection,
) -> Result<Seen, Refused>
    requires { (length names.now ≡ name_bytes book.now.dims) × StatusAsked book.now.dims q (who_of who) }
    ensures { (told result ≡ fault (status_used book.now.dims book.now.nums.now names.now last.now q (who_of who.entry)))
        × IfOk result (λ s. (s.customer ≡ status_customer book.now.dims names.now q (who_of who.entry)) × (s.order ≡ status_order book.now.dims names.now last.now q (who_of who.entry))) }
{
    if !rows::district_used(book, q.warehouse, q.district) {
        return Err(Refused::Row);
    }
    if !lookup::who_used(book, names, q.warehouse, q.district, who) {
        return Err(Refused::Row);
    }
    let found = lookup::customer_of(names, book.dims, q.warehouse, q.district, who);
    let Some(customer) = found else {
        return Err(Refused::Nobody);
    };
    if !last_ok(book, last, q.warehouse, q.district, customer) {
        return Err(Refused::LastOrders);
    }
    let order = last_orders::last_of(last, book.dims, q.warehouse, q.district, customer);
    Ok(Seen { customer, order })
}

// Customer, balance, and an order's number, date and carrier.
fn figures_of(book: &Book, q: OrderStatus, c: u64, o: u64) -> StatusFigures
    requires { R book.now.dims.warehouses q.warehouse × (R 10 q.district × (R book.now.dims.customers c × (o ≤ book.now.dims.orders))) }
    ensures { (result.customer ≡ c) × ((result.balance ≡ get (shapes book.now.dims) book.now.nums.now (balance q.warehouse q.district c))
        × (pos result.order ∷ pos result.date ∷ pos result.carrier ∷ [] ≡ order_shown book.now.dims book.now.nums.now q.warehouse q.district o)) }
{
    let balance = rows::balance_of(book, q.warehouse, q.district, c);
    if o == 0 {
        return StatusFigures {
            customer: c,
            balance,
            order: 0,
            date: 0,
            carrier: 0,
        };
    }
    let date = rows::entry_date(book, q.warehouse, q.district, o);
    let carrier = rows::order_carrier(book, q.warehouse, q.district, o);
    StatusFigures {
        customer: c,
        balance,
        order: o,
        date,
        carrier,
    }
}

// Where the lines of an order start in the book, and how many numbers they are; no numbers for order 0.
fn part_of(book: &Book, w: u64, k: u64, o: u64) -> Part
    requires { R book.now.dims.warehouses w × (R 10 k × ((o ≤ book.now.dims.orders) × (o ≢ 0 → R 15 (num (shapes book.now.dims) book.now.nums.now (line_count book.now.dims w k o))))) }
    ensures { (result.from + result.count ≤ length book.now.nums.now) × (result ≡ lines_part book.now.dims book.now.nums.now w k o) }
{
    if o == 0 {
        return Part { from: 0, count: 0 };
    }
    let n = rows::line_count(book, w, k, o);
    let p = layout::order_at(book.dims, w, k, o);
    let from = p + 6;
    let count = n * 5;
    Part { from, count }
}

// What a status shows: the figures, and where the lines are in the book.
fn show(
    b: &[i64],
    names: &[u8],
    last: &[i64],
    q: OrderStatus,
    who: Selection,
) -> Result<(StatusFigures, Part), Refused>
    ensures { ShownCall b.now names.now last.now q (who_of who.entry) (shown_of result) }
{
    let d = layout::head_of(b, names)?;
    asked(d, q, who)?;
    let book = Book { nums: b, dims: d };
    let seen = used(&book, names, last, q, who)?;
    let figures = figures_of(&book, q, seen.customer, seen.order);
    let part = part_of(&book, q.warehouse, q.district, seen.order);
    Ok((figures, part))
}

// Order-Status, by customer number or by last name: the outcome, and where the shown lines are in the book; the order is the one that the last
// orders name. A refused status shows an empty part.
pub fn status_shown(b: &[i64], names: &[u8], last: &[i64], q: OrderStatus, who: Selection) -> Shown
    ensures { ShownCall b.now names.now last.now q (who_of who.entry) result }
{
    match show(b, names, last, q, who) {
        Ok((figures, part)) => Shown {
            outcome: Ok(figures),
            part,
        },
        Err(refused) => Shown {
            outcome: Err(refused),
            part: Part { from: 0, count: 0 },
        },
    }
}

// The part of the lent book that a status shows.
fn lines_in<'a>(b: &'a [i64], part: Part) -> &'a [i64]
    requires { part.from + part.count ≤ length b.now }
    ensures { (result.now ≡ part_of part b.now) × (result.ref_ptr ≡ (b.entry.ref_ptr.0, b.entry.ref_ptr.1 + 8 * part.from)) }
{
    let from = part.from as usize;
    let to = (part.from + part.count) as usize;
    &b[from..to]
}

// Order-Status, by customer number or by last name; the lines are shown as that part of the lent book, an empty one where there is no order to show.
#[tactic(auto, unfolding(model::specs::OrderStatus::status_lines))]
pub fn order_status<'a>(
    b: &'a [i64],
    names: &[u8],
    last: &[i64],
    q: OrderStatus,
    who: Selection,
) -> StatusAnswer<'a>
    ensures { StatusCall b.now names.now last.now q (who_of who.entry)
        result.outcome result.lines.now b.entry.ref_ptr result.lines.ref_ptr }
{
    let Shown { outcome, part } = status_shown(b, names, last, q, who);
    let lines = lines_in(b, part);
    StatusAnswer { outcome, lines }
}
