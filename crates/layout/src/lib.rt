// Where the rows of a book stand, by its sizes.
// That sizes are in their ranges (`Dimensioned`) is a clause, here and where sizes are taken without a book: with a model each proof would carry the equation
// between sizes and fields, with a ghost field each clause would write `d.dims`. That a row is one of the book's (`R`) is a clause everywhere: a type for a
// warehouse, a customer or an item would hold the sizes too, and each clause the equation between both; the theorems say `R 10 k` of a number.
#![tactic(auto)]

ghost use Rattle.std.specs.Prelude.{◌≡◌, ◌+◌, ◌*◌, ◌≤◌, ◌<◌, ◌^◌, length};
ghost use Rattle.model.specs.Tests.{every};
ghost use Rattle.model.specs.Layout.{numbers, name_bytes, shapes, place, per_customer, of_customer};
ghost use Rattle.model.specs.Head.{dims, dims_tests, size_tests};
ghost use Rattle.model.specs.Rows.{warehouse_row, district_row, customer_row, price, stock_row, slot, order_row, history_row};
ghost use Rattle.model.specs.Names.{name_place};
ghost use Rattle.model.specs.Claim.{R};
ghost use Rattle.model.proofs.Fields.{Dimensioned};
ghost use Rattle.layout.specs.Layout.{all_customers, all_stocks, all_orders, item_base, stock_base, order_base, history_base};
ghost use Rattle.layout.specs.Heads.{HeadSays};
ghost use Rattle.layout.specs.Runs.{row_in, RunOf, SectionRun};

use model::{Dims, Refused};

// The five numbers that fix the size are in their ranges. They are tested as they lie: to read them for `dims_in_range` first makes the head of each call
// slower.
#[tactic(auto, unfolding(model::specs::Head::dims, model::specs::Head::dims_tests))]
fn dims_ok(b: &[i64]) -> bool
    requires { 6 ≤ length b.now }
    ensures { result ≡ every (dims_tests (dims b.now)) }
{
    cells::one_to(b, 0, 20)
        & cells::one_to(b, 1, 3000)
        & cells::one_to(b, 2, 100000)
        & cells::one_to(b, 3, 10000)
        & cells::one_to(b, 4, 1000000)
}

// Five sizes that stand in no book are in the same ranges.
#[tactic(auto, unfolding(model::specs::Head::dims_tests))]
pub fn dims_in_range(d: Dims) -> bool
    ensures { result ≡ every (dims_tests d) }
{
    cells::within(d.warehouses, 1, 20)
        & cells::within(d.customers, 1, 3000)
        & cells::within(d.items, 1, 100000)
        & cells::within(d.orders, 1, 10000)
        & cells::within(d.histories, 1, 1000000)
}

// The five numbers, which have been found in their ranges.
#[tactic(auto, unfolding(model::specs::Head::dims))]
fn dims_of(b: &[i64]) -> Dims
    requires { (6 ≤ length b.now) × Dimensioned (dims b.now) }
    ensures { result ≡ dims b.now }
{
    Dims {
        warehouses: cells::held(b, 0),
        customers: cells::held(b, 1),
        items: cells::held(b, 2),
        orders: cells::held(b, 3),
        histories: cells::held(b, 4),
    }
}

// How many customers, stocks and orders the book has rows for.
pub fn all_customers(d: Dims) -> u64
    requires { Dimensioned d }
    ensures { (result ≡ all_customers d) × (result ≤ 600000) }
{
    10 * d.warehouses * d.customers
}

fn all_stocks(d: Dims) -> u64
    requires { Dimensioned d }
    ensures { (result ≡ all_stocks d) × (result ≤ 2000000) }
{
    d.warehouses * d.items
}

fn all_orders(d: Dims) -> u64
    requires { Dimensioned d }
    ensures { (result ≡ all_orders d) × (result ≤ 2000000) }
{
    10 * d.warehouses * d.orders
}

// Where the items, the stocks, the orders and the history start.
fn item_base(d: Dims) -> u64
    requires { Dimensioned d }
    ensures { (result ≡ item_base d) × (result ≤ 3700000) }
{
    let customers = all_customers(d);
    6 + 2 * d.warehouses + 30 * d.warehouses + 6 * customers
}

fn stock_base(d: Dims) -> u64
    requires { Dimensioned d }
    ensures { (result ≡ stock_base d) × (result ≤ 3800000) }
{
    item_base(d) + d.items
}

fn order_base(d: Dims) -> u64
    requires { Dimensioned d }
    ensures { (result ≡ order_base d) × (result ≤ 11800000) }
{
    let stocks = all_stocks(d);
    stock_base(d) + 4 * stocks
}

fn history_base(d: Dims) -> u64
    requires { Dimensioned d }
    ensures { (result ≡ history_base d) × (result ≤ 200000000) }
{
    let orders = all_orders(d);
    order_base(d) + 81 * orders
}

// How many numbers the book has.
pub fn numbers_of(d: Dims) -> u64
    requires { Dimensioned d }
    ensures { (result ≡ numbers d) × (result ≤ 207000000) }
{
    history_base(d) + 7 * d.histories
}

// How many name bytes the book has.
pub fn name_bytes_of(d: Dims) -> u64
    requires { Dimensioned d }
    ensures { (result ≡ name_bytes d) × (result ≤ 19200000) }
{
    32 * all_customers(d)
}

// The history count and the two lengths agree with the head.
#[tactic(auto, unfolding(model::specs::Head::size_tests))]
fn sizes_ok(b: &[i64], wide: u64, d: Dims) -> bool
    requires { (6 ≤ length b.now) × Dimensioned d }
    ensures { result ≡ every (size_tests d b.now wide) }
{
    let count = cells::get(b, 5);
    let numbers = numbers_of(d);
    let bytes = name_bytes_of(d);
    let long = b.len() as u64;
    (count <= d.histories) & (long == numbers) & (wide == bytes)
}

// The head read: the sizes, where they are in their ranges and the two lengths agree with them.
pub fn head_of(b: &[i64], names: &[u8]) -> Result<Dims, Refused>
    ensures { HeadSays b.now (length names.now) result }
{
    if b.len() < 6 {
        return Err(Refused::Head);
    }
    if !dims_ok(b) {
        return Err(Refused::Head);
    }
    let d = dims_of(b);
    if !sizes_ok(b, names.len() as u64, d) {
        return Err(Refused::Head);
    }
    Ok(d)
}

// Where the row of a warehouse starts.
pub fn warehouse_at(d: Dims, w: u64) -> u64
    requires { Dimensioned d × R d.warehouses w }
    ensures { (result ≡ place (shapes d) (warehouse_row w)) × (result + 2 ≤ numbers d) }
{
    6 + 2 * (w - 1)
}

// Where the row of a district starts.
pub fn district_at(d: Dims, w: u64, k: u64) -> u64
    requires { Dimensioned d × (R d.warehouses w × R 10 k) }
    ensures { (result ≡ place (shapes d) (district_row w k)) × (result + 3 ≤ numbers d) }
{
    6 + 2 * d.warehouses + 3 * (10 * (w - 1) + (k - 1))
}

// Where the row of a customer starts.
pub fn customer_at(d: Dims, w: u64, k: u64, c: u64) -> u64
    requires { Dimensioned d × (R d.warehouses w × (R 10 k × R d.customers c)) }
    ensures { (result ≡ place (shapes d) (customer_row w k c)) × (result + 6 ≤ numbers d) }
{
    let block = (10 * (w - 1) + (k - 1)) * d.customers;
    6 + 2 * d.warehouses + 30 * d.warehouses + 6 * (block + (c - 1))
}

// Where the row of an item, which is its price alone, stands.
pub fn item_at(d: Dims, i: u64) -> u64
    requires { Dimensioned d × R d.items i }
    ensures { (result ≡ place (shapes d) (price i)) × (result + 1 ≤ numbers d) }
{
    item_base(d) + (i - 1)
}

// Where the row of an item's stock at a warehouse starts.
pub fn stock_at(d: Dims, w: u64, i: u64) -> u64
    requires { Dimensioned d × (R d.warehouses w × R d.items i) }
    ensures { (result ≡ place (shapes d) (stock_row w i)) × (result + 4 ≤ numbers d) }
{
    let block = (w - 1) * d.items;
    stock_base(d) + 4 * (block + (i - 1))
}

// The slot of an order number.
fn slot_of(d: Dims, o: u64) -> u64
    requires { R d.orders o }
    ensures { (result ≡ slot d o) × R d.orders result }
{
    o
}

// Where the row of an order starts.
pub fn order_at(d: Dims, w: u64, k: u64, o: u64) -> u64
    requires { Dimensioned d × (R d.warehouses w × (R 10 k × R d.orders o)) }
    ensures { (result ≡ place (shapes d) (order_row d w k o)) × (result + 81 ≤ numbers d) }
{
    let block = (10 * (w - 1) + (k - 1)) * d.orders;
    let slot = slot_of(d, o);
    order_base(d) + 81 * (block + (slot - 1))
}

// Rows of orders that follow each other: where the first starts, and how many they are (a `Part` counts numbers).
#[derive(Clone, Copy)]
pub struct Run {
    pub at: u64,
    pub count: u64,
}

// The rows of the n orders of a district from number `first` on.
pub fn orders_run(d: Dims, w: u64, k: u64, first: u64, n: u64) -> Run
    requires { Dimensioned d × (R d.warehouses w × (R 10 k × (R d.orders first × (first + n ≤ d.orders + 1)))) }
    ensures { RunOf d w k first n result }
{
    let at = order_at(d, w, k, first);
    Run { at, count: n }
}

// The rows of the first n orders in a district's section of orders, lent by itself.
pub fn section_run(n: u64) -> Run
    ensures { SectionRun n result }
{
    Run { at: 0, count: n }
}

// Where row i, from 0, of a run starts.
pub fn order_in(run: Run, i: u64) -> u64
    requires { row_in run i < 2 ^ 63 }
    ensures { result ≡ row_in run i }
{
    run.at + 81 * i
}

// Where the history row h starts, h from 1.
pub fn history_at(d: Dims, h: u64) -> u64
    requires { Dimensioned d × R d.histories h }
    ensures { (result ≡ place (shapes d) (history_row h)) × (result + 7 ≤ numbers d) }
{
    history_base(d) + 7 * (h - 1)
}

// Where the names of a district's customers start.
pub fn name_base(d: Dims, w: u64, k: u64) -> u64
    requires { Dimensioned d × (R d.warehouses w × R 10 k) }
    ensures { (result ≡ name_place d w k 1) × (result + 32 * d.customers ≤ name_bytes d) }
{
    let district = (w - 1) * 10 + (k - 1);
    let first = district * d.customers;
    32 * first
}

// Where the names of a customer start.
pub fn name_at(d: Dims, w: u64, k: u64, c: u64) -> u64
    requires { Dimensioned d × (R d.warehouses w × (R 10 k × R d.customers c)) }
    ensures { (result ≡ name_place d w k c) × (result + 32 ≤ name_bytes d) }
{
    name_base(d, w, k) + 32 * (c - 1)
}

// Where a customer's number stands in a slice that has one number per customer.
pub fn of_customer(d: Dims, w: u64, k: u64, c: u64) -> u64
    requires { Dimensioned d × (R d.warehouses w × (R 10 k × R d.customers c)) }
    ensures { (result ≡ place (per_customer d) (of_customer w k c)) × (result + 1 ≤ 10 * d.warehouses * d.customers) }
{
    let block = (10 * (w - 1) + (k - 1)) * d.customers;
    block + (c - 1)
}
