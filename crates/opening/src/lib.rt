#![tactic(auto)]

ghost use Rattle.std.specs.Prelude.{◌≡◌, ◌+◌, ◌≤◌, length};
ghost use Rattle.model.specs.Tests.{every, all_to};
ghost use Rattle.model.specs.Layout.{name_bytes};
ghost use Rattle.model.specs.Store.{from};
ghost use Rattle.model.specs.Used.{item_used};
ghost use Rattle.model.specs.Answer.{told};
ghost use Rattle.model.specs.Promises.{OpeningCall};
ghost use Rattle.model.specs.Opening.{opening_fault, new_warehouse, new_district, new_customer, new_stock, district_new, warehouse_new, book_new};
ghost use Rattle.model.specs.Claim.{R};
ghost use Rattle.opening.specs.New.{customer_new, stock_new};

use model::{OpeningAnswer, Refused};
use rows::Book;

// A new warehouse's row: its tax in range, its money to date 0.
#[tactic(auto, unfolding(model::specs::Opening::new_warehouse), using(model::proofs::Fields::from_cell))]
fn new_warehouse(b: &[i64], p: u64) -> bool
    requires { p + 2 ≤ length b.now }
    ensures { result ≡ every (new_warehouse (from b.now p)) }
{
    let tax = cells::get(b, p);
    let ytd = cells::get(b, p + 1);
    (tax <= 9999) & (ytd == 0)
}

// A new district's row: its tax in range, its money to date 0, its next order number 1.
#[tactic(auto, unfolding(model::specs::Opening::new_district), using(model::proofs::Fields::from_cell))]
fn new_district(b: &[i64], p: u64) -> bool
    requires { p + 3 ≤ length b.now }
    ensures { result ≡ every (new_district (from b.now p)) }
{
    let tax = cells::get(b, p);
    let ytd = cells::get(b, p + 1);
    let next = cells::get(b, p + 2);
    (tax <= 9999) & (ytd == 0) & (next == 1)
}

// A new customer's row: its credit and discount in range, the rest 0.
#[tactic(auto, unfolding(model::specs::Opening::new_customer), using(model::proofs::Fields::from_cell))]
fn new_customer(b: &[i64], p: u64) -> bool
    requires { p + 6 ≤ length b.now }
    ensures { result ≡ every (new_customer (from b.now p)) }
{
    let credit = cells::get(b, p);
    let discount = cells::get(b, p + 1);
    let balance = cells::get(b, p + 2);
    let paid = cells::get(b, p + 3);
    let payments = cells::get(b, p + 4);
    let deliveries = cells::get(b, p + 5);
    (credit <= 1)
        & (discount <= 9999)
        & (balance == 0)
        & (paid == 0)
        & (payments == 0)
        & (deliveries == 0)
}

// A new stock's row: its on hand in range, the rest 0.
#[tactic(auto, unfolding(model::specs::Opening::new_stock), using(model::proofs::Fields::from_cell))]
fn new_stock(b: &[i64], p: u64) -> bool
    requires { p + 4 ≤ length b.now }
    ensures { result ≡ every (new_stock (from b.now p)) }
{
    let hand = cells::get(b, p);
    let ytd = cells::get(b, p + 1);
    let orders = cells::get(b, p + 2);
    let remotes = cells::get(b, p + 3);
    (hand <= 9999) & (ytd == 0) & (orders == 0) & (remotes == 0)
}

// All customers of a district.
fn new_customers(book: &Book, w: u64, k: u64) -> bool
    requires { R book.now.dims.warehouses w × R 10 k }
    ensures { result ≡ all_to book.now.dims.customers (customer_new book.now.dims book.now.nums.now w k) }
{
    let base = layout::customer_at(book.dims, w, k, 1);
    (0..book.dims.customers).all(|i| new_customer(book.nums, base + 6 * i))
}

// The stock of all items at a warehouse.
fn new_stocks(book: &Book, w: u64) -> bool
    requires { R book.now.dims.warehouses w }
    ensures { result ≡ all_to book.now.dims.items (stock_new book.now.dims book.now.nums.now w) }
{
    let base = layout::stock_at(book.dims, w, 1);
    (0..book.dims.items).all(|i| new_stock(book.nums, base + 4 * i))
}

// The prices of all items.
fn items_used(book: &Book) -> bool
    ensures { result ≡ all_to book.now.dims.items (item_used book.now.dims book.now.nums.now) }
{
    let base = layout::item_at(book.dims, 1);
    (0..book.dims.items).all(|i| rows::item_ok(book.nums, base + i))
}

// One district: its row, its customers, their names.
#[tactic(auto, unfolding(model::specs::Opening::district_new), using(crate::proofs::Runs::district_at_row))]
fn district_new(book: &Book, names: &[u8], w: u64, k: u64) -> bool
    requires { (length names.now ≡ name_bytes book.now.dims) × (R book.now.dims.warehouses w × R 10 k) }
    ensures { result ≡ district_new book.now.dims book.now.nums.now names.now w k }
{
    new_district(book.nums, layout::district_at(book.dims, w, k))
        && new_customers(book, w, k)
        && lookup::names_used(names, book.dims, w, k)
}

// The ten districts of a warehouse.
fn districts_new(book: &Book, names: &[u8], w: u64) -> bool
    requires { (length names.now ≡ name_bytes book.now.dims) × R book.now.dims.warehouses w }
    ensures { result ≡ all_to 10 (district_new book.now.dims book.now.nums.now names.now w) }
{
    (0..10).all(|i| district_new(book, names, w, i + 1))
}

// One warehouse: its row, its districts, its stock.
#[tactic(auto, unfolding(model::specs::Opening::warehouse_new), using(crate::proofs::Runs::warehouse_at_row))]
fn warehouse_new(book: &Book, names: &[u8], w: u64) -> bool
    requires { (length names.now ≡ name_bytes book.now.dims) × R book.now.dims.warehouses w }
    ensures { result ≡ warehouse_new book.now.dims book.now.nums.now names.now w }
{
    new_warehouse(book.nums, layout::warehouse_at(book.dims, w))
        && districts_new(book, names, w)
        && new_stocks(book, w)
}

// All warehouses.
fn warehouses_new(book: &Book, names: &[u8]) -> bool
    requires { length names.now ≡ name_bytes book.now.dims }
    ensures { result ≡ all_to book.now.dims.warehouses (warehouse_new book.now.dims book.now.nums.now names.now) }
{
    (0..book.dims.warehouses).all(|i| warehouse_new(book, names, i + 1))
}

// 3: the book is as opening wants it.
#[tactic(auto, unfolding(model::specs::Opening::book_new))]
fn book_new(book: &Book, names: &[u8]) -> bool
    requires { length names.now ≡ name_bytes book.now.dims }
    ensures { result ≡ book_new book.now.dims book.now.nums.now names.now }
{
    rows::history_count(book.nums, book.dims) == 0
        && warehouses_new(book, names)
        && items_used(book)
}

// The first refusal that book and table decide.
#[tactic(auto, unfolding(model::specs::Opening::opening_fault))]
fn accepted(b: &[i64], names: &[u8], topup: &[i64]) -> Result<(), Refused>
    ensures { told result ≡ opening_fault b.now names.now topup.now }
{
    let dims = layout::head_of(b, names)?;
    let book = Book { nums: b, dims };
    if !book_new(&book, names) {
        return Err(Refused::NotNew);
    }
    if !topup::table_ok(topup, dims) {
        return Err(Refused::TopUp);
    }
    Ok(())
}

// Opening, which writes nothing.
pub fn opening(b: &[i64], names: &[u8], topup: &[i64]) -> OpeningAnswer
    ensures { OpeningCall b.now names.now topup.now result }
{
    OpeningAnswer {
        outcome: accepted(b, names, topup),
    }
}
