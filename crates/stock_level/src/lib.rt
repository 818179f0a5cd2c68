#![tactic(auto)]

ghost use Rattle.std.specs.Prelude.{◌≡◌, [], ◌∷◌, ◌++◌, ℕ, List, ◌+◌, ◌*◌, ◌≤◌, ◌<◌, length, take};
ghost use Rattle.model.specs.Tests.{fault};
ghost use Rattle.model.specs.Store.{from};
ghost use Rattle.model.specs.Answer.{told};
ghost use Rattle.model.specs.StockLevel.{level_asked, level_used, line_items, low_items};
ghost use Rattle.model.specs.Claim.{R};
ghost use Rattle.model.specs.Promises.{StockLevelCall};
ghost use Rattle.layout.specs.Runs.{row_in};
ghost use Rattle.stock_level.specs.Notes.{noted, note_all, low_at, items_in, ItemReads, OrderReads, Ready};

use layout::Run;
use model::{Dims, Refused, StockLevel, StockLevelAnswer, StockLevelFigures};
use rows::Book;
use std::marker::Model;

// Items noted, in the order in which they were met: the first `count` of as many as twenty orders have lines (no heap).
#[derive(Drop)]
pub struct Noted {
    items: [u64; 300],
    count: usize,
}

impl Model for Noted {
    ghost Value = { List ℕ };

    ghost view = { λ s. take s.count s.items };

    ghost invariant = { λ s. s.count ≤ 300 };
}

impl Noted {
    // None.
    fn none() -> Noted
        ensures { result ≡ [] }
    {
        Noted {
            items: [0; 300],
            count: 0,
        }
    }

    // How many.
    fn len(&self) -> usize
        ensures { result ≡ length self.now }
    {
        self.count
    }

    // All of them.
    fn as_slice(&self) -> &[u64]
        ensures { result.now ≡ self.now }
    {
        &self.items[..self.count]
    }

    // One more.
    fn push(&mut self, x: u64)
        requires { length self.old < 300 }
        ensures { self.new ≡ self.old ++ (x ∷ []) }
    {
        self.items[self.count] = x;
        self.count += 1;
    }
}

// 4, 5, 8: what the request decides.
#[tactic(auto, unfolding(model::specs::StockLevel::level_asked))]
fn asked(d: Dims, q: StockLevel) -> Result<(), Refused>
    ensures { told result ≡ fault (level_asked d q) }
{
    if !cells::within(q.warehouse, 1, d.warehouses) {
        return Err(Refused::Warehouse);
    }
    if !cells::within(q.district, 1, 10) {
        return Err(Refused::District);
    }
    if !cells::within(q.threshold, 10, 20) {
        return Err(Refused::Range(0));
    }
    Ok(())
}

// 9: what the rows decide.
#[tactic(auto, unfolding(model::specs::StockLevel::level_used))]
fn used(book: &Book, q: StockLevel) -> Result<(), Refused>
    requires { R book.now.dims.warehouses q.warehouse × R 10 q.district }
    ensures { told result ≡ fault (level_used book.now.dims book.now.nums.now q) }
{
    if !rows::district_used(book, q.warehouse, q.district) {
        return Err(Refused::Row);
    }
    if !rows::window_used(book, q.warehouse, q.district) {
        return Err(Refused::Row);
    }
    if !rows::stocks_used(book, q.warehouse) {
        return Err(Refused::Row);
    }
    Ok(())
}

// An item noted, where it is low and not among those noted. The stock rows start at `stock`.
#[tactic(auto, unfolding(crate::specs::Notes::low_at))]
fn note_item(b: &[i64], stock: u64, threshold: u64, list: &mut Noted, x: u64)
    requires { ItemReads b.now stock x × (length list.old < 300) }
    ensures { list.new ≡ noted (low_at b.now stock threshold) list.old x }
{
    let low = cells::get(b, stock + 4 * (x - 1)) < threshold;
    if low && !list.as_slice().contains(&x) {
        list.push(x);
    }
}

// The items on the lines in use of the order at p noted.
fn note_order(b: &[i64], stock: u64, threshold: u64, list: &mut Noted, p: u64)
    requires { OrderReads b.now stock p × (length list.old + 15 ≤ 300) }
    ensures { (length list.new ≤ length list.old + 15) × (list.new ≡ note_all (low_at b.now stock threshold) list.old (line_items (from b.now p))) }
{
    let lines = cells::get(b, p + 3);
    for j in 0..lines {
        let item = cells::get(b, p + 6 + 5 * j);
        note_item(b, stock, threshold, list, item);
    }
}

// The items of the orders of a run noted.
fn note_run(b: &[i64], stock: u64, threshold: u64, run: Run) -> Noted
    requires { ((i : ℕ) → i < run.count → OrderReads b.now stock (row_in run i)) × (15 * run.count ≤ 300) }
    ensures { result ≡ note_all (low_at b.now stock threshold) [] (items_in b.now run run.count) }
{
    let mut list = Noted::none();
    for i in 0..run.count {
        let p = layout::order_in(run, i);
        note_order(b, stock, threshold, &mut list, p);
    }
    list
}

// The distinct items of the window whose on hand is below the threshold, counted.
fn low_items(book: &Book, q: StockLevel) -> u64
    requires { Ready book.now.dims book.now.nums.now q }
    ensures { result ≡ low_items book.now.dims book.now.nums.now q }
{
    let next = rows::next_order(book, q.warehouse, q.district);
    let first = rows::window_first(next);
    let count = next - first;
    let window = layout::orders_run(book.dims, q.warehouse, q.district, first, count);
    let stock = layout::stock_at(book.dims, q.warehouse, 1);
    note_run(book.nums, stock, q.threshold, window).len() as u64
}

// A Stock-Level, answered or refused.
fn level(b: &[i64], names: &[u8], q: StockLevel) -> Result<StockLevelFigures, Refused>
    ensures { StockLevelCall b.now names.now q (record { outcome = result }) }
{
    let d = layout::head_of(b, names)?;
    asked(d, q)?;
    let book = Book { nums: b, dims: d };
    used(&book, q)?;
    let count = low_items(&book, q);
    Ok(StockLevelFigures { count })
}

// Stock-Level: how many distinct items of the last twenty orders are low at the warehouse.
pub fn stock_level(b: &[i64], names: &[u8], q: StockLevel) -> StockLevelAnswer
    ensures { StockLevelCall b.now names.now q result }
{
    let outcome = level(b, names, q);
    StockLevelAnswer { outcome }
}
