// Finding a customer by its last name.
// That the name bytes are as many as the sizes imply is a clause, here and in the calls: names are lent beside the book, and not each reader of rows has them.
#![tactic(auto)]

ghost use Rattle.std.specs.Prelude.{◌≡◌, true, [], ◌∷◌, ◌+◌, ◌*◌, ◌≤◌, ◌<◌, ◌^◌, length, take, replicate, min, max};
ghost use Rattle.model.specs.Tests.{every, all_to};
ghost use Rattle.model.specs.Layout.{name_bytes};
ghost use Rattle.model.specs.Names.{name_place, padded, insert, found, who_of, who_tests, customer_of};
ghost use Rattle.model.specs.Used.{customers_used, names_used, who_used};
ghost use Rattle.model.specs.Claim.{R};
ghost use Rattle.model.proofs.Fields.{Dimensioned};
ghost use Rattle.rows.specs.Book.{Booked};
ghost use Rattle.lookup.specs.Listed.{named_from, Next, before_from, namesakes_from, name_ok_from, insert_place, Listed};
ghost use Rattle.lookup.specs.Extremes.{Noted, extremes_ok};

use model::{Dims, Selection};
use rows::Book;

// The names of a district's customers: where they start among those of all, and how many customers there are.
#[derive(Clone, Copy)]
struct District<'a> {
    names: &'a [u8],
    base: u64,
    count: u64,
    ghost reach: { base + 32 * count ≤ length names.now },
}

impl<'a> District<'a> {
    // A customer has a last name.
    fn is_named(self, name: &[u8; 16], c: u64) -> bool
        requires { R self.count c }
        ensures { result ≡ named_from self.entry.names.now self.entry.base name.now c }
    {
        words::compare_names(self.names, self.base + 32 * (c - 1), name, 0).is_eq()
    }

    // Customer x comes before customer y, by first name and then number.
    fn comes_before(self, x: u64, y: u64) -> bool
        requires { R self.count x × R self.count y }
        ensures { result ≡ before_from self.entry.names.now self.entry.base x y }
    {
        let first_names = words::compare_names(
            self.names,
            self.base + 32 * (x - 1) + 16,
            self.names,
            self.base + 32 * (y - 1) + 16,
        );
        first_names.then(x.cmp(&y)).is_lt()
    }

    // The place of customer c among the customers of a list. (Not by `partition_point`: it may ask its closure of any number, and only customers have
    // names.)
    fn place_of(self, list: &[u16], c: u64) -> usize
        requires { Listed self.names.now self.base self.count list.now c }
        ensures { (result ≡ insert_place (before_from self.entry.names.now self.entry.base) c list.now) × (result ≤ length list.now) }
    {
        let mut low = 0;
        let mut high = list.len();
        while low < high {
            let middle = low + (high - low) / 2;
            if self.comes_before(c, u64::from(list[middle])) {
                high = middle;
            } else {
                low = middle + 1;
            }
        }
        low
    }

    // Customer c inserted into the first n of a list; those behind its place move up by one.
    fn insert_in(self, list: &mut [u16], n: usize, c: u64)
        requires { (n < length list.old) × Listed self.names.now self.base self.count (take n list.old) c }
        ensures { take (n + 1) list.new ≡ insert (before_from self.entry.names.now self.entry.base) c (take n list.old) }
    {
        let p = self.place_of(&list[..n], c);
        list.copy_within(p..n, p + 1);
        list[p] = c as u16;
    }

    // The first customer behind the first `from` that has a last name. A loop of its own: around the insertion the turns that find nobody take longer.
    fn next_named(self, name: &[u8; 16], from: u64) -> Option<u64>
        requires { from ≤ self.count }
        ensures { Next (named_from self.entry.names.now self.entry.base name.now) from self.entry.count result }
    {
        for i in from..self.count {
            if self.is_named(name, i + 1) {
                return Some(i + 1);
            }
        }
        None
    }

    // The customers with a last name, in order, at the front of a list, which is lent once (no heap); how many.
    fn gather(self, name: &[u8; 16], list: &mut [u16]) -> usize
        requires { (self.count < 2 ^ 16) × (self.count ≤ length list.old) }
        ensures { (result ≤ self.entry.count) × (take result list.new ≡ namesakes_from self.entry.names.now self.entry.base name.now self.entry.count) }
    {
        let mut n = 0;
        let mut from = 0;
        while let Some(c) = self.next_named(name, from) {
            self.insert_in(list, n, c);
            n += 1;
            from = c;
        }
        n
    }

    // The names of all customers are in range, by the least and the largest byte at each place.
    fn names_ok(self) -> bool
        ensures { result ≡ all_to self.entry.count (name_ok_from self.entry.names.now self.entry.base) }
    {
        let mut low = [255u8; 32];
        let mut high = [0u8; 32];
        for i in 0..self.count {
            note_name(self.names, self.base + 32 * i, &mut low, &mut high);
        }
        extremes_ok(&low, &high)
    }
}

// The names of a district's customers, of those of all.
fn names_of(names: &[u8], d: Dims, w: u64, k: u64) -> District<'_>
    requires { Dimensioned d × (R d.warehouses w × (R 10 k × (length names.now ≡ name_bytes d))) }
    ensures { (result.names.now ≡ names.now) × ((result.base ≡ name_place d w k 1) × (result.count ≡ d.customers)) }
{
    District {
        names,
        base: layout::name_base(d, w, k),
        count: d.customers,
    }
}

// A name of at most 16 bytes put before spaces. The array is lent: one that is returned is taken apart into its bytes and put together again.
fn pad(name: &[u8], wanted: &mut [u8; 16])
    requires { (length name.now ≤ 16) × (wanted.old ≡ replicate 16 32) }
    ensures { wanted.new ≡ padded name.now }
{
    wanted[..name.len()].copy_from_slice(name);
}

// The customer of a district that a last name stands for. Out of line, so that a call by number does not make room for the list.
#[inline(never)]
pub fn find(names: &[u8], d: Dims, w: u64, k: u64, name: &[u8]) -> Option<u64>
    requires { Dimensioned d × (R d.warehouses w × (R 10 k × (length names.now ≡ name_bytes d))) }
    ensures { result ≡ found d names.now w k name.now }
{
    if !(1..=16).contains(&name.len()) {
        return None;
    }
    let mut wanted = [b' '; 16];
    pad(name, &mut wanted);
    let mut list = [0u16; 3000];
    let n = names_of(names, d, w, k).gather(&wanted, &mut list);
    if n == 0 {
        return None;
    }
    let place = (n + 1) / 2;
    Some(u64::from(list[place - 1]))
}

// The least and the largest byte at each place, with the 32 bytes at p among them.
fn note_name(names: &[u8], p: u64, low: &mut [u8; 32], high: &mut [u8; 32])
    requires { (p + 32 ≤ length names.now) × ((length low.old ≡ 32) × (length high.old ≡ 32)) }
    ensures { Noted min names.now p low.old low.new × Noted max names.now p high.old high.new }
{
    let at = p as usize;
    for j in 0..32 {
        let x = names[at + j];
        low[j] = low[j].min(x);
        high[j] = high[j].max(x);
    }
}

// The least and the largest byte of each place are in range, and at the first the least is no space.
fn extremes_ok(low: &[u8; 32], high: &[u8; 32]) -> bool
    ensures { result ≡ extremes_ok low.now high.now }
{
    let above = low.iter().all(|&x| 32 <= x);
    let below = high.iter().all(|&x| x <= 126);
    above & below & (33 <= low[0])
}

// The names of all customers of a district are in range.
pub fn names_used(names: &[u8], d: Dims, w: u64, k: u64) -> bool
    requires { Dimensioned d × (R d.warehouses w × (R 10 k × (length names.now ≡ name_bytes d))) }
    ensures { result ≡ names_used d names.now w k }
{
    names_of(names, d, w, k).names_ok()
}

// A customer given by number is one of the district's.
pub fn who_ok(d: Dims, who: Selection) -> bool
    ensures { result ≡ every (who_tests d (who_of who.entry)) }
{
    match who {
        Selection::Number(c) => cells::within(c, 1, d.customers),
        Selection::LastName(_) => true,
    }
}

// What a search by name uses: the rows and names of all customers of a district are in range.
fn named_used(book: &Book, names: &[u8], w: u64, k: u64) -> bool
    requires { R book.now.dims.warehouses w × (R 10 k × (length names.now ≡ name_bytes book.now.dims)) }
    ensures { result ≡ every (customers_used book.now.dims book.now.nums.now w k ∷ names_used book.now.dims names.now w k ∷ []) }
{
    rows::customers_used(book, w, k) & names_used(names, book.dims, w, k)
}

// The row of a customer given by number is in range, or by last name all rows and names of the district's customers.
pub fn who_used(book: &Book, names: &[u8], w: u64, k: u64, who: Selection) -> bool
    requires { R book.now.dims.warehouses w × (R 10 k
        × ((length names.now ≡ name_bytes book.now.dims) × (every (who_tests book.now.dims (who_of who)) ≡ true))) }
    ensures { result ≡ who_used book.now.dims book.now.nums.now names.now w k (who_of who.entry) }
{
    match who {
        Selection::Number(c) => rows::customer_used(book, w, k, c),
        Selection::LastName(_) => named_used(book, names, w, k),
    }
}

// The customer that a request names, by number or by last name.
pub fn customer_of(names: &[u8], d: Dims, w: u64, k: u64, who: Selection) -> Option<u64>
    requires { Dimensioned d × (R d.warehouses w × (R 10 k × (length names.now ≡ name_bytes d))) }
    ensures { result ≡ customer_of d names.now w k (who_of who.entry) }
{
    match who {
        Selection::Number(c) => Some(c),
        Selection::LastName(name) => find(names, d, w, k, name),
    }
}
