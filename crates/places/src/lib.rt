// Where the rows of a book stand, by its sizes alone: for callers that lay a book out themselves.
#![tactic(auto)]

ghost use Rattle.std.specs.Prelude.{◌≡◌, ◌∷◌};
ghost use Rattle.model.specs.Tests.{every};
ghost use Rattle.model.proofs.Fields.{Dimensioned};
ghost use Rattle.places.specs.Places.{spot_tests, Spotted, places_of, places_out};

use model::Dims;

// One row of each kind: item and warehouse are the stock's as well, and the slot is an order's.
#[derive(Clone, Copy)]
pub struct Spot {
    pub warehouse: u64,
    pub district: u64,
    pub customer: u64,
    pub item: u64,
    pub slot: u64,
    pub history: u64,
}

// Each is 1 to its size.
#[tactic(auto, unfolding(crate::specs::Places::spot_tests))]
fn spot_ok(d: Dims, s: Spot) -> bool
    ensures { result ≡ every (spot_tests d s) }
{
    cells::within(s.warehouse, 1, d.warehouses)
        & cells::within(s.district, 1, 10)
        & cells::within(s.customer, 1, d.customers)
        & cells::within(s.item, 1, d.items)
        & cells::within(s.slot, 1, d.orders)
        & cells::within(s.history, 1, d.histories)
}

// The places, where sizes and rows are in their ranges.
fn placed(d: Dims, s: Spot) -> [u64; 12]
    requires { Dimensioned d × Spotted d s }
    ensures { result ≡ 0 ∷ 0 ∷ places_of d s }
{
    let numbers = layout::numbers_of(d);
    let bytes = layout::name_bytes_of(d);
    let warehouse = layout::warehouse_at(d, s.warehouse);
    let district = layout::district_at(d, s.warehouse, s.district);
    let customer = layout::customer_at(d, s.warehouse, s.district, s.customer);
    let item = layout::item_at(d, s.item);
    let stock = layout::stock_at(d, s.warehouse, s.item);
    let order = layout::order_at(d, s.warehouse, s.district, s.slot);
    let history = layout::history_at(d, s.history);
    let name = layout::name_at(d, s.warehouse, s.district, s.customer);
    [
        0, 0, numbers, bytes, warehouse, district, customer, item, stock, order, history, name,
    ]
}

// Number, detail, how many numbers and name bytes the book has, then where the rows of a warehouse, a district, a customer, an item, a stock,
// an order slot and a history slot start, and where the customer's names do. Flat, as C takes it.
pub fn places(d: Dims, s: Spot) -> [u64; 12]
    ensures { result ≡ places_out d s }
{
    if layout::dims_in_range(d) & spot_ok(d, s) {
        placed(d, s)
    } else {
        [2, 0, 0, 0, 0, 0, 0, 0, 0, 0, 0, 0]
    }
}
