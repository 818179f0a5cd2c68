#![tactic(auto)]

ghost use Rattle.std.specs.Prelude.{◌≡◌, ◌+◌, ◌≤◌, length, IfOk};
ghost use Rattle.model.specs.Tests.{fault};
ghost use Rattle.model.specs.Names.{who_of};
ghost use Rattle.model.specs.Answer.{told};
ghost use Rattle.model.specs.Promises.{PaymentCall};
ghost use Rattle.model.specs.Note.{note_bytes};
ghost use Rattle.model.specs.Payment.{pay_asked, pay_used, payer, history_numbers};
ghost use Rattle.model.specs.Layout.{name_bytes};
ghost use Rattle.model.proofs.PaymentFacts.{PayAsked};
ghost use Rattle.model.proofs.Rewrite.{puts};
ghost use Rattle.payment.specs.Plan.{Payable, plan_of, Storable, Small, store_plan, Settled};

use model::{Dims, Payment, PaymentAnswer, PaymentFigures, Refused, Selection};
use rows::Book;

// The numbers that a payment changes: where they stand, and what they become; and whether the customer's credit is bad.
#[derive(Clone, Copy)]
pub struct Plan {
    pub warehouse: u64,
    pub warehouseytd: u64,
    pub district: u64,
    pub districtytd: u64,
    pub balance: u64,
    pub newbalance: i64,
    pub paid: u64,
    pub newpaid: u64,
    pub payments: u64,
    pub newpayments: u64,
    pub history: u64,
    pub count: u64,
    pub bad: bool,
}

// The first refusal that the request alone decides.
#[tactic(auto, unfolding(model::specs::Payment::pay_asked))]
fn asked(d: Dims, q: Payment, who: Selection) -> Result<(), Refused>
    ensures { told result ≡ fault (pay_asked d q (who_of who.entry)) }
{
    let custwarehouse = cells::within(q.custwarehouse, 1, d.warehouses);
    if !(cells::within(q.warehouse, 1, d.warehouses) & custwarehouse) {
        return Err(Refused::Warehouse);
    }
    let custdistrict = cells::within(q.custdistrict, 1, 10);
    if !(cells::within(q.district, 1, 10) & custdistrict) {
        return Err(Refused::District);
    }
    if !lookup::who_ok(d, who) {
        return Err(Refused::Customer);
    }
    if !cells::within(q.date, 1, 6342969600) {
        return Err(Refused::Date);
    }
    if !cells::within(q.amount, 100, 500000) {
        return Err(Refused::Range(0));
    }
    Ok(())
}

// The first refusal that the rows and names decide, else who pays.
#[tactic(auto, unfolding(model::specs::Payment::pay_used, model::specs::Payment::payer), using(rows::proofs::RowTests::booked_six))]
fn used(book: &Book, names: &[u8], q: Payment, who: Selection) -> Result<u64, Refused>
    requires { (length names.now ≡ name_bytes book.now.dims) × PayAsked book.now.dims q (who_of who) }
    ensures { (told result ≡ fault (pay_used book.now.dims book.now.nums.now names.now q (who_of who.entry)))
        × IfOk result (λ c. c ≡ payer book.now.dims names.now q (who_of who.entry)) }
{
    if !rows::warehouse_used(book, q.warehouse) {
        return Err(Refused::Row);
    }
    if !rows::district_used(book, q.warehouse, q.district) {
        return Err(Refused::Row);
    }
    if !lookup::who_used(book, names, q.custwarehouse, q.custdistrict, who) {
        return Err(Refused::Row);
    }
    let found = lookup::customer_of(names, book.dims, q.custwarehouse, q.custdistrict, who);
    let Some(customer) = found else {
        return Err(Refused::Nobody);
    };
    if book.dims.histories <= rows::history_count(book.nums, book.dims) {
        return Err(Refused::Full);
    }
    Ok(customer)
}

// The numbers that a payment changes, read before any is written.
fn plan_of(b: &[i64], d: Dims, q: Payment, c: u64) -> Plan
    requires { Payable d b.now q c }
    ensures { (result ≡ plan_of d b.now q c) × Storable (length b.now) result }
{
    let warehouse = layout::warehouse_at(d, q.warehouse) + 1;
    let district = layout::district_at(d, q.warehouse, q.district) + 1;
    let row = layout::customer_at(d, q.custwarehouse, q.custdistrict, c);
    let warehouseytd = cells::held(b, warehouse) + q.amount;
    let districtytd = cells::held(b, district) + q.amount;
    let balance = row + 2;
    let newbalance = cells::balance_less(cells::get_signed(b, balance), q.amount);
    let paid = row + 3;
    let newpaid = cells::held(b, paid) + q.amount;
    let payments = row + 4;
    let newpayments = cells::held(b, payments) + 1;
    let count = cells::held(b, 5) + 1;
    let history = layout::history_at(d, count);
    let bad = cells::held(b, row) == 1;
    Plan {
        warehouse,
        warehouseytd,
        district,
        districtytd,
        balance,
        newbalance,
        paid,
        newpaid,
        payments,
        newpayments,
        history,
        count,
        bad,
    }
}

// A history row, stored.
fn store_history(b: &mut [i64], p: u64, q: Payment, c: u64)
    requires { (p + 7 ≤ length b.old) × Small q c }
    ensures { b.new ≡ puts b.old p 0 (history_numbers q c) }
{
    cells::put(b, p, c);
    cells::put(b, p + 1, q.custdistrict);
    cells::put(b, p + 2, q.custwarehouse);
    cells::put(b, p + 3, q.district);
    cells::put(b, p + 4, q.warehouse);
    cells::put(b, p + 5, q.date);
    cells::put(b, p + 6, q.amount);
}

// A plan, stored.
fn store_plan(b: &mut [i64], p: Plan, q: Payment, c: u64)
    requires { Storable (length b.old) p × Small q c }
    ensures { b.new ≡ store_plan b.old p q c }
{
    cells::put(b, p.warehouse, p.warehouseytd);
    cells::put(b, p.district, p.districtytd);
    cells::put_signed(b, p.balance, p.newbalance);
    cells::put(b, p.paid, p.newpaid);
    cells::put(b, p.payments, p.newpayments);
    store_history(b, p.history, q, c);
    cells::put(b, 5, p.count);
}

// A payment by customer c that no refusal applies to; answers the balance. Where the credit is bad, it is noted in the customer's text.
fn commit(b: &mut [i64], notes: &mut [u8], d: Dims, q: Payment, c: u64) -> i64
    requires { Payable d b.old q c × (length notes.old ≡ note_bytes d) }
    ensures { Settled d b.old notes.old q c result b.new notes.new }
{
    let p = plan_of(b, d, q, c);
    store_plan(b, p, q, c);
    if !p.bad {
        return p.newbalance;
    }
    notes::note(notes, d, q, c);
    p.newbalance
}

// A payment, carried out or refused.
#[tactic(auto, unfolding(model::specs::Payment::payment_fault, model::specs::Payment::payment_answer, model::specs::Payment::payment_book, model::specs::Payment::payment_notes))]
fn pay(
    b: &mut [i64],
    names: &[u8],
    notes: &mut [u8],
    q: Payment,
    who: Selection,
) -> Result<PaymentFigures, Refused>
    ensures { PaymentCall b.old names.now notes.old q (who_of who.entry)
        (record { outcome = result }) b.new notes.new }
{
    let d = layout::head_of(b, names)?;
    if !notes::long_ok(notes, d) {
        return Err(Refused::Notes);
    }
    asked(d, q, who)?;
    let book = Book { nums: b, dims: d };
    let customer = used(&book, names, q, who)?;
    let balance = commit(b, notes, d, q, customer);
    Ok(PaymentFigures { customer, balance })
}

// Payment, by customer number or by last name; notes has the customers' texts.
pub fn payment(
    b: &mut [i64],
    names: &[u8],
    notes: &mut [u8],
    q: Payment,
    who: Selection,
) -> PaymentAnswer
    ensures { PaymentCall b.old names.now notes.old q (who_of who.entry)
        result b.new notes.new }
{
    let outcome = pay(b, names, notes, q, who);
    PaymentAnswer { outcome }
}
