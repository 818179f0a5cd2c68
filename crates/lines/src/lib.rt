// Request lines: reading one. What has a fixed length stands in an array, since nothing is on the heap.
#![tactic(auto)]

ghost use Rattle.std.specs.Prelude.{◌≡◌, ◌+◌, ◌≤◌, cond, eqb, false, get_or, [], length, Some, None};
ghost use Rattle.model.specs.Request.{lines_in};
ghost use Rattle.model.specs.Text.{parted};
ghost use Rattle.model.specs.RequestLine.{is_name, read_new_order, read_payment, read_delivery, read_order_status, read_stock_level};
ghost use Rattle.model.specs.RequestLine.{read_fields, read_parted, read_line, ReadSays};
ghost use Rattle.text.specs.Fields.{fields_from};
ghost use Rattle.lines.specs.Fields.{NumbersSay, are_numbers, values_of, WhoReads, WhoSays, LinesSay, form_read, reading, Holds, Beside, lines_beside};

use model::{
    Delivery, Form, Line, Lines, NewOrder, OrderStatus, Payment, ReadAnswer, Refused, Selection,
    StockLevel,
};

// What stands in an array where no line does.
const NO_LINE: Line = Line {
    item: 0,
    supply: 0,
    quantity: 0,
};

// The numbers in the next N fields from a position on, and where the field after them starts.
fn numbers_at<const N: usize>(s: &[u8], at: usize) -> Option<([u64; N], usize)>
    requires { at ≤ length s.now + 1 }
    ensures { NumbersSay N s.now at result }
{
    let mut values = [0u64; N];
    let mut next = at;
    for i in 0..N {
        let (value, after) = text::number_at(s, next)?;
        values[i] = value;
        next = after;
    }
    Some((values, next))
}

// The numbers in the last N fields.
fn last_numbers<const N: usize>(s: &[u8], at: usize) -> Option<[u64; N]>
    requires { at ≤ length s.now + 1 }
    ensures { result ≡ cond (are_numbers N (fields_from s.now at)) (Some (values_of (fields_from s.now at))) None }
{
    let (values, next) = numbers_at(s, at)?;
    if next <= s.len() {
        return None;
    }
    Some(values)
}

// D: three numbers.
fn read_delivery(s: &[u8]) -> Option<Form>
    requires { 1 ≤ length s.now }
    ensures { form_read result ≡ read_delivery (fields_from s.now 2) }
{
    let [warehouse, carrier, date] = last_numbers::<3>(s, 2)?;
    let q = Delivery {
        warehouse,
        carrier,
        date,
    };
    Some(Form::Delivery(q))
}

// L: three numbers.
fn read_stock_level(s: &[u8]) -> Option<Form>
    requires { 1 ≤ length s.now }
    ensures { form_read result ≡ read_stock_level (fields_from s.now 2) }
{
    let [warehouse, district, threshold] = last_numbers::<3>(s, 2)?;
    let q = StockLevel {
        warehouse,
        district,
        threshold,
    };
    Some(Form::StockLevel(q))
}

// A last name of 1 to 16 bytes, no space at either end.
pub fn name_ok(f: &[u8]) -> bool
    ensures { result ≡ is_name f.now }
{
    let n = f.len();
    if (n < 1) | (16 < n) {
        return false;
    }
    f.iter().all(|x| (32 <= *x) & (*x <= 126)) & (f[0] != 32) & (f[n - 1] != 32)
}

// Who, as a field holds it: # and a number, or = and a name.
fn read_who(f: &[u8]) -> Option<Selection>
    ensures { WhoReads f.now result }
{
    let (mark, rest) = f.split_first()?;
    match *mark {
        b'#' => {
            let c = text::number_of(rest)?;
            Some(Selection::Number(c))
        }
        b'=' if name_ok(rest) => Some(Selection::LastName(rest)),
        _ => None,
    }
}

// Who, in the field that starts at a position, and where the next field starts.
fn who_at(s: &[u8], at: usize) -> Option<(Selection, usize)>
    requires { at ≤ length s.now + 1 }
    ensures { WhoSays s.now at result }
{
    if s.len() < at {
        return None;
    }
    let e = text::field_end(s, at, b'\t');
    let who = read_who(&s[at..e])?;
    Some((who, e + 1))
}

// P: four numbers, who, two numbers.
fn read_payment(s: &[u8]) -> Option<Form>
    requires { 1 ≤ length s.now }
    ensures { form_read result ≡ read_payment (fields_from s.now 2) }
{
    let ([warehouse, district, custwarehouse, custdistrict], at) = numbers_at::<4>(s, 2)?;
    let (who, after) = who_at(s, at)?;
    let [date, amount] = last_numbers::<2>(s, after)?;
    let q = Payment {
        warehouse,
        district,
        custwarehouse,
        custdistrict,
        date,
        amount,
    };
    Some(Form::Payment(q, who))
}

// S: two numbers, who.
fn read_order_status(s: &[u8]) -> Option<Form>
    requires { 1 ≤ length s.now }
    ensures { form_read result ≡ read_order_status (fields_from s.now 2) }
{
    let ([warehouse, district], at) = numbers_at::<2>(s, 2)?;
    let (who, after) = who_at(s, at)?;
    if after <= s.len() {
        return None;
    }
    let q = OrderStatus {
        warehouse,
        district,
    };
    Some(Form::OrderStatus(q, who))
}

// 1 to 15 lines of three numbers each.
fn read_lines(s: &[u8], at: usize) -> Option<Lines>
    requires { at ≤ length s.now + 1 }
    ensures { LinesSay (fields_from s.now at) result }
{
    let mut lines = [NO_LINE; 15];
    let mut next = at;
    for i in 0..15 {
        let ([item, supply, quantity], after) = numbers_at::<3>(s, next)?;
        lines[i] = Line {
            item,
            supply,
            quantity,
        };
        if s.len() < after {
            return Some(Lines {
                count: i + 1,
                lines,
            });
        }
        next = after;
    }
    None
}

// N: four numbers, and the lines.
fn read_new_order(s: &[u8]) -> Option<(Form, Lines)>
    requires { 1 ≤ length s.now }
    ensures read { reading result ≡ read_new_order (fields_from s.now 2) }
    ensures beside { Beside result }
{
    let ([warehouse, district, customer, date], at) = numbers_at::<4>(s, 2)?;
    let lines = read_lines(s, at)?;
    let q = NewOrder {
        warehouse,
        district,
        customer,
        date,
    };
    Some((Form::NewOrder(q), lines))
}

// No lines.
fn no_lines() -> Lines
    ensures { Holds result [] }
{
    Lines {
        count: 0,
        lines: [NO_LINE; 15],
    }
}

// A form without lines beside it.
fn alone(form: Option<Form>) -> Option<(Form, Lines)>
    ensures read { reading result ≡ form_read form.entry }
    ensures beside { Beside result }
{
    let form = form?;
    Some((form, no_lines()))
}

// The form that a line's letter begins; the fields after it start at position 2.
fn read_form(s: &[u8]) -> Option<(Form, Lines)>
    requires { 1 ≤ length s.now }
    ensures read { reading result ≡ read_fields (get_or s.now 0 0) (fields_from s.now 2) }
    ensures beside { Beside result }
{
    match s[0] {
        b'N' => read_new_order(s),
        b'P' => alone(read_payment(s)),
        b'D' => alone(read_delivery(s)),
        b'S' => alone(read_order_status(s)),
        b'L' => alone(read_stock_level(s)),
        _ => None,
    }
}

// A line without its byte 10.
fn read_body(s: &[u8]) -> Option<(Form, Lines)>
    ensures read { reading result ≡ read_parted (parted s.now) }
    ensures beside { Beside result }
{
    if text::field_end(s, 0, b'\t') != 1 {
        return None;
    }
    read_form(s)
}

// A line, whose last byte is 10.
fn read_whole(s: &[u8]) -> Option<(Form, Lines)>
    ensures read { reading result ≡ read_line s.now }
    ensures beside { Beside result }
{
    let (last, body) = s.split_last()?;
    if *last != b'\n' {
        return None;
    }
    read_body(body)
}

// The request of a line, or 1.
pub fn read_line(s: &[u8]) -> ReadAnswer
    ensures says { ReadSays (read_line s.now) result }
    ensures lines { Holds result.lines (lines_beside (read_line s.now)) }
{
    match read_whole(s) {
        Some((form, lines)) => ReadAnswer {
            outcome: Ok(form),
            lines,
        },
        None => ReadAnswer {
            outcome: Err(Refused::NoForm),
            lines: no_lines(),
        },
    }
}
