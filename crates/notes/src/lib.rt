// The customers' texts lent beside the book: refusal 14, and a payment's note put at the left of its customer's text.
#![tactic(auto)]

ghost use Rattle.std.specs.Prelude.{◌≡◌, [], ◌∷◌, ◌++◌, ◌+◌, ◌%◌, ◌≤◌, length};
ghost use Rattle.model.specs.Text.{decimal};
ghost use Rattle.model.specs.Note.{note_place, text_at, note_bytes, notes_long, note_of, moved, replaced};
ghost use Rattle.model.specs.Claim.{R};
ghost use Rattle.model.proofs.Fields.{Dimensioned};
ghost use Rattle.text.specs.Writing.{Wrote};

use model::{Dims, Payment};

// 14: the text is as long as it has to be.
pub fn long_ok(notes: &[u8], d: Dims) -> bool
    requires { Dimensioned d }
    ensures { result ≡ notes_long d notes.now }
{
    let long = notes.len() as u64;
    let customers = layout::all_customers(d);
    long == 500 * customers
}

// A number's last digit and the byte after it.
fn put_last(text: &mut [u8], at: usize, n: u64, x: u8) -> usize
    requires { at + 2 ≤ length text.old }
    ensures { Wrote text.old text.new at result ((48 + n % 10) ∷ x ∷ []) }
{
    text[at] = (48 + n % 10) as u8;
    text[at + 1] = x;
    at + 2
}

// A number's digits and the byte after them, where there is room for the longest. The last two digits are put here, so that a district or a warehouse is
// written without a call.
#[tactic(auto, using(crate::proofs::Writing::few_digits))]
fn put_number(text: &mut [u8], at: usize, n: u64, x: u8) -> usize
    requires { at + 21 ≤ length text.old }
    ensures { Wrote text.old text.new at result (decimal n ++ (x ∷ [])) × (result ≤ at + 21) }
{
    if n < 10 {
        return put_last(text, at, n, x);
    }
    let tens = n / 10;
    if tens < 10 {
        text[at] = (48 + tens % 10) as u8;
        return put_last(text, at + 1, n, x);
    }
    let p = text::put_digits(text, at, tens / 10);
    text[p] = (48 + tens % 10) as u8;
    put_last(text, p + 1, n, x)
}

// A payment's note written from the front, each number from where the one before ended; its length.
fn write_note(text: &mut [u8], q: Payment, c: u64) -> usize
    requires { 126 ≤ length text.old }
    ensures { Wrote text.old text.new 0 result (note_of q c) × (result ≤ 126) }
{
    let custdistrict = put_number(text, 0, c, b' ');
    let custwarehouse = put_number(text, custdistrict, q.custdistrict, b' ');
    let district = put_number(text, custwarehouse, q.custwarehouse, b' ');
    let warehouse = put_number(text, district, q.district, b' ');
    let amount = put_number(text, warehouse, q.warehouse, b' ');
    put_number(text, amount, q.amount, b';')
}

// A customer's 500 bytes: the note at the left, then the old text as far as there is room. Out and back are two plain copies.
fn put_note(text: &mut [u8], q: Payment, c: u64)
    requires { length text.old ≡ 500 }
    ensures { text.new ≡ moved (note_of q c) text.old }
{
    let mut old = [0u8; 500];
    old.copy_from_slice(text);
    let n = write_note(text, q, c);
    text[n..500].copy_from_slice(&old[0..500 - n]);
}

// A payment by customer c noted in its text.
pub fn note(notes: &mut [u8], d: Dims, q: Payment, c: u64)
    requires { Dimensioned d × (R d.warehouses q.custwarehouse × (R 10 q.custdistrict × (R d.customers c × (length notes.old ≡ note_bytes d)))) }
    ensures { notes.new ≡ replaced (note_place d q.custwarehouse q.custdistrict c)
        (moved (note_of q c) (text_at d notes.old q.custwarehouse q.custdistrict c)) notes.old }
{
    let place = layout::of_customer(d, q.custwarehouse, q.custdistrict, c);
    let from = (500 * place) as usize;
    let to = from + 500;
    put_note(&mut notes[from..to], q, c);
}
