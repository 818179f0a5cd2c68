// The program's desk: its book, one request line answered, and standard input answered line by line.
#![tactic(auto)]

ghost use Rattle.std.specs.Prelude.{◌≡◌, ◌≤◌, ℕ, pos, length, take, replicate, is_ok, if◌then◌else◌};
ghost use Rattle.std.specs.List.{flat_map};
ghost use Rattle.std.specs.Process.{exit_status};
ghost use Rattle.model.specs.Request.{lent};
ghost use Rattle.model.specs.RequestLine.{read_line};
ghost use Rattle.model.specs.AnswerLine.{left_after};
ghost use Rattle.model.proofs.Listing.{program_book, program_names, program_last, program_notes, program_topup};
ghost use Rattle.blocks.specs.Cutting.{Started};
ghost use Rattle.desk.specs.Step.{Stepped, was_opened, Ran};
ghost use Rattle.desk.specs.Input.{FedIn, Served};
ghost use Rattle.desk.specs.Filling.{head_to, districts_to, prices_to, stocks_to, two_names};
ghost use Rattle.desk.specs.declared.Stopped.TheVariants as Stop;

use blocks::Taken;
use engine::Lent;
use model::Refused;
use std::os::fd::AsFd;
use std::process::ExitCode;
use std::rt::{Clock, Files};
use stdio::Failed;

// The head and the warehouse's tax.
#[tactic(auto, unfolding(crate::specs::Filling::head_to))]
fn fill_head(b: &mut [i64])
    requires { 3479 ≤ length b.old }
    ensures { b.new ≡ head_to b.old }
{
    b[..5].copy_from_slice(&[1, 2, 5, 4, 8]);
    b[6] = 1000;
}

// Taxes, next order numbers and discounts of the ten districts.
#[tactic(auto, unfolding(crate::specs::Filling::districts_to))]
fn fill_districts(b: &mut [i64])
    requires { 3479 ≤ length b.old }
    ensures { b.new ≡ districts_to 10 b.old }
{
    for k in 0..10 {
        b[8 + 3 * k] = 500;
        b[10 + 3 * k] = 1;
        b[39 + 12 * k] = 1000;
    }
}

// The prices of the five items.
#[tactic(auto, unfolding(crate::specs::Filling::prices_to))]
fn fill_prices(b: &mut [i64])
    requires { 3479 ≤ length b.old }
    ensures { b.new ≡ prices_to b.old }
{
    b[158] = 100;
    b[159] = 250;
    b[160] = 999;
    b[162] = 1234;
}

// What the five stock rows hold.
#[tactic(auto, unfolding(crate::specs::Filling::stocks_to))]
fn fill_stocks(b: &mut [i64])
    requires { 3479 ≤ length b.old }
    ensures { b.new ≡ stocks_to 5 b.old }
{
    for k in 0..5 {
        b[163 + 4 * k] = 20;
    }
}

// The program's numbers.
#[tactic(auto, using(crate::proofs::Filled::numbers_filled))]
fn fill_numbers(b: &mut [i64])
    requires { b.old ≡ replicate 3479 (pos 0) }
    ensures { b.new ≡ program_book }
{
    fill_head(b);
    fill_districts(b);
    fill_prices(b);
    fill_stocks(b);
}

// The names of a district: ALM, EVA and ALM, BO.
fn two_names() -> [u8; 64]
    ensures { result ≡ two_names }
{
    *b"ALM             EVA             ALM             BO              "
}

// The program's names, district by district.
fn names() -> [[u8; 64]; 10]
    ensures { flat_map (λ x. x) result ≡ program_names }
{
    [two_names(); 10]
}

// The program's table: a margin of 10 and a lift of 91 for each of its five items.
fn ten_and_91() -> [[i64; 2]; 5]
    ensures { flat_map (λ x. x) result ≡ program_topup }
{
    [[10, 91]; 5]
}

// One request line in, one answer out to a buffer: its length.
fn step(s: &mut Lent, line: &[u8], out: &mut [u8; 2048]) -> usize
    ensures { Stepped s.old line.now out.old out.new result s.new }
{
    let r = lines::read_line(line);
    match r.outcome {
        Ok(form) => {
            let a = s.carry_out(form, r.lines.as_slice());
            answers::write_answer(out, a.outcome, a.orders, s.part(a.part)).unwrap()
        }
        Err(_) => answers::write_no_form(out).unwrap(),
    }
}

// One request line answered to standard output.
fn answer(
    rt: &(impl Print + Eprint + Clock),
    s: &mut Lent,
    line: &[u8],
    out: &mut [u8; 2048],
) -> Result<(), Failed>
    ensures { s.new ≡ left_after s.old (read_line line.now) }
{
    let n = step(s, line, out);
    stdio::put(rt, &out[..n])
}

// A block of input: each line that it ends is answered, until the output takes no more. How many bytes the line so far has. The loop goes from cut to cut
// and counts no index; the line and its length stay apart, for the line's 1,024 bytes are lent once (no heap).
fn feed(
    rt: &(impl Print + Eprint + Clock),
    s: &mut Lent,
    line: &mut [u8],
    len: usize,
    block: &[u8],
) -> Result<usize, Failed>
    requires { Started line.old len block.now 0 }
    ensures { FedIn s.old (take len line.old) block.now line.new result s.new }
{
    let mut out = [0u8; 2048];
    let mut so_far = len;
    let mut at = 0;
    loop {
        match blocks::cut(line, so_far, block, at) {
            Taken::Unended { len } => return Ok(len),
            Taken::Ended { len, next } => {
                answer(rt, s, &line[..len], &mut out)?;
                so_far = 0;
                at = next;
            }
        }
    }
}

// Standard input answered line by line on the program's book, until it ends, cannot be read, or the output takes no more; at its end a last line without its own
// is answered too. Fine where all was read and every answer taken.
fn serve(rt: &(impl Input + Print + Eprint + Clock), s: &mut Lent) -> Result<(), Failed>
    requires { s.old ≡ lent program_book program_names program_last program_notes program_topup }
    ensures { Served s.old s.new }
{
    let mut block = [0u8; 4096];
    let mut line = [0u8; 1024];
    let mut len = 0;
    // Counted, for nothing says that the input ends.
    for _ in 0..u64::MAX {
        let n = stdio::get(rt, &mut block)?;
        if n > 0 {
            len = feed(rt, s, &mut line, len, &block[..n])?;
        } else if len > 0 {
            return answer(rt, s, &line[..len], &mut [0; 2048]);
        } else {
            return Ok(());
        }
    }
    Err(Failed)
}

// Why the program ended before it had done all.
#[derive(Clone, Copy, Debug, PartialEq, Eq)]
pub enum Stopped {
    // Opening refused its book.
    Refused(Refused),
    // Input or output failed.
    Failed(Failed),
}

// The program: its book, opened, with last orders all 0, texts all spaces and the table 10, 91, and standard input answered on it; where all went well the
// output is looked at once more. Opening accepts the book.
pub fn run(
    rt: &(impl Input + Print + Eprint + Clock + Files),
    out: &impl AsFd,
) -> Result<(), Stopped>
    ensures { Ran program_book program_names program_topup (was_opened result) }
{
    let mut nums = [0i64; 3479];
    let names = names();
    let names = names.as_flattened();
    let mut last = [0i64; 20];
    let mut notes = [32u8; 10000];
    let topup = ten_and_91();
    let topup = topup.as_flattened();
    fill_numbers(&mut nums);
    opening::opening(&nums, names, topup)
        .outcome
        .map_err(Stopped::Refused)?;
    let mut s = Lent {
        nums: &mut nums,
        names,
        last: &mut last,
        notes: &mut notes,
        topup,
    };
    serve(rt, &mut s).map_err(Stopped::Failed)?;
    stdio::close(rt, out).map_err(Stopped::Failed)
}

// The program's exit status: 0 only where all went well.
pub fn status(ended: Result<(), Stopped>) -> ExitCode
    ensures { exit_status result ≡ (if is_ok ended then 0 else 1) }
{
    match ended {
        Ok(()) => ExitCode::SUCCESS,
        Err(_) => ExitCode::FAILURE,
    }
}
