// Numbers in decimal digits and fields parted by tabs: written from a place on, and read.
// A line is lent with the place to write at, which each function hands on: a writer that holds both would say as much in each clause, of its fields.
#![tactic(auto)]

ghost use Rattle.std.specs.Prelude.{◌≡◌, [], ◌∷◌, List, ℕ, map, ◌+◌, ◌*◌, ◌≤◌, length};
ghost use Rattle.model.specs.Text.{decimal, signed, tabbed, line_text};
ghost use Rattle.text.specs.Writing.{Wrote};
ghost use Rattle.text.specs.Fields.{FieldEnd, number_read, StepSays};

// The digits of a number written from a place on; the place after them. Of `write!` into a slice std says how many bytes it took and not which.
pub fn put_digits(line: &mut [u8], at: usize, n: u64) -> usize
    requires { at + length (decimal n) ≤ length line.old }
    ensures { Wrote line.old line.new at result (decimal n) }
{
    if n < 10 {
        line[at] = (48 + n % 10) as u8;
        return at + 1;
    }
    let p = put_digits(&mut line[..], at, n / 10);
    line[p] = (48 + n % 10) as u8;
    p + 1
}

// A tab and a number.
pub fn put_number(line: &mut [u8], at: usize, n: u64) -> usize
    requires { at + 1 + length (decimal n) ≤ length line.old }
    ensures { Wrote line.old line.new at result (tabbed (decimal n ∷ [])) × (result ≤ at + 21) }
{
    line[at] = b'\t';
    put_digits(line, at + 1, n)
}

// A tab and a signed number, where there is room for the longest.
pub fn put_signed(line: &mut [u8], at: usize, z: i64) -> usize
    requires { at + 21 ≤ length line.old }
    ensures { Wrote line.old line.new at result (tabbed (signed z ∷ [])) × (result ≤ at + 21) }
{
    let n = z.unsigned_abs();
    line[at] = b'\t';
    if z < 0 {
        line[at + 1] = b'-';
        return put_digits(line, at + 2, n);
    }
    put_digits(line, at + 1, n)
}

// A number that stands in a field, its text at most twenty bytes long.
pub trait Shown: Copy {
    ghost text: { Self → List ℕ };

    // A tab and the number, where there is room for the longest.
    fn put(self, line: &mut [u8], at: usize) -> usize
        requires { at + 21 ≤ length line.old }
        ensures { Wrote line.old line.new at result (tabbed (text self ∷ [])) × (result ≤ at + 21) };
}

impl Shown for u64 {
    ghost text = { decimal };

    fn put(self, line: &mut [u8], at: usize) -> usize {
        put_number(line, at, self)
    }
}

impl Shown for i64 {
    ghost text = { signed };

    fn put(self, line: &mut [u8], at: usize) -> usize {
        put_signed(line, at, self)
    }
}

// Numbers, each after a tab, where there is room for the longest.
pub fn put_numbers<T: Shown>(line: &mut [u8], at: usize, numbers: &[T]) -> usize
    requires { at + 21 * length numbers.now ≤ length line.old }
    ensures { Wrote line.old line.new at result (tabbed (map T.text numbers.now)) × (result ≤ at + 21 * length numbers.now) }
{
    let mut p = at;
    for n in numbers {
        p = n.put(line, p);
    }
    p
}

// A line of a letter and three numbers, from the front.
pub fn three_line(line: &mut [u8], x: u8, a: u64, b: u64, c: u64) -> usize
    requires { 65 ≤ length line.old }
    ensures { Wrote line.old line.new 0 result (line_text ((x ∷ []) ∷ decimal a ∷ decimal b ∷ decimal c ∷ [])) × (result ≤ 65) }
{
    line[0] = x;
    let p = put_numbers(line, 1, &[a, b, c]);
    line[p] = b'\n';
    p + 1
}

// Where the part that starts at a position ends: at the next byte x, or at the end.
pub fn field_end(s: &[u8], at: usize, x: u8) -> usize
    requires { at ≤ length s.now }
    ensures { FieldEnd x s.now at result }
{
    at + s[at..].iter().take_while(|y| **y != x).count()
}

// The number that a field holds. `parse` takes a plus sign and leading zeros too.
pub fn number_of(f: &[u8]) -> Option<u64>
    ensures { result ≡ number_read f.now }
{
    if f.is_empty() | (10 < f.len()) {
        return None;
    }
    if (f.len() != 1) & (f[0] == b'0') {
        return None;
    }
    let mut v = 0;
    for x in f {
        if !x.is_ascii_digit() {
            return None;
        }
        v = v * 10 + u64::from(*x - b'0');
    }
    Some(v)
}

// The number in the field that starts at a position, and where the next field starts.
pub fn number_at(s: &[u8], at: usize) -> Option<(u64, usize)>
    requires { at ≤ length s.now + 1 }
    ensures { StepSays s.now at result }
{
    if s.len() < at {
        return None;
    }
    let e = field_end(s, at, b'\t');
    let v = number_of(&s[at..e])?;
    Some((v, e + 1))
}
