// Signals, waits and failures in mid-stream, which standard input and output cannot be made to give.
ghost use Rattle.std.specs.Prelude.{◌≤◌, IfOk};

use super::*;
use std::test::Fail;

// What fails so at its first calls, by turns, and then moves at most two bytes a call.
#[derive(Drop)]
struct Slow<'a> {
    errors: &'a [i32],
    moved: usize,
    byte: u8,
}

impl Slow<'_> {
    fn next(&mut self, most: usize) -> io::Result<usize>
        ensures { IfOk result (λ n. n ≤ most) }
    {
        if let Some((first, others)) = self.errors.split_first() {
            let error = *first;
            self.errors = others;
            return Err(Error::from_raw_os_error(error));
        }
        let n = most.min(2);
        self.moved = self.moved.saturating_add(n);
        Ok(n)
    }
}

impl Write for Slow<'_> {
    fn write(&mut self, buf: &[u8]) -> io::Result<usize> {
        let n = self.next(buf.len())?;
        if n > 0 {
            self.byte = buf[0];
        }
        Ok(n)
    }

    fn flush(&mut self) -> io::Result<()> {
        Ok(())
    }
}

impl Read for Slow<'_> {
    fn read(&mut self, buf: &mut [u8]) -> io::Result<usize> {
        let n = self.next(buf.len())?;
        if n > 0 {
            buf[0] = self.byte;
        }
        Ok(n)
    }
}

fn failing_first(errors: &[i32]) -> Slow<'_> {
    Slow {
        errors,
        moved: 0,
        byte: 7,
    }
}

#[test]
fn puts_through_signals_and_waits(rt: HostRuntime) -> Result<(), Fail> {
    let mut out = failing_first(&[4, 11, 4]);
    assert_eq!(rt; put_to(&rt, &mut out, b"abcde"), Ok(()));
    assert_eq!(rt; out.moved, 5);
    assert_eq!(rt; out.byte, b'e');
    let mut gone = failing_first(&[4, 32]);
    assert_eq!(rt; put_to(&rt, &mut gone, b"abcde"), Err(Failed));
    assert_eq!(rt; gone.moved, 0);
    Ok(())
}

#[test]
fn gets_through_signals_and_waits(rt: HostRuntime) -> Result<(), Fail> {
    let mut buf = [0u8; 4];
    let got = get_from(&rt, &mut failing_first(&[11, 4]), &mut buf);
    assert_eq!(rt; got, Ok(2));
    assert_eq!(rt; buf[0], 7);
    let got = get_from(&rt, &mut failing_first(&[4, 5]), &mut buf);
    assert_eq!(rt; got, Err(Failed));
    Ok(())
}
