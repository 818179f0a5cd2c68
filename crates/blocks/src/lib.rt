// A block of input cut into lines.
#![tactic(auto)]

ghost use Rattle.std.specs.Prelude.{◌≡◌, ◌++◌, ◌≤◌, length, take};
ghost use Rattle.blocks.specs.Cutting.{Started, CutSays};

// Bytes put to a line so far. Of an overlong line the first 1,024 bytes are kept, which have no form.
fn keep(line: &mut [u8], n: usize, bytes: &[u8]) -> usize
    requires { (length line.old ≡ 1024) × (n ≤ 1024) }
    ensures { (take result line.new ≡ take 1024 (take n line.old ++ bytes.now)) × (result ≤ 1024) }
{
    let more = bytes.len().min(1024 - n);
    let end = n + more;
    line[n..end].copy_from_slice(&bytes[..more]);
    end
}

// What a block's bytes do to the line so far: they end it before the place `next`, or all are taken and it goes on. Its bytes are `len`.
#[derive(Clone, Copy)]
pub enum Taken {
    Ended { len: usize, next: usize },
    Unended { len: usize },
}

// Bytes of a block taken into the line so far, from a place up to the line's end or the block's.
pub fn cut(line: &mut [u8], len: usize, block: &[u8], at: usize) -> Taken
    requires { Started line.old len block.now at }
    ensures { CutSays (take len line.old) block.now at line.new result }
{
    let rest = &block[at..];
    match rest.iter().position(|x| *x == b'\n') {
        Some(i) => {
            let len = keep(line, len, &rest[..i + 1]);
            Taken::Ended {
                len,
                next: at + i + 1,
            }
        }
        None => Taken::Unended {
            len: keep(line, len, rest),
        },
    }
}
