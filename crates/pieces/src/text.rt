// An answer as text: in decimal, one a line.
ghost use Rattle.std.specs.Prelude.{◌≡◌, ◌+◌, ◌<◌, ◌≤◌, length};
ghost use Rattle.std.proofs.lemmas.List.Edits.{sets};
ghost use Rattle.pieces.specs.Text.{line};

// Puts the digits of a and a line feed at `at`, and gives the place behind them. No `Display`: it goes into lent bytes, of which the promise settles
// each.
pub fn put_line(a: u32, out: &mut [u8], at: usize) -> usize
    requires { (a < 100) × (at + 3 ≤ length out.old) }
    ensures { (out.new ≡ sets out.old at (line a)) × (result ≡ at + length (line a)) }
{
    if a < 10 {
        out[at] = digit(a);
        out[at + 1] = 10;
        return at + 2;
    }
    out[at] = digit(a / 10);
    out[at + 1] = digit(a % 10);
    out[at + 2] = 10;
    at + 3
}

// The character of a digit.
fn digit(d: u32) -> u8
    requires { d < 10 }
    ensures { result ≡ 48 + d }
{
    (48 + d) as u8
}
