//! Powers under a multiplication.
ghost use Rattle.std.specs.Prelude.{◌≡◌, ℕ};
ghost use Rattle.field.specs.Arithmetic.{powers};

/// The product of `start` and the powers 2, 4, 8 and so on of `a`, of which `n` are taken. The multiplication can be called at `a`,
/// at `start` and at what it gives itself. The clause speaks of every operation `mul` that gives what the multiplication gives.
pub(crate) fn times_powers<F: Fn(u16, u16) -> u16>(multiply: F, n: u16, a: u16, start: u16) -> u16
    requires base { (y : ℕ) → F.pre multiply a y }
    requires start { (y : ℕ) → F.pre multiply start y }
    requires again { (x y r z : ℕ) → F.post multiply x y r → F.pre multiply r z }
    ensures { (mul : ℕ → ℕ → ℕ) → ((x y r : ℕ) → F.post multiply x y r → r ≡ mul x y) → result ≡ powers mul n a start }
{
    let mut square = a;
    let mut power = start;
    for _i in 0..n {
        square = multiply(square, square);
        power = multiply(power, square);
    }
    power
}
