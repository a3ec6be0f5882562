// Words: signed 64-bit whole numbers that are added, subtracted and multiplied modulo 2^64.
ghost use Rattle.std.specs.Prelude.{ℤ, ◌+ℤ◌, ◌-ℤ◌, ◌*ℤ◌, neg_ℤ};
ghost use Rattle.kinds.specs.Exact.{Alike};

// a + b modulo 2^64: the word of y + z for all whole numbers y and z that have the words a and b.
// The other three say the same of their operation.
pub(crate) fn wrapping_add(a: i64, b: i64) -> i64
    ensures { (y z : ℤ) → Alike a y → Alike b z → Alike result (y +ℤ z) }
{
    a.wrapping_add(b)
}

pub(crate) fn wrapping_sub(a: i64, b: i64) -> i64
    ensures { (y z : ℤ) → Alike a y → Alike b z → Alike result (y -ℤ z) }
{
    a.wrapping_sub(b)
}

pub(crate) fn wrapping_mul(a: i64, b: i64) -> i64
    ensures { (y z : ℤ) → Alike a y → Alike b z → Alike result (y *ℤ z) }
{
    a.wrapping_mul(b)
}

pub(crate) fn wrapping_neg(a: i64) -> i64
    ensures { (z : ℤ) → Alike a z → Alike result (neg_ℤ z) }
{
    a.wrapping_neg()
}
